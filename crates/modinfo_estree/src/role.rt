ghost use Rattle.std.specs.Prelude.{◌≡◌};
ghost use Rattle.modinfo_estree.specs.Child.{is_in, is_read, role_of};

/// The member of the parent in which a node is. `Other` if no rule reads the member.
#[derive(Clone, Copy, Debug, PartialEq, Eq)]
pub enum Role {
    Arguments,
    /// `attributes`, or `assertions` in older trees.
    Attributes,
    Callee,
    Decorators,
    Expressions,
    Id,
    Key,
    Left,
    Options,
    Properties,
    Right,
    Source,
    Value,
    Other,
}

impl Role {
    /// Returns the role of the nodes in the member of this name. The value of an attribute of JSX isn't
    /// written as a string of JavaScript, and no rule reads it.
    #[tactic(auto, unfolding(crate::specs::Child::role_of, modinfo_document::specs::Named::named))]
    pub fn of_member(is_jsx_attribute: bool, name: &str) -> Role
        ensures { result ≡ role_of is_jsx_attribute name.now }
    {
        if is_jsx_attribute {
            return Role::Other;
        }
        match name {
            "arguments" => Role::Arguments,
            "attributes" | "assertions" => Role::Attributes,
            "callee" => Role::Callee,
            "decorators" => Role::Decorators,
            "expressions" => Role::Expressions,
            "id" => Role::Id,
            "key" => Role::Key,
            "left" => Role::Left,
            "options" => Role::Options,
            "properties" => Role::Properties,
            "right" => Role::Right,
            "source" => Role::Source,
            "value" => Role::Value,
            _ => Role::Other,
        }
    }

    /// Returns whether a rule may read a string literal of this role: each but `Other`.
    pub fn is_read(self) -> bool
        ensures { result ≡ is_read self }
    {
        !matches!(self, Role::Other)
    }

    /// Returns whether nodes of this role belong to a group.
    pub fn is_in(self, group: Group) -> bool
        ensures { result ≡ is_in group self }
    {
        match group {
            Group::Arguments => matches!(
                self,
                Role::Arguments | Role::Attributes | Role::Options | Role::Source
            ),
            Group::Attributes => matches!(self, Role::Attributes),
            Group::Callee => matches!(self, Role::Callee),
            Group::Decorators => matches!(self, Role::Decorators),
            Group::DecoratorsAndKey => matches!(self, Role::Decorators | Role::Key),
            Group::Expressions => matches!(self, Role::Expressions),
            Group::Id => matches!(self, Role::Id),
            Group::Operands => matches!(self, Role::Left | Role::Right),
            Group::Options => matches!(self, Role::Options),
            Group::Properties => matches!(self, Role::Properties),
            Group::Property => matches!(self, Role::Key | Role::Value),
        }
    }
}

/// Roles that nodes are asked for by.
#[derive(Clone, Copy, Debug, PartialEq, Eq)]
pub enum Group {
    /// The arguments of a call, or the source and the options of an `ImportExpression`.
    Arguments,
    Attributes,
    Callee,
    Decorators,
    DecoratorsAndKey,
    Expressions,
    Id,
    /// The left and the right operand.
    Operands,
    Options,
    Properties,
    /// The key and the value of a property.
    Property,
}
