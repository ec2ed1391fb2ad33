//! Finding values of a valid document that its author may not have meant.

ghost use Rattle.std.specs.Prelude.{IfOk};
ghost use Rattle.modinfo_document.specs.Report.{HasNone};
ghost use Rattle.modinfo_document.specs.Spelling.{AreSpelled, HasOnlyValues, WarnsOfEach};

use crate::lookup::{elements, member};
use crate::report::pointer::pointer_to;
use crate::report::spelling::warn_of_literals;
use crate::report::warning::{MAX_KEPT, ValueWarning, Warning, WarningKind, Warnings};
use crate::{Document, ObjectKind, member_names};
use deno_graph_json::{Element, ReferenceToken};
use std::alloc::{AllocError, Global};
use std::marker::Model;

/// The warnings about values, in the order of reading.
#[derive(Drop)]
struct ValueWarnings {
    warnings: Warnings,
}

impl Model for ValueWarnings {
    ghost use Rattle.modinfo_document.specs.Spelling.{HasOnlyValues};
    ghost use Rattle.modinfo_document.specs.declared.report.warning.Warnings.{Warnings};

    ghost Value = { Warnings };

    ghost view = { λ values. values.warnings };

    ghost invariant = { λ values. HasOnlyValues values.warnings };
}

impl ValueWarnings {
    fn new(alloc: Global) -> ValueWarnings {
        ValueWarnings {
            warnings: Warnings::new(alloc),
        }
    }

    /// Returns whether a further warning is only counted.
    fn is_full(&self) -> bool {
        self.warnings.kept.len() >= MAX_KEPT
    }

    /// Adds a warning about the value to which the pointer leads. The only error is a failed allocation.
    fn push(&mut self, pointer: String, warning: ValueWarning) -> Result<(), AllocError> {
        self.warnings.push(Warning {
            pointer,
            kind: WarningKind::Value(warning),
        })
    }

    /// Returns the warnings.
    fn into_warnings(self) -> Warnings
        ensures { HasOnlyValues result }
    {
        self.warnings
    }
}

/// A search for values to warn about.
#[derive(Drop)]
struct Survey<'a> {
    alloc: Global,
    source: &'a str,
    /// The steps to the value that is looked at, from the outermost on.
    path: Vec<ReferenceToken<'a>>,
    found: ValueWarnings,
}

/// Finds the warnings about a valid document, which was read from the value `root`. The only error is a
/// failed allocation.
pub fn find_warnings(
    alloc: Global,
    root: Element<'_>,
    document: &Document,
) -> Result<Warnings, AllocError>
    ensures none { IfOk result (λ warnings. HasNone warnings → AreSpelled document.now) }
    ensures each { IfOk result (WarnsOfEach document.now) }
{
    let mut warnings = warn_of_values(alloc, root, document)?;
    warn_of_literals(alloc, document, &mut warnings)?;
    Ok(warnings)
}

/// Finds the warnings about the values of a document, except the warnings about string literals.
fn warn_of_values(
    alloc: Global,
    root: Element<'_>,
    document: &Document,
) -> Result<Warnings, AllocError>
    ensures { IfOk result HasOnlyValues }
{
    let mut survey = Survey {
        alloc,
        source: document.source.as_str(),
        path: Vec::new(alloc),
        found: ValueWarnings::new(alloc),
    };
    survey.document(root)?;
    Ok(survey.found.into_warnings())
}

impl<'a> Survey<'a> {
    fn document(&mut self, root: Element<'a>) -> Result<(), AllocError> {
        self.members(root, ObjectKind::Document)?;
        self.entries(root, "leading")?;
        self.entries(root, "trailing")?;
        match member(root, "program") {
            Some(program) => self.program(program),
            None => Ok(()),
        }
    }

    fn program(&mut self, program: Element<'a>) -> Result<(), AllocError> {
        self.enter("program")?;
        self.members(program, ObjectKind::Program)?;
        self.nodes(program, "body")
    }

    /// Goes to the member of this name.
    fn enter(&mut self, name: &'a str) -> Result<(), AllocError> {
        Ok(self.path.push(ReferenceToken::Name(name))?)
    }

    /// Goes to the element with this index.
    fn enter_item(&mut self, number: usize) -> Result<(), AllocError> {
        Ok(self.path.push(ReferenceToken::Index(number))?)
    }

    /// Goes back to the value around.
    fn leave(&mut self) {
        self.path.pop();
    }

    /// Warns about the value that is looked at. A warning that is only counted needs no pointer.
    fn warn(&mut self, warning: ValueWarning) -> Result<(), AllocError> {
        let pointer = if self.found.is_full() {
            String::new(self.alloc)
        } else {
            pointer_to(self.alloc, self.path.as_slice())?
        };
        self.found.push(pointer, warning)
    }

    /// Warns about the member of this name.
    fn warn_at(&mut self, name: &'a str, warning: ValueWarning) -> Result<(), AllocError> {
        self.enter(name)?;
        self.warn(warning)?;
        self.leave();
        Ok(())
    }

    /// Warns about the members of an object that nothing reads.
    fn members(&mut self, value: Element<'a>, kind: ObjectKind<'_>) -> Result<(), AllocError> {
        let Some(members) = value.members() else {
            return Ok(());
        };
        for (name, _) in members {
            if !is_read(kind, name) {
                self.warn_at(name, ValueWarning::UnreadMember)?;
            }
        }
        Ok(())
    }

    /// Warns about the comments of a side, and their positions.
    fn entries(&mut self, root: Element<'a>, side: &'a str) -> Result<(), AllocError> {
        let Some(entries) = elements(root, side) else {
            return Ok(());
        };
        self.enter(side)?;
        let mut number = 0usize;
        for entry in entries {
            self.enter_item(number)?;
            self.members(entry, ObjectKind::CommentEntry)?;
            self.position(entry)?;
            self.each(entry, "comments", ObjectKind::Comment)?;
            self.leave();
            number = number.saturating_add(1);
        }
        self.leave();
        Ok(())
    }

    /// Warns about the members of each object in the array `name` that nothing reads.
    fn each(
        &mut self,
        value: Element<'a>,
        name: &'a str,
        kind: ObjectKind<'_>,
    ) -> Result<(), AllocError> {
        let Some(values) = elements(value, name) else {
            return Ok(());
        };
        self.enter(name)?;
        let mut number = 0usize;
        for value in values {
            self.enter_item(number)?;
            self.members(value, kind)?;
            self.leave();
            number = number.saturating_add(1);
        }
        self.leave();
        Ok(())
    }

    /// Warns about a position at which no comment is looked for.
    fn position(&mut self, entry: Element<'a>) -> Result<(), AllocError> {
        match member(entry, "pos").and_then(|pos| pos.as_u64()) {
            Some(at) if at as usize > self.source.len() => self.warn_at(
                "pos",
                ValueWarning::PositionBeyond,
            ),
            Some(at) if !self.source.is_char_boundary(at as usize) => self.warn_at(
                "pos",
                ValueWarning::PositionInside,
            ),
            _ => Ok(()),
        }
    }

    /// Warns about the nodes in the array `name` of a node or a program.
    #[cycle(walk)]
    fn nodes(&mut self, parent: Element<'a>, name: &'a str) -> Result<(), AllocError> {
        let Some(nodes) = elements(parent, name) else {
            return Ok(());
        };
        let (first, last) = offsets_of(parent);
        let mut before = first;
        self.enter(name)?;
        let mut number = 0usize;
        for node in nodes {
            self.enter_item(number)?;
            let (start, end) = offsets_of(node);
            if start < first || end > last {
                self.warn(ValueWarning::RangeOutside)?;
            } else if start < before {
                self.warn(ValueWarning::RangeEarlier)?;
            } else {
                before = start;
            }
            self.node(node)?;
            self.leave();
            number = number.saturating_add(1);
        }
        self.leave();
        Ok(())
    }

    /// Warns about a node, and all nodes below.
    #[cycle(walk)]
    fn node(&mut self, node: Element<'a>) -> Result<(), AllocError> {
        let kind = member(node, "kind").and_then(|kind| kind.as_str());
        self.members(node, ObjectKind::Node(kind.unwrap_or("Other")))?;
        self.parts(node)?;
        self.nodes(node, "children")
    }

    /// Warns about the literal, the arguments and the key of a node.
    fn parts(&mut self, node: Element<'a>) -> Result<(), AllocError> {
        if let Some((name, literal)) = literal_of(node) {
            self.enter(name)?;
            self.members(literal, ObjectKind::Literal)?;
            self.leave();
        }
        self.each(node, "args", ObjectKind::Argument)?;
        if let Some(key) = member(node, "key") {
            self.enter("key")?;
            self.members(key, ObjectKind::Key)?;
            self.leave();
        }
        Ok(())
    }
}

/// Returns whether an object may have a member of this name.
fn is_read(kind: ObjectKind<'_>, name: &str) -> bool {
    member_names(kind).iter().any(|member| *member == name)
}

/// The offsets of the last member `range`, in bytes; `(0, 0)` if there is none.
fn offsets_of(value: Element<'_>) -> (u64, u64) {
    member(value, "range")
        .and_then(|range| range.as_pair())
        .unwrap_or((0, 0))
}

/// The string literal of a node, and the name of its member. `None` if the node's kind has none, or the
/// literal is missing or null.
fn literal_of<'a>(node: Element<'a>) -> Option<(&'a str, Element<'a>)> {
    let name = literal_name(member(node, "kind")?.as_str()?)?;
    let literal = member(node, name)?;
    (!literal.is_null()).then_some((name, literal))
}

/// The name of the member with the string literal of a node of this kind.
fn literal_name<'a>(kind: &str) -> Option<&'a str> {
    match kind {
        "ImportDecl" | "NamedExport" | "ExportAll" => Some("src"),
        "ImportEquals" => Some("external"),
        "ImportType" => Some("arg"),
        "ModuleDecl" => Some("name"),
        _ => None,
    }
}
