//! Choices of members by their names.

ghost use Rattle.std.specs.Prelude.{◌≡◌};
ghost use Rattle.deno_graph_info.specs.internal.Chosen.{is_above, is_below, is_other, passes, test_of, text_of};

/// A choice of members by their names: above one name, below another, and not a third. A test is left
/// out if its name is None.
#[derive(Clone, Copy)]
pub struct Names<'a> {
    pub above: Option<&'a str>,
    pub below: Option<&'a str>,
    pub except: Option<&'a str>,
}

impl<'a> Names<'a> {
    /// Returns whether a member with this name is chosen.
    pub fn has(self, name: &str) -> bool
        ensures { result ≡ passes (test_of self.entry) name.now }
    {
        comes_after(self.above, name)
            && comes_before(self.below, name)
            && differs(self.except, name)
    }
}

/// Returns whether the name is above `least`, if there is one, compared byte by byte.
pub fn comes_after(least: Option<&str>, name: &str) -> bool
    ensures { result ≡ is_above (text_of least.entry) name.now }
{
    match least {
        Some(least) => least < name,
        None => true,
    }
}

/// Returns whether the name is below `most`, if there is one, compared byte by byte.
fn comes_before(most: Option<&str>, name: &str) -> bool
    ensures { result ≡ is_below (text_of most.entry) name.now }
{
    match most {
        Some(most) => name < most,
        None => true,
    }
}

/// Returns whether the name isn't `excepted`.
fn differs(excepted: Option<&str>, name: &str) -> bool
    ensures { result ≡ is_other (text_of excepted.entry) name.now }
{
    match excepted {
        Some(excepted) => excepted != name,
        None => true,
    }
}
