ghost use Rattle.std.specs.Prelude.{◌≡◌, length};
ghost use Rattle.deno_graph_json.specs.Data.{members_data};
ghost use Rattle.deno_graph_json.specs.Found.{AreFound};
ghost use Rattle.deno_graph_json.specs.internal.Found.{after_member};

use crate::flat::{Element, Members};

impl<'a> Members<'a> {
    /// Finds the last value of each name, in one pass over the members. Sets the element of `found`
    /// that has the index of the name, to None if no member has the name.
    ///
    /// Compares the name of each member with each of `names`. Allocates nothing.
    #[inline(always)]
    pub fn find(self, names: &[&str], found: &mut [Option<Element<'a>>])
        ensures length { length found.new ≡ length found.old }
        ensures found { AreFound names.now (members_data self.entry) found.new }
    {
        found.fill(None);
        for (key, value) in self {
            set_named(names, key, value, found);
        }
    }
}

/// Sets the element of each name that is `key`.
#[inline(always)]
fn set_named<'a>(names: &[&str], key: &str, value: Element<'a>, found: &mut [Option<Element<'a>>])
    ensures length { length found.new ≡ length found.old }
    ensures found { found.new ≡ after_member names.now key.now value.entry found.old }
{
    let mut index = 0;
    while index < names.len() && index < found.len() {
        if key == names[index] {
            found[index] = Some(value);
        }
        index += 1;
    }
}
