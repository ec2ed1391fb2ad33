ghost use Rattle.std.specs.Prelude.{◌≡◌, ◌==◌, IfOk};
ghost use Rattle.serde_json.specs.Events.{members_len};
ghost use Rattle.deno_graph_base.specs.TextMap.{IsAscending};
ghost use Rattle.deno_graph_json.specs.Data.{members_data, named_data};

use crate::flat::{Element, Members};
use deno_graph_base::values::{Text, TextMap};
use std::alloc::{AllocError, Global};

impl<'a> Members<'a> {
    /// Returns the last value of each name, in the order of the names' bytes. The only error is that an
    /// allocation fails.
    pub fn sorted(self, alloc: Global) -> Result<TextMap<Element<'a>>, AllocError>
        ensures members { IfOk result (λ found. named_data found ≡ members_data self.entry) }
        ensures ordered { IfOk result (λ found. IsAscending found) }
    {
        let mut found = TextMap::new(alloc);
        for (name, value) in self {
            drop(found.insert(Text::from_str(alloc, name)?, value)?);
        }
        Ok(found)
    }

    /// Returns whether all members have one name, and there is one.
    pub fn have_one_name(self) -> bool
        ensures { result ≡ (members_len (members_data self.entry) == 1) }
    {
        let mut first = None;
        for (name, _) in self {
            match first {
                None => first = Some(name),
                Some(first) if first == name => {}
                Some(_) => return false,
            }
        }
        first.is_some()
    }
}
