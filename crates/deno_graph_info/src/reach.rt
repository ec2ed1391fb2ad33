//! The modules that a module reaches by its dependencies.

ghost use Rattle.std.specs.Prelude.{◌≡◌, map, IfOk, OnOk, option_map};
ghost use Rattle.std.specs.Map.{keys_of};
ghost use Rattle.std.specs.String.{string_bytes};
ghost use Rattle.deno_graph_base.specs.TextMap.{entries_of, IsAscending};
ghost use Rattle.deno_graph_info.specs.Reach.{IsReach, named_specifier};
ghost use Rattle.deno_graph_info.specs.internal.ReachSteps.{Grows, NamesIn, infos_of};

use crate::analysis::{DependencyDescriptor, DynamicArgument, ModuleInfo};
use deno_graph_base::values::{Text, TextMap};
use std::alloc::{AllocError, Global};
use std::collections::BTreeMap;

/// Returns the keys of the modules that the module at `root` reaches, in ascending order, `root`
/// included. Returns none if `root` is no key.
///
/// A module reaches the keys that are specifiers of its static dependencies or string arguments of
/// its dynamic dependencies, and what these modules reach. Ignores specifiers that are no keys, and
/// resolves nothing. The only error is that an allocation fails.
pub fn reach(
    alloc: Global,
    modules: &BTreeMap<String, ModuleInfo>,
    root: &str,
) -> Result<Vec<String>, AllocError>
    ensures { IfOk result
        (λ keys. IsReach (entries_of modules.now) root.now (map string_bytes keys.items)) }
{
    let mut reached = TextMap::new(alloc);
    let mut pending = Vec::new(alloc);
    visit(alloc, modules, root, &mut reached, &mut pending)?;
    'search: loop {
        match pending.pop() {
            Some(info) => visit_dependencies(alloc, modules, info, &mut reached, &mut pending)?,
            None => return keys_reached(alloc, &reached),
        }
    }
}

/// Visits each module that is a dependency of this module and wasn't reached before.
fn visit_dependencies<'a>(
    alloc: Global,
    modules: &'a BTreeMap<String, ModuleInfo>,
    info: &ModuleInfo,
    reached: &mut TextMap<()>,
    pending: &mut Vec<&'a ModuleInfo>,
) -> Result<(), AllocError>
    ensures { OnOk result (Grows (entries_of modules.now) (NamesIn info.now.dependencies)
        reached.old reached.new (infos_of pending.old.items) (infos_of pending.new.items)) }
{
    for dependency in info.dependencies.as_slice() {
        match specifier_of(dependency) {
            Some(specifier) => visit(alloc, modules, specifier, reached, pending)?,
            None => {}
        }
    }
    Ok(())
}

/// Marks the module at `key`, if there is one, as reached, and adds it to the pending modules unless
/// it was reached before.
fn visit<'a>(
    alloc: Global,
    modules: &'a BTreeMap<String, ModuleInfo>,
    key: &str,
    reached: &mut TextMap<()>,
    pending: &mut Vec<&'a ModuleInfo>,
) -> Result<(), AllocError>
    ensures { OnOk result (Grows (entries_of modules.now) (λ k. k ≡ key.now)
        reached.old reached.new (infos_of pending.old.items) (infos_of pending.new.items)) }
{
    match modules.get(key) {
        Some(info) => {
            if reached.get(key).is_none() {
                pending.push(info)?;
                drop(reached.insert(Text::from_str(alloc, key)?, ())?);
            }
            Ok(())
        }
        None => Ok(()),
    }
}

/// Returns the specifier of a static dependency, or the string argument of a dynamic one.
fn specifier_of(dependency: &DependencyDescriptor) -> Option<&str>
    ensures { option_map (λ s. s.now) result ≡ named_specifier dependency.now }
{
    match dependency {
        DependencyDescriptor::Static(descriptor) => Some(descriptor.specifier.as_str()),
        DependencyDescriptor::Dynamic(descriptor) => match &descriptor.argument {
            DynamicArgument::String(text) => Some(text.as_str()),
            _ => None,
        },
    }
}

/// Copies the keys, in ascending order.
fn keys_reached(alloc: Global, reached: &TextMap<()>) -> Result<Vec<String>, AllocError>
    ensures keys { IfOk result (λ keys. map string_bytes keys.items ≡ keys_of reached.now) }
    ensures ascending { OnOk result (IsAscending reached.now) }
{
    let mut keys = Vec::with_capacity(alloc, reached.len())?;
    for (key, _value) in reached {
        let copy = String::from_str(alloc, key)?;
        keys.push(copy)?;
    }
    Ok(keys)
}
