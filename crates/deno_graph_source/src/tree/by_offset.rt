ghost use Rattle.std.specs.Prelude.{◌≡◌, [], ◌++◌, true, false, map, slice_get, IfOk, IsSomeAnd, MatchOption, OnOk, OnErr};
ghost use Rattle.std.specs.List.{All};
ghost use Rattle.std.specs.List.Sorted.{IsStrictlySortedBy};
ghost use Rattle.std.specs.Map.{keys_of};
ghost use Rattle.std.specs.Ordering.{nat_cmp};
ghost use Rattle.deno_graph_source.specs.ByOffset.{AddsItem};
ghost use Rattle.std.specs.Option.{option_copied};

use deno_graph_base::values::{Items, TryClone};
use std::alloc::{AllocError, Global};
use std::collections::BTreeMap;
use std::marker::Model;

/// Values by an offset in a text, in bytes. Contracts see the offsets with their values, in
/// ascending order of the offsets.
#[derive(Debug, Drop)]
pub(crate) struct ByOffset<V> {
    map: BTreeMap<usize, V>,
    alloc: Global,
}

impl<V> Model for ByOffset<V> {
    ghost use Rattle.std.specs.Prelude.{List, ℕ};
    ghost use Rattle.std.specs.Coded.{coded_list, coded×, coded_ℕ};
    ghost use Rattle.std.specs.List.Sorted.{IsStrictlySortedBy};
    ghost use Rattle.std.specs.Map.{keys_of};
    ghost use Rattle.std.specs.Ordering.{nat_cmp};

    ghost Value = { List (ℕ × V) };

    ghost coded = { coded_list (coded× coded_ℕ V.code) };

    ghost view = { λ by. by.map.entries };

    ghost invariant = { λ by. IsStrictlySortedBy nat_cmp (keys_of by.map.entries) };
}

impl<V> ByOffset<V> {
    ghost use Rattle.deno_graph_source.specs.ByOffset.{value_at};

    /// Returns no values. Allocates nothing.
    pub(crate) fn new(alloc: Global) -> ByOffset<V>
        ensures { result ≡ [] }
    {
        ByOffset {
            map: BTreeMap::new(alloc),
            alloc,
        }
    }

    /// Returns the value at `pos`, or `None` if there is none.
    pub(crate) fn get(&self, pos: usize) -> Option<&V>
        ensures { option_copied result ≡ value_at self.now pos }
    {
        self.map.get(&pos)
    }
}

impl<T> ByOffset<Items<T>> {
    ghost use Rattle.deno_graph_source.specs.ByOffset.{all_items};

    /// Adds the items at all offsets at the end of `all`. Fails only if an allocation fails.
    pub(crate) fn push_items<'a>(&'a self, all: &mut Vec<&'a T>) -> Result<(), AllocError>
        ensures { OnOk result
            (map (λ item. item.now) all.new.items
            ≡ map (λ item. item.now) all.old.items ++ all_items self.now) }
    {
        for items in self.map.values() {
            push_each(all, items.as_slice())?;
        }
        Ok(())
    }
}

/// Adds `items` at the end of `all`. Fails only if an allocation fails.
fn push_each<'a, T>(all: &mut Vec<&'a T>, items: &'a [T]) -> Result<(), AllocError>
    ensures { OnOk result
        (map (λ item. item.now) all.new.items
        ≡ map (λ item. item.now) all.old.items ++ items.now) }
{
    for item in items {
        all.push(item)?;
    }
    Ok(())
}

impl<T: PartialEq> ByOffset<Items<T>> {
    ghost use Rattle.deno_graph_source.specs.ByOffset.{all_items};
    ghost use Rattle.deno_graph_source.specs.internal.ByOffset.{HasEqualAt};

    /// Returns the first offset with an item that is equal to `wanted`, and the index of the item
    /// among those at this offset. Returns `None` if no item is equal.
    pub(crate) fn find(&self, wanted: &T) -> Option<(usize, usize)>
        ensures { MatchOption result
            (All (λ item. T.eq item wanted.now ≡ false) (all_items self.now))
            (λ place. HasEqualAt T.eq self.now place.0 place.1 wanted.now) }
    {
        for (pos, items) in &self.map {
            if let Some(number) = number_of(items.as_slice(), wanted) {
                return Some((*pos, number));
            }
        }
        None
    }
}

/// Returns the index of the first item that is equal to `wanted`, or `None` if no item is equal.
fn number_of<T: PartialEq>(items: &[T], wanted: &T) -> Option<usize>
    ensures { MatchOption result
        (All (λ item. T.eq item wanted.now ≡ false) items.now)
        (λ number. IsSomeAnd (slice_get items.now number) (λ item. T.eq item wanted.now ≡ true)) }
{
    for (number, item) in items.iter().enumerate() {
        if *item == *wanted {
            return Some(number);
        }
    }
    None
}

impl<T: Drop> ByOffset<Items<T>> {
    /// Adds `item` as the last item at the offset `pos`. If an allocation fails, drops `item` and
    /// leaves the values unchanged.
    pub(crate) fn add(&mut self, pos: usize, item: T) -> Result<(), AllocError>
        ensures ok { OnOk result (AddsItem self.old self.new pos item) }
        ensures ascending { IsStrictlySortedBy nat_cmp (keys_of self.new) }
        ensures err { OnErr result (self.new ≡ self.old) }
    {
        add_item(&mut self.map, self.alloc, pos, item)
    }
}

/// Adds `item` as the last item at the offset `pos` of `map`. If an allocation fails, drops `item`
/// and leaves `map` unchanged.
fn add_item<T: Drop>(
    map: &mut BTreeMap<usize, Items<T>>,
    alloc: Global,
    pos: usize,
    item: T,
) -> Result<(), AllocError>
    ensures ok { OnOk result (AddsItem map.old.entries map.new.entries pos item) }
    ensures err { OnErr result (map.new.entries ≡ map.old.entries) }
    ensures ordered { IsStrictlySortedBy nat_cmp (keys_of map.new.entries) }
{
    if let Some(items) = map.get_mut(&pos) {
        return items.push(item);
    }
    // Nearly every offset has one item.
    let mut items = Items::with_capacity(alloc, 1)?;
    items.push(item)?;
    drop(map.insert(pos, items)?);
    Ok(())
}

impl<V: TryClone + Drop> TryClone for ByOffset<V> {
    fn try_clone(&self, alloc: Global) -> Result<ByOffset<V>, AllocError> {
        let mut map = BTreeMap::new(alloc);
        for (pos, value) in &self.map {
            drop(map.insert(*pos, value.try_clone(alloc)?)?);
        }
        Ok(ByOffset { map, alloc })
    }
}

impl<V: PartialEq> PartialEq for ByOffset<V> {
    ghost use Rattle.std.specs.Prelude.{nat_eq};
    ghost use Rattle.std.specs.Cmp.{on_per, and_per, partial_equiv_from_equiv};
    ghost use Rattle.std.specs.Cmp.Lexicographic.{pointwise, lists_per};
    ghost use Rattle.std.specs.Ordering.{on, eq_of_both};
    ghost use Rattle.std.proofs.lemmas.Cmp.{nat_eq_equiv};

    ghost eq = { pointwise
        (eq_of_both (on (λ entry. entry.0) nat_eq) (on (λ entry. entry.1) V.eq)) };

    ghost laws = { lists_per (and_per
        (on_per (λ entry. entry.0) (partial_equiv_from_equiv nat_eq_equiv))
        (on_per (λ entry. entry.1) V.laws)) };

    fn eq(&self, other: &ByOffset<V>) -> bool {
        self.map == other.map
    }
}

impl<V: Eq> Eq for ByOffset<V> {
    ghost use Rattle.std.specs.Cmp.{on_equiv, and_equiv};
    ghost use Rattle.std.specs.Cmp.Lexicographic.{lists_equiv};
    ghost use Rattle.std.proofs.lemmas.Cmp.{nat_eq_equiv};

    ghost laws = { lists_equiv (and_equiv
        (on_equiv (λ entry. entry.0) nat_eq_equiv)
        (on_equiv (λ entry. entry.1) V.Eq.laws)) };
}
