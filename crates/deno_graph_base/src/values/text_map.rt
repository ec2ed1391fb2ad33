ghost use Rattle.std.specs.Prelude.{◌≡◌, [], ℕ, List, ◌↔◌, ◌&&◌, IsTrue, IfOk, OnOk, OnErr, Some, length, nat_eq, if◌then◌else◌};
ghost use Rattle.std.specs.Cmp.{on_per, and_per, on_equiv, and_equiv, partial_equiv_from_equiv};
ghost use Rattle.std.specs.Cmp.Lexicographic.{pointwise, lists_per, lists_equiv, nat_list_eq_equiv};
ghost use Rattle.std.specs.Iterator.{at_most};
ghost use Rattle.std.specs.Map.Iter.{TakesFirst, ShowsInOrder, deref_pair};
ghost use Rattle.std.specs.Option.{option_copied};
ghost use Rattle.std.specs.Str.{bytes_eq};
ghost use Rattle.deno_graph_base.specs.TextMap.{value_at, insert_entry, entries_of, IsAscending};

use crate::values::text::Text;
use crate::values::try_clone::TryClone;
use std::alloc::{AllocError, Global};
use std::collections::{BTreeMap, btree_map};
use std::marker::Model;

/// A map with texts as keys, which contracts see as the list of its entries, in the order of the
/// keys' bytes.
#[derive(Debug, Drop)]
pub struct TextMap<V> {
    map: BTreeMap<String, V>,
}

impl<V> Model for TextMap<V> {
    ghost use Rattle.std.specs.Prelude.{List, ℕ};
    ghost use Rattle.std.specs.Coded.{coded_list, coded×, coded_ℕ};
    ghost use Rattle.deno_graph_base.specs.TextMap.{entries_of};

    ghost Value = { List (List ℕ × V) };

    ghost coded = { coded_list (coded× (coded_list coded_ℕ) V.code) };

    ghost view = { λ m. entries_of m.map };
}

impl<V> TextMap<V> {
    /// Returns the empty map. Allocates nothing.
    pub fn new(alloc: Global) -> TextMap<V>
        ensures { result ≡ [] }
    {
        TextMap {
            map: BTreeMap::new(alloc),
        }
    }

    /// Returns the map with the entries of `map`. Allocates nothing.
    pub fn from_map(map: BTreeMap<String, V>) -> TextMap<V>
        ensures { result ≡ entries_of map }
    {
        TextMap { map }
    }

    /// Returns the `BTreeMap` of the entries. Allocates nothing.
    pub fn into_map(self) -> BTreeMap<String, V>
        ensures { entries_of result ≡ self }
    {
        let TextMap { map } = self;
        map
    }

    /// Returns the number of entries.
    pub fn len(&self) -> usize
        ensures len { result ≡ length self.now }
        ensures ordered { IsAscending self.now }
    {
        self.map.len()
    }

    /// Returns whether there are no entries.
    pub fn is_empty(&self) -> bool
        ensures { IsTrue result ↔ (self.now ≡ []) }
    {
        self.map.is_empty()
    }

    /// Returns the value at `key`, or `None` if the map doesn't have the key.
    pub fn get(&self, key: &str) -> Option<&V>
        ensures { option_copied result ≡ value_at self.now key.now }
    {
        self.map.get(key)
    }

    /// Returns an iterator over the entries, in order.
    pub fn iter(&self) -> Iter<'_, V>
        ensures rest { result ≡ self.now }
        ensures ordered { IsAscending self.now }
        ensures runs { ShowsInOrder (deref_pair {K = List ℕ} {X = V}) }
    {
        Iter {
            inner: self.map.iter(),
        }
    }
}

impl<V: Drop> TextMap<V> {
    /// Sets the value at `key`, and returns the old value at `key`, if there was one. If an
    /// allocation fails, drops `key` and `value` and leaves the map unchanged.
    pub fn insert(&mut self, key: Text, value: V) -> Result<Option<V>, AllocError>
        ensures ok { OnOk result (self.new ≡ insert_entry self.old key value) }
        ensures replaced { IfOk result (λ old. old ≡ value_at self.old key) }
        ensures err { OnErr result (self.new ≡ self.old) }
        ensures ordered { IsAscending self.new }

        // Every other key keeps its value.
        ensures values { OnOk result ((other : List ℕ) → value_at self.new other
            ≡ (if bytes_eq key other then Some value else value_at self.old other)) }
    {
        Ok(self.map.insert(key.into_string(), value)?)
    }
}

/// An iterator over the entries of a `TextMap`, in order.
#[derive(Drop)]
pub struct Iter<'a, V> {
    inner: btree_map::Iter<'a, String, V>,
}

impl<'a, V> Model for Iter<'a, V> {
    ghost use Rattle.std.specs.Prelude.{List, ℕ, map};
    ghost use Rattle.std.specs.Coded.{coded_list, coded×, coded_ℕ};
    ghost use Rattle.deno_graph_base.specs.TextMap.{entry_of};

    ghost Value = { List (List ℕ × V) };

    ghost coded = { coded_list (coded× (coded_list coded_ℕ) V.code) };

    ghost view = { λ s. map entry_of s.inner };
}

impl<'a, V> Iterator for Iter<'a, V> {
    type Item = (&'a str, &'a V);

    ghost next_gives = { TakesFirst deref_pair };

    ghost remaining = { λ s. at_most (length s) };

    fn next(&mut self) -> Option<(&'a str, &'a V)> {
        let (key, value) = self.inner.next()?;
        Some((key.as_str(), value))
    }
}

impl<'a, V> IntoIterator for &'a TextMap<V> {
    type Item = (&'a str, &'a V);

    type IntoIter = Iter<'a, V>;

    ghost into_iter_gives = { λ m r.
        (r ≡ m.now) × IsAscending m.now × ShowsInOrder (deref_pair {K = List ℕ} {X = V}) };

    fn into_iter(self) -> Iter<'a, V> {
        self.iter()
    }
}

impl<V: TryClone + Drop> TryClone for TextMap<V> {
    fn try_clone(&self, alloc: Global) -> Result<TextMap<V>, AllocError> {
        let mut copy = TextMap::new(alloc);
        for (key, value) in self {
            let key = Text::from_str(alloc, key)?;
            let value = value.try_clone(alloc)?;
            drop(copy.insert(key, value)?);
        }
        Ok(copy)
    }
}

impl<V: PartialEq> PartialEq for TextMap<V> {
    ghost eq = { pointwise (λ p q. pointwise nat_eq p.0 q.0 && V.eq p.1 q.1) };

    ghost laws = { lists_per (and_per
        (on_per (λ p. p.0) (partial_equiv_from_equiv nat_list_eq_equiv))
        (on_per (λ p. p.1) V.laws)) };

    fn eq(&self, other: &TextMap<V>) -> bool {
        self.map == other.map
    }
}

impl<V: Eq> Eq for TextMap<V> {
    ghost laws = { lists_equiv (and_equiv
        (on_equiv (λ p. p.0) nat_list_eq_equiv)
        (on_equiv (λ p. p.1) V.Eq.laws)) };
}
