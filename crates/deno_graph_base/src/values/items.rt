ghost use Rattle.std.specs.Prelude.{◌≡◌, [], ◌∷◌, ◌++◌, ◌↔◌, IsTrue, IfOk, OnOk, OnErr, OnSome, length, slice_get, ◌<◌, ◌-◌, ◌^◌};
ghost use Rattle.std.specs.Option.{option_copied};
ghost use Rattle.std.specs.Iterator.Adapters.{IterYieldsInOrder, IterYieldsInReverse};
ghost use Rattle.std.specs.Slice.Iter.{iter_rest};
ghost use Rattle.std.specs.Cmp.Lexicographic.{pointwise, lists_per, lists_equiv};

use crate::values::try_clone::TryClone;
use std::alloc::{AllocError, Global};
use std::marker::Model;
use std::slice::Iter;

/// A `Vec` that contracts see as the list of its items, so that a copy equals its original.
#[derive(Debug, Drop)]
pub struct Items<T> {
    vec: Vec<T>,
}

impl<T> Model for Items<T> {
    ghost use Rattle.std.specs.Prelude.{List};
    ghost use Rattle.std.specs.Coded.{coded_list};

    ghost Value = { List T };

    ghost coded = { coded_list T.code };

    ghost view = { λ it. it.vec.items };
}

impl<T> Items<T> {
    /// Returns the empty list. Allocates nothing.
    pub fn new(alloc: Global) -> Items<T>
        ensures { result ≡ [] }
    {
        Items {
            vec: Vec::new(alloc),
        }
    }

    /// Returns the empty list with room for `capacity` items. Fails only if an allocation fails.
    pub fn with_capacity(alloc: Global, capacity: usize) -> Result<Items<T>, AllocError>
        ensures { IfOk result (λ made. made ≡ []) }
    {
        Ok(Items {
            vec: Vec::with_capacity(alloc, capacity)?,
        })
    }

    /// Returns the list of the items of `vec`. Allocates nothing.
    pub fn from_vec(vec: Vec<T>) -> Items<T>
        ensures { result ≡ vec.items }
    {
        Items { vec }
    }

    /// Returns the `Vec` of the items. Allocates nothing.
    pub fn into_vec(self) -> Vec<T>
        ensures { result.items ≡ self }
    {
        let Items { vec } = self;
        vec
    }

    /// Returns the items.
    pub fn as_slice(&self) -> &[T]
        ensures { result.now ≡ self.now }
    {
        self.vec.as_slice()
    }

    /// Returns the number of items.
    pub fn len(&self) -> usize
        ensures { result ≡ length self.now }
    {
        self.vec.len()
    }

    /// Returns whether there are no items.
    pub fn is_empty(&self) -> bool
        ensures { IsTrue result ↔ (self.now ≡ []) }
    {
        self.vec.is_empty()
    }

    /// Returns the item with the index `at`, from zero, or `None` if there is none.
    pub fn get(&self, at: usize) -> Option<&T>
        ensures value { option_copied result ≡ slice_get self.now at }
        ensures within { OnSome result (at < length self.now) }
    {
        self.vec.get(at)
    }

    /// Returns the first item, or `None` if there are no items.
    pub fn first(&self) -> Option<&T>
        ensures { option_copied result ≡ slice_get self.now 0 }
    {
        self.vec.first()
    }

    /// Returns the last item, or `None` if there are no items.
    pub fn last(&self) -> Option<&T>
        ensures { option_copied result ≡ slice_get self.now (length self.now - 1) }
    {
        self.vec.last()
    }

    /// Returns an iterator over the items, in order.
    pub fn iter(&self) -> Iter<'_, T>
        ensures rest { iter_rest result ≡ self.now }
        ensures bound { length (iter_rest result) < 2 ^ 64 }
        ensures runs { IterYieldsInOrder T }
        ensures runs_back { IterYieldsInReverse T }
    {
        self.vec.as_slice().iter()
    }
}

impl<'a, T> IntoIterator for &'a Items<T> {
    type Item = &'a T;

    type IntoIter = Iter<'a, T>;

    ghost into_iter_gives = { λ s r.
        (iter_rest r ≡ s.now) × (length (iter_rest r) < 2 ^ 64) × IterYieldsInOrder T };

    fn into_iter(self) -> Iter<'a, T> {
        self.iter()
    }
}

impl<T: Drop> Items<T> {
    /// Returns the list with the one item `item`. If an allocation fails, drops `item`.
    pub fn from_item(alloc: Global, item: T) -> Result<Items<T>, AllocError>
        ensures { IfOk result (λ made. made ≡ item ∷ []) }
    {
        let mut items = Items::with_capacity(alloc, 1)?;
        items.push(item)?;
        Ok(items)
    }

    /// Adds `item` at the end. If an allocation fails, drops `item` and leaves the list unchanged.
    pub fn push(&mut self, item: T) -> Result<(), AllocError>
        ensures ok { OnOk result (self.new ≡ self.old ++ item ∷ []) }
        ensures err { OnErr result (self.new ≡ self.old) }
    {
        self.vec.push(item)?;
        Ok(())
    }
}

impl<T: TryClone + Drop> TryClone for Items<T> {
    fn try_clone(&self, alloc: Global) -> Result<Items<T>, AllocError> {
        let mut vec = Vec::with_capacity(alloc, self.len())?;
        for item in self.as_slice() {
            vec.push(item.try_clone(alloc)?)?;
        }
        Ok(Items { vec })
    }
}

impl<T: PartialEq> PartialEq for Items<T> {
    ghost eq = { pointwise T.eq };

    ghost laws = { lists_per T.laws };

    fn eq(&self, other: &Items<T>) -> bool {
        self.as_slice() == other.as_slice()
    }
}

impl<T: Eq> Eq for Items<T> {
    ghost laws = { lists_equiv T.Eq.laws };
}
