//! The keys of the values by identifier.

// Hints to inline: each step of an engine runs through it; docs/PERF.md says what the whole of it inlined gains.

ghost use Rattle.std.specs.Prelude.{◌≡◌, ◌+◌, ◌++◌, ◌∷◌, [], ℕ, None, nat_eq, cond, is_some, if◌then◌else◌, length, IfNone, OnOk, OnErr};
ghost use Rattle.timed_table.specs.Tied.{key_of};

use indexmap::IndexMap;
use indexmap::map::Iter;
use std::alloc::{AllocError, Allocator, Global};
use std::hash::{BuildHasherDefault, FoldHasher};
use std::marker::Model;

/// An identifier and its key.
#[derive(Clone, Copy)]
struct Found {
    id: u32,
    key: usize,
}

/// The keys of the values by identifier, in no order, and the one that was found last.
///
/// A caller mostly names the identifier of its call before, and a call names its own twice: so a comparison
/// mostly finds the key, where the index takes some 60 instructions. A contract sees the identifiers with
/// their keys, and forgets which was found last.
#[derive(Drop)]
pub(crate) struct Keys<A: Allocator + Copy = Global> {
    index: IndexMap<u32, usize, BuildHasherDefault<FoldHasher>, A>,
    last: Option<Found>,
}

impl<A: Allocator + Copy> Model for Keys<A> {
    ghost use Rattle.std.specs.Prelude.{◌≡◌, ℕ, List, Some, IfSome};
    ghost use Rattle.timed_table.specs.Tied.{key_of};

    ghost Value = { List (ℕ × ℕ) };

    ghost view = { λ k. k.index.entries };

    ghost invariant = { λ k. IfSome k.last (λ found. key_of k.index.entries found.id ≡ Some found.key) };
}

impl<A: Allocator + Copy> Keys<A> {
    /// No identifiers; takes no memory.
    #[inline(always)]
    pub(crate) fn new(alloc: A) -> Self
        ensures { result ≡ [] }
    {
        Keys {
            index: IndexMap::new(alloc),
            last: None,
        }
    }

    /// What finds the memory for them.
    pub(crate) fn allocator(&self) -> &A {
        self.index.allocator()
    }

    /// How many there are.
    pub(crate) fn len(&self) -> usize
        ensures { result ≡ length self.now }
    {
        self.index.len()
    }

    /// The identifiers with their keys, in no order.
    pub(crate) fn iter(&self) -> Iter<'_, u32, usize> {
        self.index.iter()
    }

    /// The key of an identifier.
    pub(crate) fn get(&self, id: u32) -> Option<usize>
        ensures { result ≡ key_of self.now id }
    {
        self.index.get(&id).copied()
    }

    /// The key of an identifier, which the next call for the same one finds at once.
    #[inline(always)]
    pub(crate) fn find(&mut self, id: u32) -> Option<usize>
        ensures value { result ≡ key_of self.old id }
        ensures same { self.new ≡ self.old }
    {
        if let Some(found) = self.last {
            if found.id == id {
                return Some(found.key);
            }
        }
        self.look_up(id)
    }

    /// `find`, by the index.
    #[inline(always)]
    fn look_up(&mut self, id: u32) -> Option<usize>
        ensures value { result ≡ key_of self.old id }
        ensures same { self.new ≡ self.old }
    {
        let key = *self.index.get(&id)?;
        self.last = Some(Found { id, key });
        Some(key)
    }

    /// Makes the next call for an identifier, which has this key, find it at once.
    #[inline(always)]
    pub(crate) fn remember(&mut self, id: u32, key: usize)
        requires { key_of self.old id ≡ Some key }
        ensures { self.new ≡ self.old }
    {
        self.last = Some(Found { id, key });
    }

    /// Puts an identifier and its key behind the others; alone it takes memory.
    // A part of each insertion of a row: as a call of its own it took 20 instructions more.
    #[inline(always)]
    pub(crate) fn insert(&mut self, id: u32, key: usize) -> Result<(), AllocError>
        requires { key_of self.old id ≡ None }
        ensures ok { OnOk result (self.new ≡ self.old ++ (id, key) ∷ []) }
        ensures err { OnErr result (self.new ≡ self.old) }
    {
        if self.index.insert(id, key).is_err() {
            return Err(AllocError);
        }
        self.last = Some(Found { id, key });
        Ok(())
    }

    /// Takes out an identifier, and answers its key.
    // A part of each removal of a row: as a call of its own it took 20 instructions more.
    #[inline(always)]
    pub(crate) fn remove(&mut self, id: u32) -> Option<usize>
        ensures value { result ≡ key_of self.old id }
        ensures updates { (q : ℕ) → key_of self.new q ≡ cond (nat_eq id q) None (key_of self.old q) }
        ensures unchanged { IfNone result (self.new ≡ self.old) }
        ensures len { length self.new + (if is_some result then 1 else 0) ≡ length self.old }
    {
        self.last = None;
        self.index.swap_remove(&id)
    }
}
