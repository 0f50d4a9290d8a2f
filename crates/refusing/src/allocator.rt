//! The allocator, and how it counts growths.

use std::alloc::{AllocError, Allocator};
use std::cell::Cell;
use std::fmt;

/// Passes each call on to the allocator within, but for the one growth that it is told to refuse.
///
/// A growth is one request for a block: a vector that grows asks for a new block and then gives the
/// old one back.
pub struct Refusing<Inner: Allocator> {
    /// The allocator that finds the memory.
    inner: Inner,
    /// The number of the growth to refuse, counted from the next one; 0: none is to be refused.
    left: Cell<u64>,
}

impl<Inner: Allocator> Refusing<Inner> {
    /// An allocator over this one that refuses nothing until it is told to.
    pub fn new(inner: Inner) -> Refusing<Inner> {
        Refusing {
            inner,
            left: Cell::new(0),
        }
    }

    /// Refuses the growth of this number, counted from 1 and from now on; 0 refuses none.
    ///
    /// Once it is refused all later growths are passed on again.
    pub fn refuse(&self, number: u64) {
        self.left.set(number);
    }

    /// Whether the growth that it was told to refuse has not come yet.
    pub fn is_armed(&self) -> bool {
        self.left.get() > 0
    }
}

impl<Inner: Allocator> Drop for Refusing<Inner> {
    fn drop(self) {
        let Self { inner: _, left: _ } = self;
    }
}

// By hand, since an allocator need not be printable, and a type that keeps memory here must be.
impl<Inner: Allocator> fmt::Debug for Refusing<Inner> {
    fn fmt<W: fmt::Write>(&self, formatter: &mut fmt::Formatter<W>) -> fmt::Result {
        formatter.debug_struct("Refusing").finish()
    }
}

// Counts a growth, and tells whether it is the one to refuse.
fn is_due(left: &Cell<u64>) -> bool {
    let number = left.get();
    left.set(number.saturating_sub(1));
    number == 1
}

unsafe impl<Inner: Allocator> Allocator for Refusing<Inner> {
    ghost dealloc_token = { λ heap ty ptr. Inner.dealloc_token heap.inner ty ptr };

    fn allocate(&self, size: usize, align: usize) -> Result<*mut u8, AllocError> {
        if is_due(&self.left) {
            return Err(AllocError);
        }
        self.inner.allocate(size, align)
    }

    unsafe fn deallocate(&self, ptr: *mut u8, size: usize, align: usize) {
        self.inner.deallocate(ptr, size, align);
    }
}
