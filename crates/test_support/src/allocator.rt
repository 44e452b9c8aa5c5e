//! An allocator that refuses one request.
use std::alloc::{AllocError, Allocator};
use std::cell::Cell;

/// Passes each request on but the one of this number, the first being 1.
pub struct Refusing<B: Allocator> {
    inner: B,
    left: Cell<u64>,
}

impl<B: Allocator> Refusing<B> {
    /// Refuses the request of this number, and none where it is 0.
    pub fn new(inner: B, number: u64) -> Refusing<B> {
        Refusing {
            inner,
            left: Cell::new(number),
        }
    }

    /// From now on, refuses the request of this number, and none where it is 0.
    pub fn refuse(&self, number: u64) {
        self.left.set(number);
    }

    /// Whether the request was refused. (Or none was to be.)
    pub fn has_refused(&self) -> bool {
        self.left.get() == 0
    }
}

impl<B: Allocator> Drop for Refusing<B> {
    fn drop(self) {
        let Self { inner: _, left: _ } = self;
    }
}

// Whether this request is the one.
fn draws(left: &Cell<u64>) -> bool {
    let number = left.get();
    if number == 0 {
        return false;
    }
    left.set(number - 1);
    number == 1
}

fn tick(_left: &Cell<u64>) {}

unsafe impl<B: Allocator> Allocator for Refusing<B> {
    ghost dealloc_token = { λ heap ty ptr. B.dealloc_token heap.inner ty ptr };

    fn allocate(&self, size: usize, align: usize) -> Result<*mut u8, AllocError> {
        if draws(&self.left) {
            return Err(AllocError);
        }
        self.inner.allocate(size, align)
    }

    unsafe fn deallocate(&self, ptr: *mut u8, size: usize, align: usize) {
        tick(&self.left);
        self.inner.deallocate(ptr, size, align);
    }
}
