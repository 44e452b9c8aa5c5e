ghost use Rattle.std.specs.Prelude.{◌≡◌, length, IfOk};

use std::alloc::{AllocError, Allocator};
use std::marker::Model;
use std::rc::Rc;

/// Bytes that several may hold. They lie in memory once, until the last of these lets them go.
#[derive(Drop)]
pub struct Shared<A: Allocator> {
    bytes: Rc<Vec<u8, A>, A>,
}

impl<A: Allocator> Model for Shared<A> {
    ghost use Rattle.std.specs.Prelude.{ℕ, List};

    ghost Value = { List ℕ };

    ghost view = { λ s. s.bytes.value.items };
}

impl<A: Allocator> Shared<A> {
    /// The given bytes, with one holder.
    pub fn new(alloc: A, bytes: Vec<u8, A>) -> Result<Shared<A>, AllocError>
        ensures { IfOk result (λ s. s ≡ bytes.items) }
    {
        let bytes = Rc::new(alloc, bytes)?;
        Ok(Shared { bytes })
    }

    /// The bytes for one holder more. Nothing is copied. It is refused where the count of holders
    /// is full, which no clause says.
    pub fn share(&self) -> Result<Shared<A>, AllocError>
        ensures { IfOk result (λ s. s ≡ self.now) }
    {
        let bytes = self.bytes.clone()?;
        Ok(Shared { bytes })
    }

    /// The bytes.
    pub fn as_slice(&self) -> &[u8]
        ensures { result.now ≡ self.now }
    {
        self.bytes.as_slice()
    }

    /// How many bytes they are.
    pub fn len(&self) -> usize
        ensures { result ≡ length self.now }
    {
        self.bytes.len()
    }

    /// The counted reference by which the bytes are held.
    pub fn into_rc(self) -> Rc<Vec<u8, A>, A>
        ensures { result.value.items ≡ self }
    {
        self.bytes
    }
}
