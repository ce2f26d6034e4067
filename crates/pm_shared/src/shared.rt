//! A value with several owners.

ghost use Rattle.std.specs.Prelude.{◌≡◌, IfOk};

use std::alloc::{AllocError, Global};
use std::marker::Model;
use std::rc::Rc;

/// A value with several owners, which contracts see as the value itself. The last owner to go lets it go.
#[derive(Drop)]
pub struct Shared<T> {
    inner: Rc<T>,
}

impl<T> Model for Shared<T> {
    ghost Value = { T };

    ghost coded = { T.code };

    ghost view = { λ owner. owner.inner.value };
}

impl<T> Shared<T> {
    /// The value.
    pub fn get(&self) -> &T
        ensures { result.now ≡ self.now }
    {
        self.inner.as_ref()
    }
}

impl<T: Drop> Shared<T> {
    /// The first owner of a value. The error is want of memory, and then the value is dropped.
    pub fn new(alloc: Global, value: T) -> Result<Shared<T>, AllocError>
        ensures { IfOk result (λ owner. owner ≡ value) }
    {
        match Rc::new(alloc, value) {
            Ok(inner) => Ok(Shared { inner }),
            Err(_) => Err(AllocError),
        }
    }

    /// One more owner of the same value. It takes no memory, and is refused only where there are 2^64 - 1 owners.
    pub fn share(&self) -> Result<Shared<T>, AllocError>
        ensures { IfOk result (λ owner. owner ≡ self.now) }
    {
        let inner = self.inner.clone()?;
        Ok(Shared { inner })
    }
}
