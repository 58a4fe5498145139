//! What something was when it was begun.

ghost use Rattle.std.specs.Prelude.{◌≡◌};

use std::marker::{Model, PhantomData};

/// A value as it was once. Contracts alone see it: it has no octets, and owns nothing.
#[derive(Drop)]
pub struct First<T> {
    marker: PhantomData<T>,
    pub ghost value: { T },
}

impl<T> Model for First<T> {
    ghost use base.Fml.{ftrue};

    ghost also_owns = { λ _. ftrue };
}

// It owns nothing.
unsafe impl<T> Send for First<T> {}

impl<T> First<T> {
    /// What a value is now.
    pub fn of(value: &T) -> First<T>
        ensures { result.value ≡ value.now }
    {
        let _ = value;
        First {
            marker: PhantomData,
        }
    }
}
