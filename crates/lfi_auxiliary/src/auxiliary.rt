//! Auxiliary values: what contracts know of a run beside what the program stores. They take no bytes.

ghost use Rattle.std.specs.Prelude.{◌≡◌};
ghost use base.Fml.{ftrue};

use std::marker::{Model, PhantomData};

/// How an auxiliary value is read off a value of the program.
pub trait Reading<X, V> {
    ghost reads: { X → V };
}

/// It has no bytes and owns nothing, so only a clause ties `value`.
pub struct Auxiliary<V> {
    of: PhantomData<V>,
    pub ghost value: { V },
}

impl<V> Model for Auxiliary<V> {
    ghost also_owns = { λ _. ftrue };
}

impl<V> Auxiliary<V> {
    /// A value of no bytes, which contracts see as what `M` reads off `x`.
    pub fn of<X, M: Reading<X, V>>(x: &X) -> Auxiliary<V>
        ensures { result.value ≡ M.reads x.now }
    {
        let _ = x;
        Auxiliary { of: PhantomData }
    }
}

impl<V> Drop for Auxiliary<V> {
    fn drop(self) {
        let Self { of: _ } = self;
    }
}

unsafe impl<V> Send for Auxiliary<V> {}

unsafe impl<V> Sync for Auxiliary<V> {}
