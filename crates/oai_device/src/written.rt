ghost use Rattle.std.specs.Prelude.{◌≡◌, []};
ghost use Rattle.std.specs.Borrow.{ftrue};
ghost use Rattle.oai_device.specs.Written.{PageWrites, with_page};

use std::marker::{Model, PhantomData};

/// What was written to a file, for contracts alone: a ghost value with no size and empty methods.
#[derive(Drop)]
pub struct Written {
    marker: PhantomData<u8>,
    pub ghost pages: { PageWrites },
}

impl Model for Written {
    ghost also_owns = { λ _. ftrue };
}

impl Written {
    /// Nothing was written.
    pub(crate) fn new() -> Written
        ensures { result.pages ≡ [] }
    {
        Written {
            marker: PhantomData,
        }
    }

    /// These bytes were written under the first of the numbers.
    pub(crate) fn note(&mut self, _numbers: &[u64], _bytes: &[u8])
        ensures { self.new.pages ≡ with_page _numbers.now _bytes.now self.old.pages }
    {}
}
