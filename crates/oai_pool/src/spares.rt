//! Pages that a pool no longer uses.
use oai_device::Page;
use std::rc::Rc;

/// At most two pages that were dropped from a cache, as many as a change of an item that moves drops, and adds.
#[derive(Drop)]
pub struct SparePages {
    last: Option<Rc<Page>>,
    other: Option<Rc<Page>>,
}

impl SparePages {
    /// None. Allocates nothing.
    pub(crate) fn new() -> SparePages {
        SparePages {
            last: None,
            other: None,
        }
    }

    /// The page that was put last, if one is left; it is taken out.
    pub(crate) fn take(&mut self) -> Option<Rc<Page>> {
        match self.last.take() {
            Some(page) => Some(page),
            None => self.other.take(),
        }
    }

    /// Puts the page, if there is one, in place of the older one if there are two.
    pub(crate) fn put(&mut self, page: Option<Rc<Page>>) {
        if let Some(page) = page {
            self.other = self.last.take();
            self.last = Some(page);
        }
    }
}
