//! A page in the cache, and what is known of it.
ghost use Rattle.std.specs.Prelude.{◌≡◌, true, IfSome};
ghost use Rattle.oai_pool.specs.Kinds.{is_of};

use crate::kinds::PageKind;
use oai_device::Page;
use std::rc::Rc;

/// A cached page, of that kind.
#[derive(Drop)]
pub struct KeptPage {
    page: Rc<Page>,
    kind: PageKind,
    ghost tested: { is_of kind page.value ≡ true },
}

impl KeptPage {
    /// The page, which is known to be of that kind.
    pub(crate) fn new(page: Rc<Page>, kind: PageKind) -> KeptPage
        requires { is_of kind page.value ≡ true }
        ensures { result.page.value ≡ page.value }
    {
        KeptPage { page, kind }
    }

    /// A clone of the page's `Rc`, if it is known to be of that kind.
    pub(crate) fn of(&self, kind: PageKind) -> Option<Rc<Page>>
        ensures page { IfSome result (λ page. page.value ≡ self.now.page.value) }
        ensures tested { IfSome result (λ page. is_of kind page.value ≡ true) }
    {
        match (self.kind, kind) {
            (PageKind::Bytes, PageKind::Items) => None,
            _ => self.page.clone().ok(),
        }
    }

    /// A clone of the page's `Rc`, with the kind of which it is known to be.
    pub(crate) fn known(&self) -> Option<(Rc<Page>, PageKind)>
        ensures page { IfSome result (λ known. known.0.value ≡ self.now.page.value) }
        ensures tested { IfSome result (λ known. is_of known.1 known.0.value ≡ true) }
    {
        match self.page.clone() {
            Ok(page) => Some((page, self.kind)),
            Err(_) => None,
        }
    }

    /// The page alone.
    pub(crate) fn into_page(self) -> Rc<Page>
        ensures { result.value ≡ self.page.value }
    {
        self.page
    }
}
