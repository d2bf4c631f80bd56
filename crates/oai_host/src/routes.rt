//! The route of a path behind the part that leads to its endpoint.
ghost use Rattle.std.specs.Option.{IfNone};
ghost use Rattle.std.specs.Prelude.{◌≡◌, false, IfSome};
ghost use Rattle.oai_settings.specs.Config.{is_repository_name};
ghost use Rattle.oai_host.specs.Rows.{name_rows};

use matchit::Router;
use std::alloc::{AllocError, Global};

/// The paths of repositories, behind `/oai/` or `/deposit/`: a name.
#[derive(Drop)]
pub(crate) struct Routes {
    router: Router<()>,
    ghost rows: { router ≡ name_rows },
}

impl Routes {
    /// The one route. The error is out of memory.
    pub(crate) fn new(alloc: Global) -> Result<Routes, AllocError> {
        let mut router = Router::new(alloc);
        let Ok(()) = router.insert("{name}", ()) else {
            return Err(AllocError);
        };
        Ok(Routes { router })
    }

    /// The name that the path behind its endpoint is, byte for byte; `None` if it is no path of a repository.
    pub(crate) fn find<'a>(&self, behind: &'a [u8]) -> Option<&'a str>
        ensures found { IfSome result (λ name. name.now ≡ behind.now) }
        ensures none { IfNone result (is_repository_name behind.now ≡ false) }
    {
        match str::from_utf8(behind) {
            Ok(text) => self.find_text(text),
            Err(_) => None,
        }
    }

    /// The name that a path behind its endpoint is, in UTF-8; `None` if it is no path of a repository.
    fn find_text<'a>(&self, behind: &'a str) -> Option<&'a str>
        ensures found { IfSome result (λ name. name.now ≡ behind.now) }
        ensures none { IfNone result (is_repository_name behind.now ≡ false) }
    {
        match self.router.at(behind) {
            Ok(found) => found.params.get("name"),
            Err(_) => None,
        }
    }
}
