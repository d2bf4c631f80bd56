//! Pools of many pages, each under its own number.
ghost use Rattle.std.specs.Prelude.{◌≡◌, ◌<◌, ℕ};
ghost use Rattle.oai_pool.specs.Counts.{count_of};

use crate::devices::numbered_pages::assert_page;
use crate::devices::steps::add;
use oai_pool::{PageKind, PagePool};
use std::panic::Expect;
use std::process::Abort;

/// Adds so many pages to an empty pool: under each number its own page.
pub(crate) fn fill<P: PagePool>(rt: &impl Abort, pool: &mut P, pages: u16)
    ensures { (n : ℕ) → n < pages → 0 < count_of (P.counts pool.new) n }
{
    for number in 0..pages {
        let no = add(rt, pool, number);
        assert!(rt; no == u32::from(number));
    }
}

/// Reads so many pages: under each number its own page.
pub(crate) fn assert_filled<P: PagePool>(rt: &impl Abort, pool: &mut P, pages: u16)
    requires { (n : ℕ) → n < pages → 0 < count_of (P.counts pool.old) n }
    ensures { P.counts pool.new ≡ P.counts pool.old }
{
    for number in 0..pages {
        let page = pool
            .read(u32::from(number), PageKind::Bytes)
            .expect(rt, "read");
        assert_page(rt, &page, number);
    }
}
