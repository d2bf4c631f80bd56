//! The steps of the tests of devices and of pools, with what the next step stands on: what was written, and
//! what is named, still is.
ghost use Rattle.std.specs.Prelude.{◌≡◌, ◌≢◌, ◌<◌, ℕ, IsSome};
ghost use Rattle.oai_pool.specs.Counts.{StaysNamed, count_of};

use crate::assertions::assert_same;
use crate::devices::numbered_pages::{assert_page, page_of};
use oai_device::{DeviceFault, PAGE_BYTES, PageDevice};
use oai_pool::{Page, PageKind, PageNo, PagePool};
use std::panic::Expect;
use std::process::Abort;
use std::rc::Rc;

/// Writes the page of `number` on the device.
pub(crate) fn write<D: PageDevice>(rt: &impl Abort, device: &mut D, no: u32, number: u16)
    ensures written { IsSome (D.pages device.new no) }
    ensures others { (n : ℕ) → n ≢ no → IsSome (D.pages device.old n) → IsSome (D.pages device.new n) }
{
    device.write(no, &page_of(number)).expect(rt, "write");
}

/// The device gives the page of `number`.
pub(crate) fn assert_written<D: PageDevice>(rt: &impl Abort, device: &mut D, no: u32, number: u16)
    requires { IsSome (D.pages device.old no) }
    ensures { (n : ℕ) → IsSome (D.pages device.old n) → IsSome (D.pages device.new n) }
{
    let mut page = [0; PAGE_BYTES];
    device.read(no, &mut page).expect(rt, "read");
    assert_page(rt, &page, number);
}

/// The device fails to give the page.
pub(crate) fn assert_read_fails<D: PageDevice>(rt: &impl Abort, device: &mut D, no: u32)
    requires { IsSome (D.pages device.old no) }
    ensures { (n : ℕ) → IsSome (D.pages device.old n) → IsSome (D.pages device.new n) }
{
    let mut page = [0; PAGE_BYTES];
    let read = device.read(no, &mut page);
    assert_same(rt, read, Err(DeviceFault::Failed));
}

/// The page of `number`, in one of the pool's.
pub(crate) fn filled<P: PagePool>(rt: &impl Abort, pool: &mut P, number: u16) -> Rc<Page>
    ensures counts { P.counts pool.new ≡ P.counts pool.old }
{
    let mut page = pool.page_to_fill().expect(rt, "page_to_fill");
    *Rc::get_mut(&mut page).expect(rt, "get_mut") = page_of(number);
    page
}

/// Adds the page of `number` to the pool.
pub(crate) fn add<P: PagePool>(rt: &impl Abort, pool: &mut P, number: u16) -> PageNo
    ensures added { 0 < count_of (P.counts pool.new) result }
    ensures named { StaysNamed (P.counts pool.old) (P.counts pool.new) }
{
    let page = filled(rt, pool, number);
    pool.add(page, PageKind::Bytes).expect(rt, "add")
}

/// The pool gives the page of `number`.
pub(crate) fn assert_named<P: PagePool>(rt: &impl Abort, pool: &mut P, no: PageNo, number: u16)
    requires { 0 < count_of (P.counts pool.old) no }
    ensures { StaysNamed (P.counts pool.old) (P.counts pool.new) }
{
    let page = pool.read(no, PageKind::Bytes).expect(rt, "read");
    assert_page(rt, &page, number);
}

/// The pool gives two pages, each under a number with the `number` that it is of.
pub(crate) fn assert_both<P: PagePool>(
    rt: &impl Abort,
    pool: &mut P,
    first: (PageNo, u16),
    second: (PageNo, u16),
)
    requires first { 0 < count_of (P.counts pool.old) first.0 }
    requires second { 0 < count_of (P.counts pool.old) second.0 }
    ensures first { 0 < count_of (P.counts pool.new) first.0 }
    ensures second { 0 < count_of (P.counts pool.new) second.0 }
    ensures named { StaysNamed (P.counts pool.old) (P.counts pool.new) }
{
    assert_named(rt, pool, first.0, first.1);
    assert_named(rt, pool, second.0, second.1);
}

/// Increments and drops a page's reference count.
pub(crate) fn share_and_drop<P: PagePool>(rt: &impl Abort, pool: &mut P, no: PageNo)
    requires { 0 < count_of (P.counts pool.old) no }
    ensures { StaysNamed (P.counts pool.old) (P.counts pool.new) }
{
    pool.share(no).expect(rt, "share");
    pool.drop_ref(no);
}

/// Drops a page's reference count; the others' stay.
pub(crate) fn drop_name<P: PagePool>(pool: &mut P, no: PageNo)
    requires { 0 < count_of (P.counts pool.old) no }
    ensures { (n : ℕ) → n ≢ no
        → 0 < count_of (P.counts pool.old) n → 0 < count_of (P.counts pool.new) n }
{
    pool.drop_ref(no);
}
