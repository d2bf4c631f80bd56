//! Lists that end together: each call drops one, and none is answered any more.
use crate::assertions::assert_same;
use crate::outcomes::page_of;
use crate::samples::BEGIN;
use oai_deposit::read_line;
use oai_device::{MemoryDevice, PageDevice};
use oai_item::Forms;
use oai_paged::PagedVersions;
use oai_pool::{PagePool, Pool};
use oai_settings::RepoConfig;
use std::alloc::Global;
use std::panic::Expect;
use std::process::Abort;
use std::str::from_utf8;
use tests_fixtures::{Stocked, Told, archive_a, settings_of};

/// Archive A over pages of a device.
type Paged<D> = Stocked<PagedVersions<D>>;

/// The moment at which the lists end that began at the first one.
const END: i64 = BEGIN + 60;

/// A new one, with room for three open lists.
fn archive_of_three_lists<D: PageDevice>(rt: &impl Abort, alloc: Global, device: D) -> Paged<D> {
    let told = Told {
        lists: Some(3),
        ..archive_a()
    };
    let settings = settings_of(alloc, told).expect(rt, "settings_of");
    let config = RepoConfig::new(alloc, settings).expect(rt, "RepoConfig::new");
    let pool = Pool::new(alloc, device, 1).expect(rt, "Pool::new");
    Stocked::new(alloc, config, PagedVersions::new(alloc, pool)).expect(rt, "Stocked::new")
}

/// Makes the change that the line asks for.
fn make<D: PageDevice>(rt: &impl Abort, alloc: Global, repo: &mut Paged<D>, line: &str) {
    let change = read_line(alloc, Forms::Fields, line.as_bytes()).expect(rt, "read_line");
    assert!(rt; repo.change(BEGIN, &change).is_ok());
}

/// Deposits three items, which stand on one page, one more than a part may have.
fn fill<D: PageDevice>(rt: &impl Abort, alloc: Global, repo: &mut Paged<D>) {
    for number in 1..4 {
        let line = format!(in alloc;
            "{{\"deposit\":\"oai:a:{number}\",\"sets\":[],\"records\":{{\"oai_dc\":[]}}}}"
        ).expect(rt, "memory");
        make(rt, alloc, repo, line.as_str());
    }
}

/// Begins a list, and changes an item: the page as it was is the list's alone then.
fn begin_and_change<D: PageDevice>(
    rt: &impl Abort,
    alloc: Global,
    repo: &mut Paged<D>,
    title: &str,
) {
    let query = "verb=ListIdentifiers&metadataPrefix=oai_dc";
    assert!(rt; is_page_with(rt, repo, BEGIN, query, "completeListSize=\"3\""));
    let line = format!(in alloc;
        "{{\"deposit\":\"oai:a:1\",\"sets\":[],\"records\":{{\"oai_dc\":[[\"title\",\"{title}\"]]}}}}"
    ).expect(rt, "memory");
    make(rt, alloc, repo, line.as_str());
}

/// Whether the page that is answered at the moment has that text.
fn is_page_with<D: PageDevice>(
    rt: &impl Abort,
    repo: &mut Paged<D>,
    moment: i64,
    query: &str,
    text: &str,
) -> bool {
    let page = page_of(rt, repo, moment, query);
    match from_utf8(page.as_slice()) {
        Ok(page) => page.contains(text),
        Err(_) => false,
    }
}

/// The token is refused at the end, and so many pages are named then.
fn assert_refused<D: PageDevice>(rt: &impl Abort, repo: &mut Paged<D>, token: &str, pages: usize) {
    let bad = "badResumptionToken";
    assert!(rt; is_page_with(rt, repo, END, token, bad), "{token}");
    assert_same(rt, repo.store().pool().used(), pages);
}

/// Begins three lists, each of a page that is changed behind it: three pages are theirs alone, and one is of now.
fn begin_three<D: PageDevice>(rt: &impl Abort, alloc: Global, repo: &mut Paged<D>) {
    for title in ["One", "Two", "Three"] {
        begin_and_change(rt, alloc, repo, title);
    }
    assert_same(rt, repo.store().pool().used(), 4);
}

/// Three lists end at once. The first call drops one of them and begins another, though the other two are still
/// held.
fn assert_first_dropped<D: PageDevice>(rt: &impl Abort, alloc: Global, repo: &mut Paged<D>) {
    fill(rt, alloc, repo);
    begin_three(rt, alloc, repo);
    let query = "verb=ListRecords&metadataPrefix=oai_dc";
    assert!(rt; is_page_with(rt, repo, END, query, ">4.2</resumptionToken>"));
    assert_same(rt, repo.store().pool().used(), 3);
}

/// And each call that comes then drops one, whichever it asks for.
fn assert_dropped<D: PageDevice>(rt: &impl Abort, alloc: Global, mut repo: Paged<D>) {
    assert_first_dropped(rt, alloc, &mut repo);
    for (query, pages) in [
        ("verb=ListIdentifiers&resumptionToken=3.2", 2),
        ("verb=ListIdentifiers&resumptionToken=3.2", 1),
        ("verb=ListIdentifiers&resumptionToken=1.2", 1),
        ("verb=ListIdentifiers&resumptionToken=2.2", 1),
    ] {
        assert_refused(rt, &mut repo, query, pages);
    }
}

#[test]
fn lists_that_end_together(rt: HostRuntime) {
    let device = MemoryDevice::new(rt.alloc());
    let repo = archive_of_three_lists(&rt, rt.alloc(), device);
    assert_dropped(&rt, rt.alloc(), repo);
}
