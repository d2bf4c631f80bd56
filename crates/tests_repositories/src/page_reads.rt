//! What a list costs that is followed by its tokens, over a store of pages on a device that counts its reads.
ghost use Rattle.std.specs.Prelude.{◌<◌};

use crate::outcomes::{archive, page_of};
use crate::samples::BEGIN;
use oai_deposit::read_line;
use oai_device::{MemoryDevice, PageDevice};
use oai_item::Forms;
use oai_paged::PagedVersions;
use oai_pool::Pool;
use std::alloc::Global;
use std::panic::Expect;
use std::process::Abort;
use tests_devices::CountingDevice;
use tests_fixtures::Stocked;

/// Archive A over pages on a device that counts.
type Counted<D> = Stocked<PagedVersions<CountingDevice<D>>>;

/// A new one, whose pool keeps as many pages in memory.
fn counted<D: PageDevice>(
    rt: &impl Abort,
    alloc: Global,
    device: CountingDevice<D>,
    cache_pages: usize,
) -> Counted<D>
    requires { 0 < cache_pages }
{
    let pool = Pool::new(alloc, device, cache_pages).expect(rt, "Pool::new");
    archive(rt, alloc, PagedVersions::new(alloc, pool))
}

/// How many reads of its device were asked for so far.
fn reads_of<D: PageDevice>(repo: &Counted<D>) -> u64 {
    repo.store().pool().device().reads()
}

/// As many letters as make an item in one set, whose identifier has nine letters, 8,000 bytes long.
fn title(rt: &impl Abort, alloc: Global) -> String {
    let mut title = String::new(alloc);
    for _ in 0..7_938 {
        title.push('t').expect(rt, "memory");
    }
    title
}

/// Makes the change that the line asks for.
fn make<D: PageDevice>(rt: &impl Abort, alloc: Global, repo: &mut Counted<D>, line: &str) {
    let change = read_line(alloc, Forms::Fields, line.as_bytes()).expect(rt, "read_line");
    assert!(rt; repo.change(BEGIN, &change).is_ok());
}

/// Deposits the item of that number, in set x.
fn deposit<D: PageDevice>(
    rt: &impl Abort,
    alloc: Global,
    repo: &mut Counted<D>,
    number: u32,
    title: &str,
) {
    let line = format!(in alloc;
        "{{\"deposit\":\"oai:a:{number}\",\"sets\":[\"x\"],\"records\":{{\"oai_dc\":[[\"title\",\"{title}\"]]}}}}"
    ).expect(rt, "memory");
    make(rt, alloc, repo, line.as_str());
}

/// Deposits 600 items of 8,000 bytes, of which two stand on a page.
fn fill<D: PageDevice>(rt: &impl Abort, alloc: Global, repo: &mut Counted<D>) {
    make(rt, alloc, repo, r#"{"set":"x","name":"X"}"#);
    let title = title(rt, alloc);
    for number in 100..700 {
        deposit(rt, alloc, repo, number, title.as_str());
    }
}

/// Writes the part that the token with the cursor gives, and returns how many reads it took.
fn write_part<D: PageDevice>(
    rt: &impl Abort,
    alloc: Global,
    repo: &mut Counted<D>,
    cursor: u32,
    output: &mut Vec<u8>,
) -> u64 {
    let query = format!(in alloc; "verb=ListIdentifiers&resumptionToken=1.{cursor}").expect(
        rt, "memory",
    );
    let before = reads_of(repo);
    let page = page_of(rt, repo, BEGIN, query.as_str());
    output
        .extend_from_slice(page.as_slice())
        .expect(rt, "memory");
    reads_of(repo).saturating_sub(before)
}

/// Writes all parts of the list behind the first, each of few reads, and returns how many reads all took.
fn write_parts<D: PageDevice>(
    rt: &impl Abort,
    alloc: Global,
    repo: &mut Counted<D>,
    output: &mut Vec<u8>,
) -> u64 {
    let mut all: u64 = 0;
    for part in 1..300 {
        let reads = write_part(rt, alloc, repo, 2 * part, output);
        assert!(rt; reads <= 20, "{reads} reads at part {part}");
        all = all.saturating_add(reads);
    }
    all
}

/// What the whole list is answered.
fn followed<D: PageDevice>(rt: &impl Abort, alloc: Global, mut repo: Counted<D>) -> Vec<u8> {
    let mut output = Vec::new(alloc);
    fill(rt, alloc, &mut repo);
    let first = page_of(
        rt,
        &mut repo,
        BEGIN,
        "verb=ListIdentifiers&metadataPrefix=oai_dc&set=x",
    );
    output
        .extend_from_slice(first.as_slice())
        .expect(rt, "memory");
    let reads = write_parts(rt, alloc, &mut repo, &mut output);
    assert!(rt; 200 <= reads, "{reads} reads in all");
    output
}

/// The same over a pool that keeps as many pages in memory.
fn followed_over(rt: &impl Abort, alloc: Global, cache_pages: usize) -> Vec<u8>
    requires { 0 < cache_pages }
{
    let device = CountingDevice::new(MemoryDevice::new(alloc));
    let repo = counted(rt, alloc, device, cache_pages);
    followed(rt, alloc, repo)
}

/// Each part takes few reads, wherever it stands in its list; all take as many as there are pages, so they come from the
/// pages; and what is answered does not depend on how many pages are kept in memory.
#[test]
fn reads_of_a_long_list(rt: HostRuntime) {
    let alloc = rt.alloc();
    let one = followed_over(&rt, alloc, 1);
    assert!(&rt; one.len() > 60_000);
    assert!(&rt; followed_over(&rt, alloc, 2).as_slice() == one.as_slice());
    assert!(&rt; followed_over(&rt, alloc, 64).as_slice() == one.as_slice());
}
