//! The file that has the pages of a host: how it is opened, what lies in it, and what comes of it where another program
//! cuts it, or writes over a page.
use crate::assertions::{assert_same, assert_same_at, assert_shown};
use crate::program::asking::host_over;
use oai_catalogue::Versions;
use oai_cli::ask_lines;
use oai_device::{FileDevice, PAGE_BYTES};
use oai_host::Host;
use oai_paged::PagedVersions;
use oai_startup::{Stop, empty_file, read_file};
use std::alloc::Global;
use std::fs::{self, File, OpenOptions};
use std::io::{Seek, SeekFrom, Write};
use std::panic::Expect;
use std::process::Abort;
use std::rt::Files;
use tests_fixtures::{asked_in, wanted_in};

/// A host whose pages are in a file.
type FiledHost = Host<PagedVersions<FileDevice<File>>>;

/// The file that was at the path, and has other bytes in it, is emptied.
fn emptied<R: Files<File = File> + AllocGlobal + Abort>(rt: &R, path: &str) -> File {
    fs::write(rt, path, b"other bytes".as_slice()).expect(rt, "fs::write");
    let file = empty_file(rt, path).expect(rt, "empty_file");
    assert_length(rt, path, 0);
    file
}

/// The file has so many bytes.
fn assert_length<R: Files<File = File> + AllocGlobal + Abort>(rt: &R, path: &str, bytes: usize) {
    let read = read_file(rt, path).expect(rt, "read_file");
    assert_same(rt, read.len(), bytes);
}

/// A new host whose pages are in the file.
fn host_in(rt: &impl Abort, alloc: Global, file: File) -> FiledHost {
    host_over(rt, alloc, FileDevice::new(file))
}

/// The lines of the input are answered so.
fn assert_answers<V: Versions + Drop>(
    rt: &impl Abort,
    alloc: Global,
    host: &mut Host<V>,
    input: &str,
    transcript: &str,
) {
    let mut reader = input.as_bytes();
    let mut output = Vec::new(alloc);
    ask_lines(alloc, host, &mut reader, &mut output).expect(rt, "ask_lines");
    let wanted = wanted_in(alloc, transcript).expect(rt, "wanted_in");
    assert_same(rt, output.as_slice(), wanted.as_bytes());
}

/// Leaves so many bytes of the file.
fn cut<R: Files<File = File> + Abort>(rt: &R, path: &str, bytes: u64) {
    let file = OpenOptions::new()
        .write(true)
        .open(rt, path)
        .expect(rt, "open");
    file.set_len(bytes).expect(rt, "set_len");
}

/// A folder is no file of pages, nor is one in a folder that is not there.
#[test]
fn no_file_of_pages(rt: HostRuntime) {
    for path in [".", "no-such-folder/spill.pages"] {
        let stop = empty_file(&rt, path).err().expect(&rt, "err");
        assert_same(&rt, stop, Stop::DeviceFault);
        assert_same(&rt, stop.status(), 1);
        assert_shown(&rt, rt.alloc(), stop, "device fault");
    }
}

/// Adds the deposit of the item of that number, with a title of 15,000 letters.
fn push_deposit(rt: &impl Abort, alloc: Global, number: u64, lines: &mut String) {
    let title = vec![in alloc; b't'; 15_000].expect(rt, "memory");
    let line = format!(in alloc;
        "1704067200 POST /deposit/a {{\"deposit\":\"oai:a:{number}\",\"sets\":[],\"records\":{{\"oai_dc\":[[\"title\",\"{}\"]]}}}}\n",
        std::str::from_utf8(&title).expect(rt, "from_utf8")
    )
    .expect(rt, "memory");
    lines.push_str(line.as_str()).expect(rt, "memory");
}

/// Deposits of three items, each of which has a page of its own.
fn deposits(rt: &impl Abort, alloc: Global) -> String {
    let mut lines = String::new(alloc);
    push_deposit(rt, alloc, 1, &mut lines);
    push_deposit(rt, alloc, 2, &mut lines);
    lines.push_str(short_deposit()).expect(rt, "memory");
    lines
}

fn short_deposit() -> &'static str {
    r#"1704067200 POST /deposit/b {"deposit":"oai:b:1","sets":[],"records":{"oai_dc":[["title","T"]]}}"#
}

/// What they are answered.
fn deposited() -> &'static str {
    "200
ok 2024-01-01T00:00:00Z
200
ok 2024-01-01T00:00:00Z
200
ok 2024-01-01"
}

/// What the file had of the first repository is lost; the page of the second is in the cache.
fn asked_of_a_cut_file() -> &'static str {
    r#"> 1704067250 GET /oai/a?verb=GetRecord&identifier=oai:a:1&metadataPrefix=oai_dc
500
> 1704067250 POST /deposit/a {"deposit":"oai:a:3","sets":[],"records":{"oai_dc":[]}}
500 0
> 1704067200 GET /oai/a?verb=ListSets
200
DOC <responseDate>2024-01-01T00:00:00Z</responseDate><request verb="ListSets">http://host.example/oai/a</request><error code="noSetHierarchy">The repository has no sets.</error></OAI-PMH>
> 1704067200 GET /oai/b?verb=GetRecord&identifier=oai:b:1&metadataPrefix=oai_dc
200
DOC <responseDate>2024-01-01T00:00:00Z</responseDate><request verb="GetRecord" identifier="oai:b:1" metadataPrefix="oai_dc">http://host.example/oai/b</request><GetRecord><record><header><identifier>oai:b:1</identifier><datestamp>2024-01-01</datestamp></header><metadata>{dc}<dc:title>T</dc:title></oai_dc:dc></metadata></record></GetRecord></OAI-PMH>"#
}

/// The host keeps a page after the other in the file, from its beginning.
fn assert_kept<V: Versions + Drop, R: Files<File = File> + AllocGlobal + Abort>(
    rt: &R,
    path: &str,
    host: &mut Host<V>,
) {
    let lines = deposits(rt, rt.alloc());
    assert_answers(rt, rt.alloc(), host, lines.as_str(), deposited());
    assert_length(rt, path, 49_152);
}

/// Another program cuts the file, and the host goes on.
fn assert_cut<V: Versions + Drop, R: Files<File = File> + AllocGlobal + Abort>(
    rt: &R,
    path: &str,
    mut host: Host<V>,
) {
    assert_kept(rt, path, &mut host);
    cut(rt, path, 100);
    let lines = asked_in(rt.alloc(), asked_of_a_cut_file()).expect(rt, "asked_in");
    let (asked, wanted) = (lines.as_str(), asked_of_a_cut_file());
    assert_answers(rt, rt.alloc(), &mut host, asked, wanted);
}

/// A host of a file that had other bytes, which is cut.
#[test]
fn file_of_pages(rt: HostRuntime) {
    let path = "file-of.pages";
    let host = host_in(&rt, rt.alloc(), emptied(&rt, path));
    assert_cut(&rt, path, host);
    fs::remove_file(&rt, path).expect(&rt, "fs::remove_file");
}

// ---- pages that another program writes over

/// The bytes of a page: zeros, or with a seed bytes at random.
fn page_of(rt: &impl Abort, alloc: Global, seed: u32) -> Vec<u8> {
    let step = if seed == 0 { 0 } else { 1_013_904_223 };
    let mut page = Vec::new(alloc);
    let mut state = seed;
    for _ in 0..PAGE_BYTES {
        state = state.wrapping_mul(1_664_525).wrapping_add(step);
        page.push((state / 65_536 % 256) as u8).expect(rt, "memory");
    }
    page
}

/// Writes over the page of that number.
fn write_over<R: Files<File = File> + Abort>(rt: &R, path: &str, number: u64, page: &[u8]) {
    let mut file = OpenOptions::new()
        .write(true)
        .open(rt, path)
        .expect(rt, "open");
    let place = number.wrapping_mul(PAGE_BYTES as u64);
    file.seek(SeekFrom::Start(place)).expect(rt, "seek");
    file.write_all(page).expect(rt, "write_all");
}

/// A list, a deletion and a record; what each is answered where its pages stand, and what where they do not.
fn asked_of_such_a_file() -> [(&'static str, &'static str, &'static str); 3] {
    [
        (
            "1704067200 GET /oai/a?verb=ListIdentifiers&metadataPrefix=oai_dc",
            r#"200
DOC <responseDate>2024-01-01T00:00:00Z</responseDate><request verb="ListIdentifiers" metadataPrefix="oai_dc">http://host.example/oai/a</request><ListIdentifiers><header><identifier>oai:a:1</identifier><datestamp>2024-01-01T00:00:00Z</datestamp></header><header><identifier>oai:a:2</identifier><datestamp>2024-01-01T00:00:00Z</datestamp></header></ListIdentifiers></OAI-PMH>"#,
            "500",
        ),
        (
            r#"1704067200 POST /deposit/a {"delete":"oai:a:1"}"#,
            "200\nok 2024-01-01T00:00:00Z",
            "500 0",
        ),
        (
            "1704067200 GET /oai/b?verb=GetRecord&identifier=oai:b:1&metadataPrefix=oai_dc",
            r#"200
DOC <responseDate>2024-01-01T00:00:00Z</responseDate><request verb="GetRecord" identifier="oai:b:1" metadataPrefix="oai_dc">http://host.example/oai/b</request><GetRecord><record><header><identifier>oai:b:1</identifier><datestamp>2024-01-01</datestamp></header><metadata>{dc}<dc:title>T</dc:title></oai_dc:dc></metadata></record></GetRecord></OAI-PMH>"#,
            "500",
        ),
    ]
}

/// The line is answered as it should be, or with the status 500; whether it is the latter.
fn fails_or_is_right<V: Versions + Drop>(
    rt: &impl Abort,
    alloc: Global,
    host: &mut Host<V>,
    line: &str,
    right: &str,
    failed: &str,
) -> bool {
    let mut reader = line.as_bytes();
    let mut output = Vec::new(alloc);
    ask_lines(alloc, host, &mut reader, &mut output).expect(rt, "ask_lines");
    let fails = output.starts_with(b"500");
    let wanted = wanted_in(alloc, if fails { failed } else { right }).expect(rt, "wanted_in");
    assert_same_at(rt, output.as_slice(), wanted.as_bytes(), line);
    fails
}

/// How many of the lines fail.
fn failures_of<V: Versions + Drop>(rt: &impl Abort, alloc: Global, host: &mut Host<V>) -> u32 {
    let mut failures: u32 = 0;
    for (line, right, failed) in asked_of_such_a_file() {
        if fails_or_is_right(rt, alloc, host, line, right, failed) {
            failures = failures.wrapping_add(1);
        }
    }
    failures
}

/// How many of the lines fail where the page of that number of the host's file is written over, with that seed.
fn failures_with<V: Versions + Drop, R: Files<File = File> + AllocGlobal + Abort>(
    rt: &R,
    path: &str,
    mut host: Host<V>,
    number: u64,
    seed: u32,
) -> u32 {
    let lines = deposits(rt, rt.alloc());
    assert_answers(rt, rt.alloc(), &mut host, lines.as_str(), deposited());
    let page = page_of(rt, rt.alloc(), seed);
    write_over(rt, path, number, &page);
    failures_of(rt, rt.alloc(), &mut host)
}

/// The same of a new host of that file.
fn failures_at<R: Files<File = File> + AllocGlobal + Abort>(
    rt: &R,
    path: &str,
    number: u64,
    seed: u32,
) -> u32 {
    let host = host_in(rt, rt.alloc(), emptied(rt, path));
    failures_with(rt, path, host, number, seed)
}

/// Each page is filled with zeros, and with bytes at random: what needs it fails, and nothing is answered that is
/// wrong. The page in the cache is not read, and that of the last item is in it.
#[test]
fn pages_written_over(rt: HostRuntime) {
    let path = "written-over.pages";
    for seed in [0, 57] {
        let mut failures: u32 = 0;
        for number in 0..3u64 {
            failures = failures.wrapping_add(failures_at(&rt, path, number, seed));
        }
        assert!(rt; failures > 0, "{seed}");
    }
    fs::remove_file(&rt, path).expect(&rt, "fs::remove_file");
}
