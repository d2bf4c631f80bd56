//! Journals to which a server writes while they are read, and damaged ones, verified and dumped.
use crate::assertions::assert_same;
use crate::daemon::dumps::{assert_dumped, begun, deposit};
use oai_archive::{ServerStop, verify_journal};
use sqlite_disk::{Disk, Tally};
use std::alloc::Global;
use std::io::{self, ErrorKind};
use std::panic::Expect;
use std::process::Abort;

/// A file to which a server writes while it is read: a reader that looks how long it is finds some of its bytes at
/// first, and then all.
#[derive(Drop)]
struct Growing {
    bytes: Vec<u8>,
    /// How long it is found next.
    len: usize,
}

impl Disk for Growing {
    ghost use Rattle.std.specs.Prelude.{◌≡◌, [], true, false, refl};

    ghost seen = { λ _. [] };

    ghost may_leave = { λ _ c. c ≡ [] };

    ghost is_usable = { λ _. true };

    ghost faults = { λ _. 18446744073709551615 };

    ghost tally_of = { λ _. record { caught = 0; refused = 0 } };

    ghost is_clean = { λ _. false };

    ghost key_of = { λ _. 0 };

    ghost is_fair = { λ _ _. true };

    ghost seen_may_stay = { λ _. refl };

    ghost fair_if_clean = { λ _ _ _. refl };

    fn mixes(&self) -> bool {
        false
    }

    fn key(&self) -> u64 {
        0
    }

    fn tally(&self) -> Tally {
        Tally {
            caught: 0,
            refused: 0,
        }
    }

    fn may_be_used(&self) -> bool {
        true
    }

    fn len(&mut self) -> io::Result<usize> {
        let len = self.len;
        self.len = self.bytes.len();
        Ok(len)
    }

    fn read_at(&mut self, at: usize, buf: &mut [u8]) -> io::Result<()> {
        match at.checked_add(buf.len()) {
            Some(end) if end <= self.bytes.len() => {
                buf.copy_from_slice(&self.bytes[at..end]);
                Ok(())
            }
            _ => Err(io::Error::from(ErrorKind::UnexpectedEof)),
        }
    }

    fn read_checked(
        &mut self,
        _key: u64,
        _want: u64,
        _at: usize,
        _buf: &mut [u8],
    ) -> io::Result<()> {
        Err(io::Error::from(ErrorKind::Unsupported))
    }

    fn write_at(&mut self, _at: usize, _bytes: &[u8]) -> io::Result<()> {
        Err(io::Error::from(ErrorKind::Unsupported))
    }

    fn set_len(&mut self, _len: usize) -> io::Result<()> {
        Err(io::Error::from(ErrorKind::Unsupported))
    }

    fn sync(&mut self) -> io::Result<()> {
        Ok(())
    }
}

/// The bytes of a journal of so many deposits at the repository `a`, two at most.
fn bytes(rt: &impl Abort, alloc: Global, deposits: usize) -> Vec<u8> {
    let mut journal = begun(rt, alloc);
    let lines = r#"{"deposit":"oai:a:1","sets":[],"records":{"oai_dc":[]}}"#;
    deposit(rt, &mut journal, 0, lines);
    if deposits > 1 {
        let lines = r#"{"deposit":"oai:a:2","sets":[],"records":{"oai_dc":[["title","T"]]}}"#;
        deposit(rt, &mut journal, 1, lines);
    }
    let disk = journal.into_disk();
    let mut bytes = Vec::new(alloc);
    bytes.extend_from_slice(disk.bytes()).expect(rt, "memory");
    bytes
}

/// A journal of two deposits, without so many bytes at first.
fn partly_shown(rt: &impl Abort, alloc: Global, hidden: usize) -> Growing {
    let bytes = bytes(rt, alloc, 2);
    let len = bytes.len().saturating_sub(hidden);
    Growing { bytes, len }
}

/// The journal whose byte so many before its end was changed.
fn changed(rt: &impl Abort, alloc: Global, before: usize) -> Growing {
    let mut bytes = bytes(rt, alloc, 2);
    let len = bytes.len();
    let at = len.saturating_sub(before);
    assert!(rt; at < bytes.len());
    bytes[at] = b'?';
    Growing { bytes, len }
}

/// What is written of it by a program that verifies it.
fn assert_verified(
    rt: &impl Abort,
    alloc: Global,
    file: Growing,
    wanted: Result<(), ServerStop>,
    text: &str,
) {
    let mut written = Vec::new(alloc);
    let done = verify_journal(alloc, file, &mut written);
    assert_same(rt, done, wanted);
    assert_same(rt, written.as_slice(), text.as_bytes());
}

/// What is dumped of the journal without so many bytes at first.
fn assert_dump_shown(rt: &impl Abort, alloc: Global, hidden: usize, wanted: &str) {
    let file = partly_shown(rt, alloc, hidden);
    assert_dumped(rt, alloc, file, "a", Ok(()), wanted);
}

/// The second deposit is read, whose end is not found at first.
#[test]
fn dump_beside_a_server(rt: HostRuntime) {
    let wanted = r#"{"deposit":"oai:a:1","records":{"oai_dc":[]},"sets":[]}
{"deposit":"oai:a:2","records":{"oai_dc":[["title","T"]]},"sets":[]}
"#;
    let alloc = rt.alloc();
    assert_dump_shown(&rt, alloc, 0, wanted);
    assert_dump_shown(&rt, alloc, 5, wanted);
}

/// Where the gate stands of a journal of so many deposits.
fn gate_behind(rt: &impl Abort, alloc: Global, deposits: usize) -> usize {
    bytes(rt, alloc, deposits).len().saturating_sub(1)
}

/// What is written where the journal is verified without so many bytes at first.
fn assert_verified_shown(rt: &impl Abort, alloc: Global, hidden: usize, wanted: &str) {
    let file = partly_shown(rt, alloc, hidden);
    assert_verified(rt, alloc, file, Ok(()), wanted);
}

/// So too where it is verified.
#[test]
fn verify_beside_a_server(rt: HostRuntime) {
    let alloc = rt.alloc();
    let end = gate_behind(&rt, alloc, 2);
    let wanted = format!(in alloc; "ok 2 {end}\n").expect(&rt, "memory");
    assert_verified_shown(&rt, alloc, 0, wanted.as_str());
    assert_verified_shown(&rt, alloc, 5, wanted.as_str());
}

/// A journal whose byte so many before its end was changed is damaged at that gate, and nothing is written of it.
fn assert_damaged(rt: &impl Abort, alloc: Global, before: usize, gate: usize) {
    let file = changed(rt, alloc, before);
    assert_verified(rt, alloc, file, Err(ServerStop::Damaged(gate)), "");
    let file = changed(rt, alloc, before);
    assert_dumped(rt, alloc, file, "a", Err(ServerStop::Damaged(gate)), "");
}

/// A changed byte in the body of the last record, in its digest, and behind its body is damage at its gate, of which
/// nothing is written.
#[test]
fn damage(rt: HostRuntime) {
    let gate = gate_behind(&rt, rt.alloc(), 1);
    for before in [2usize, 9, 80] {
        assert_damaged(&rt, rt.alloc(), before, gate);
    }
}
