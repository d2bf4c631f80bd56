//! Whether the commit byte that ends a journal was once set: then what follows it continues the chain of digests.
ghost use Rattle.std.specs.Prelude.{◌≡◌, ◌≤◌, ◌↔◌, ℕ, List, length, drop, vec_capacity, IsTrue, IfOk, OnOk};
ghost use Rattle.oai_journal.specs.Blocks.{IsBlock};
ghost use Rattle.oai_journal.specs.Changes.{BeginsWithFrame, GoesOn, IsSearchTurn, TurnsOn};
ghost use Rattle.oai_journal.specs.declared.frames.TheConstants.{FRONT_ROOM};

use crate::blocks::BlockReader;
use crate::groups::{FURTHER_GATE, OPEN_GATE};
use crate::journals::JournalFault;
use crate::readings::{FramePlace, read_frame, read_gate};
use sqlite_disk::Disk;

/// How much is known about whether bytes continue the chain.
pub(crate) enum ChainProgress {
    /// They do if those at that position do, after a frame with that digest.
    Further(usize, u64),
    /// They do, or they do not.
    Done(bool),
}

/// Whether the bytes at that position, after that digest, are the frames of a commit group without the commit byte of
/// the first, followed by a set commit byte and the first frame of another group.
#[tactic(auto, using(crate::proofs::ChangeLemmas::iff_trans, crate::proofs::ChangeLemmas::iff_sym_trans))]
pub(crate) fn goes_on<D: Disk + Drop>(
    reader: &mut BlockReader<D>,
    len: usize,
    at: usize,
    digest: u64,
    frame: &mut Vec<u8>,
    out: &mut Vec<u8>,
) -> Result<bool, JournalFault>
    requires room { FRONT_ROOM ≤ vec_capacity out.old }
    ensures found { IfOk result (λ on. IsTrue (D.Disk.is_clean reader.new.disk) → IsBlock D.Disk.seen reader.old
        → len ≡ length (D.Disk.seen reader.old.disk)
        → IsTrue on ↔ GoesOn digest (drop at (D.Disk.seen reader.old.disk))) }
    ensures block { OnOk result (IsTrue (D.Disk.is_clean reader.new.disk) → IsBlock D.Disk.seen reader.old
        → IsBlock D.Disk.seen reader.new) }
    ensures seen { D.Disk.seen reader.new.disk ≡ D.Disk.seen reader.old.disk }
    ensures crash { (c : List ℕ) → D.Disk.may_leave reader.new.disk c → D.Disk.may_leave reader.old.disk c }
    ensures clean { IsTrue (D.Disk.is_clean reader.new.disk) → IsTrue (D.Disk.is_clean reader.old.disk) }
{
    let mut place = at;
    let mut last = digest;
    loop {
        match take_turn(reader, len, place, last, frame, out)? {
            ChainProgress::Further(next, further) => {
                place = next;
                last = further;
            }
            ChainProgress::Done(on) => return Ok(on),
        }
    }
}

/// Reads the frame at that position and the commit byte after it.
fn take_turn<D: Disk + Drop>(
    reader: &mut BlockReader<D>,
    len: usize,
    at: usize,
    digest: u64,
    frame: &mut Vec<u8>,
    out: &mut Vec<u8>,
) -> Result<ChainProgress, JournalFault>
    requires room { FRONT_ROOM ≤ vec_capacity out.old }
    ensures found { IfOk result (λ turn. IsTrue (D.Disk.is_clean reader.new.disk) → IsBlock D.Disk.seen reader.old
        → len ≡ length (D.Disk.seen reader.old.disk)
        → IsSearchTurn (D.Disk.seen reader.old.disk) at digest turn) }
    ensures on { IfOk result (λ turn. TurnsOn at len turn) }
    ensures room { vec_capacity out.old ≤ vec_capacity out.new }
    ensures block { OnOk result (IsTrue (D.Disk.is_clean reader.new.disk) → IsBlock D.Disk.seen reader.old
        → IsBlock D.Disk.seen reader.new) }
    ensures seen { D.Disk.seen reader.new.disk ≡ D.Disk.seen reader.old.disk }
    ensures crash { (c : List ℕ) → D.Disk.may_leave reader.new.disk c → D.Disk.may_leave reader.old.disk c }
    ensures clean { IsTrue (D.Disk.is_clean reader.new.disk) → IsTrue (D.Disk.is_clean reader.old.disk) }
{
    let place = FramePlace {
        at,
        first: false,
        before: digest,
    };
    let Some(last) = read_frame(reader, len, place, frame, out)? else {
        return Ok(ChainProgress::Done(false));
    };
    let gate = at + frame.len();
    let Some(byte) = read_gate(reader, len, gate, frame)? else {
        return Ok(ChainProgress::Done(false));
    };
    if byte == FURTHER_GATE {
        return Ok(ChainProgress::Further(gate + 1, last));
    }
    if byte != OPEN_GATE {
        return Ok(ChainProgress::Done(false));
    }
    let on = begins_with_frame(reader, len, gate + 1, last, frame, out)?;
    Ok(ChainProgress::Done(on))
}

/// Whether a frame begins at that position, after that digest.
fn begins_with_frame<D: Disk + Drop>(
    reader: &mut BlockReader<D>,
    len: usize,
    at: usize,
    digest: u64,
    frame: &mut Vec<u8>,
    out: &mut Vec<u8>,
) -> Result<bool, JournalFault>
    requires room { FRONT_ROOM ≤ vec_capacity out.old }
    ensures found { IfOk result (λ on. IsTrue (D.Disk.is_clean reader.new.disk) → IsBlock D.Disk.seen reader.old
        → len ≡ length (D.Disk.seen reader.old.disk)
        → IsTrue on ↔ BeginsWithFrame digest (drop at (D.Disk.seen reader.old.disk))) }
    ensures room { vec_capacity out.old ≤ vec_capacity out.new }
    ensures block { OnOk result (IsTrue (D.Disk.is_clean reader.new.disk) → IsBlock D.Disk.seen reader.old
        → IsBlock D.Disk.seen reader.new) }
    ensures seen { D.Disk.seen reader.new.disk ≡ D.Disk.seen reader.old.disk }
    ensures crash { (c : List ℕ) → D.Disk.may_leave reader.new.disk c → D.Disk.may_leave reader.old.disk c }
    ensures clean { IsTrue (D.Disk.is_clean reader.new.disk) → IsTrue (D.Disk.is_clean reader.old.disk) }
{
    let place = FramePlace {
        at,
        first: false,
        before: digest,
    };
    match read_frame(reader, len, place, frame, out)? {
        Some(_) => Ok(true),
        None => Ok(false),
    }
}
