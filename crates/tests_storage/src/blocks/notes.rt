//! Notes about the elements of blocks: they hold for each line that names the block, and go when its elements change.
use crate::blocks::two_lines::TwoLines;
use std::process::Abort;

/// A note is there for both lines, until one of them changes its own block.
fn assert_notes(rt: &impl Abort, lines: &mut TwoLines) {
    lines.put_in(rt, 0, &[1, 2]);
    lines.put_in(rt, 1, &[3, 4]);
    assert!(rt; lines.note(rt, 0).is_none());
    lines.set_note(rt, 0, 12);
    lines.set_note(rt, 1, 33);
    lines.set_note(rt, 1, 34);
    assert!(rt; lines.note(rt, 0) == Some(12));
    assert!(rt; lines.note(rt, 1) == Some(34));
    lines.freeze(rt);
    lines.make_own(rt, 0);
    lines.exchange(rt, 0, 0, 1, &[5]);
    assert!(rt; lines.note(rt, 0).is_none());
    assert!(rt; lines.note(rt, 1) == Some(34));
    lines.turn();
    assert!(rt; lines.note(rt, 0) == Some(12));
    assert!(rt; lines.note(rt, 1) == Some(34));
}

#[test]
fn notes_of_shared_blocks(rt: HostRuntime) {
    let mut lines = TwoLines::new(&rt, rt.alloc());
    assert_notes(&rt, &mut lines);
}

/// A block that is cut has no note in either part, and neither has one that two were joined to.
fn assert_cut_notes(rt: &impl Abort, lines: &mut TwoLines) {
    lines.put_in(rt, 0, &[1, 2]);
    lines.set_note(rt, 0, 12);
    lines.cut(rt, 0, 1);
    assert!(rt; lines.note(rt, 0).is_none());
    assert!(rt; lines.note(rt, 1).is_none());
    lines.set_note(rt, 0, 1);
    lines.set_note(rt, 1, 2);
    lines.join(rt, 0);
    assert!(rt; lines.note(rt, 0).is_none());
}

#[test]
fn notes_of_cut_blocks(rt: HostRuntime) {
    let mut lines = TwoLines::new(&rt, rt.alloc());
    assert_cut_notes(&rt, &mut lines);
}
