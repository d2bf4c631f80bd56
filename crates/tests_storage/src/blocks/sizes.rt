//! Blocks that are cut and joined: the line is of the same elements.
use crate::blocks::two_lines::TwoLines;
use oai_blocks::{MAX_BLOCK, MAX_JOINED};
use std::process::Abort;

/// Cut before an element, before the first and behind the last one, and joined again.
fn assert_cut(rt: &impl Abort, lines: &mut TwoLines) {
    lines.put_in(rt, 0, &[1, 2, 3, 4, 5, 6]);
    lines.cut(rt, 0, 2);
    lines.assert_line(rt, &[1, 2, 0, 3, 4, 5, 6, 0]);
    lines.cut(rt, 1, 0);
    lines.assert_line(rt, &[1, 2, 0, 0, 3, 4, 5, 6, 0]);
    lines.join(rt, 1);
    lines.assert_line(rt, &[1, 2, 0, 3, 4, 5, 6, 0]);
    lines.join(rt, 0);
    lines.assert_line(rt, &[1, 2, 3, 4, 5, 6, 0]);
    lines.cut(rt, 0, 6);
    lines.assert_line(rt, &[1, 2, 3, 4, 5, 6, 0, 0]);
    assert!(rt; lines.is_own(rt, 0) && lines.is_own(rt, 1));
    lines.join(rt, 0);
    lines.assert_line(rt, &[1, 2, 3, 4, 5, 6, 0]);
}

#[test]
fn cut_and_joined(rt: HostRuntime) {
    let mut lines = TwoLines::new(&rt, rt.alloc());
    assert_cut(&rt, &mut lines);
}

/// A block of exactly as many elements as are allowed stays; one of more is cut in halves, the first the shorter one.
fn assert_sizes(rt: &impl Abort, lines: &mut TwoLines) {
    lines.put_in(rt, 0, &[1, 2, 3, 4, 5, 6, 7]);
    assert!(rt; !lines.cut_long(rt, 0, 7));
    lines.assert_line(rt, &[1, 2, 3, 4, 5, 6, 7, 0]);
    assert!(rt; lines.cut_long(rt, 0, 6));
    lines.assert_line(rt, &[1, 2, 3, 0, 4, 5, 6, 7, 0]);
    assert!(rt; lines.cut_long(rt, 1, 2));
    lines.assert_line(rt, &[1, 2, 3, 0, 4, 5, 0, 6, 7, 0]);
    assert!(rt; !lines.join_short(rt, 0, 4));
    lines.assert_line(rt, &[1, 2, 3, 0, 4, 5, 0, 6, 7, 0]);
    assert!(rt; lines.join_short(rt, 0, 5));
    lines.assert_line(rt, &[1, 2, 3, 4, 5, 0, 6, 7, 0]);
    assert!(rt; !lines.join_short(rt, 0, 0));
    assert!(rt; lines.join_short(rt, 0, MAX_JOINED));
    assert!(rt; !lines.cut_long(rt, 0, MAX_BLOCK));
    lines.assert_line(rt, &[1, 2, 3, 4, 5, 6, 7, 0]);
}

#[test]
fn sizes_of_blocks(rt: HostRuntime) {
    let mut lines = TwoLines::new(&rt, rt.alloc());
    assert_sizes(&rt, &mut lines);
}

#[test]
fn bounds(rt: HostRuntime) {
    assert!(rt; MAX_BLOCK == 512);
    assert!(rt; MAX_JOINED == 128);
}
