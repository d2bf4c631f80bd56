//! A line changes, and its copy, with which it has blocks in common, does not; blocks of a dropped line go by steps.
use crate::blocks::two_lines::TwoLines;
use std::process::Abort;

/// The line at hand, and the other one.
fn assert_both(rt: &impl Abort, lines: &mut TwoLines, own: &[u32], other: &[u32]) {
    lines.assert_line(rt, own);
    lines.turn();
    lines.assert_line(rt, other);
    lines.turn();
}

/// A line of three blocks, and its copy.
fn three_blocks(rt: &impl Abort, lines: &mut TwoLines) {
    lines.put_in(rt, 0, &[1, 2, 3]);
    lines.put_in(rt, 1, &[4, 5]);
    lines.put_in(rt, 1, &[6]);
    lines.freeze(rt);
    assert_both(
        rt,
        lines,
        &[1, 2, 3, 0, 6, 0, 4, 5, 0],
        &[1, 2, 3, 0, 6, 0, 4, 5, 0],
    );
    assert!(rt; !lines.is_own(rt, 0) && !lines.is_own(rt, 1) && !lines.is_own(rt, 2));
}

/// A block is copied, and then changed; no other block is.
fn assert_copied(rt: &impl Abort, lines: &mut TwoLines) {
    three_blocks(rt, lines);
    lines.make_own(rt, 0);
    assert!(rt; lines.is_own(rt, 0) && !lines.is_own(rt, 1) && !lines.is_own(rt, 2));
    let out = lines.exchange(rt, 0, 1, 1, &[7, 8]);
    assert!(rt; out.as_slice() == [2].as_slice());
    assert_both(
        rt,
        lines,
        &[1, 7, 8, 3, 0, 6, 0, 4, 5, 0],
        &[1, 2, 3, 0, 6, 0, 4, 5, 0],
    );
    lines.turn();
    assert!(rt; lines.is_own(rt, 0) && !lines.is_own(rt, 1) && !lines.is_own(rt, 2));
}

#[test]
fn copied_block(rt: HostRuntime) {
    let mut lines = TwoLines::new(&rt, rt.alloc());
    assert_copied(&rt, &mut lines);
}

/// One element put into a block that both name, and one taken out of another.
fn assert_elements(rt: &impl Abort, lines: &mut TwoLines) {
    three_blocks(rt, lines);
    lines.put(rt, 1, 1, 9);
    assert!(rt; lines.is_own(rt, 1) && !lines.is_own(rt, 0) && !lines.is_own(rt, 2));
    assert_both(
        rt,
        lines,
        &[1, 2, 3, 0, 6, 9, 0, 4, 5, 0],
        &[1, 2, 3, 0, 6, 0, 4, 5, 0],
    );
    assert!(rt; lines.take(rt, 2, 0) == 4);
    assert_both(
        rt,
        lines,
        &[1, 2, 3, 0, 6, 9, 0, 5, 0],
        &[1, 2, 3, 0, 6, 0, 4, 5, 0],
    );
    lines.turn();
    assert!(rt; lines.take(rt, 0, 2) == 3);
    assert_both(
        rt,
        lines,
        &[1, 2, 0, 6, 0, 4, 5, 0],
        &[1, 2, 3, 0, 6, 9, 0, 5, 0],
    );
}

#[test]
fn elements_of_shared_blocks(rt: HostRuntime) {
    let mut lines = TwoLines::new(&rt, rt.alloc());
    assert_elements(&rt, &mut lines);
}

/// A block is taken out of one line, and then of the other one, which hands its elements out.
fn assert_taken_out(rt: &impl Abort, lines: &mut TwoLines) {
    three_blocks(rt, lines);
    let out = lines.take_out(rt, 0);
    assert!(rt; out.is_empty());
    assert_both(rt, lines, &[6, 0, 4, 5, 0], &[1, 2, 3, 0, 6, 0, 4, 5, 0]);
    lines.turn();
    let out = lines.take_out(rt, 0);
    assert!(rt; out.as_slice() == [1, 2, 3].as_slice());
    assert_both(rt, lines, &[6, 0, 4, 5, 0], &[6, 0, 4, 5, 0]);
}

#[test]
fn taken_out(rt: HostRuntime) {
    let mut lines = TwoLines::new(&rt, rt.alloc());
    assert_taken_out(&rt, &mut lines);
}

/// One step of those that are left hands these out.
fn assert_step(rt: &impl Abort, lines: &mut TwoLines, wanted: &[u32]) {
    assert!(rt; lines.is_waiting());
    let out = lines.release();
    assert!(rt; out.as_slice() == wanted);
}

/// The line of no elements that `freeze` dropped costs one step; one of three blocks four, of which one hands out the
/// block that it alone named.
fn assert_released(rt: &impl Abort, lines: &mut TwoLines) {
    assert!(rt; !lines.is_waiting());
    three_blocks(rt, lines);
    assert_step(rt, lines, &[]);
    assert!(rt; !lines.is_waiting());
    lines.put(rt, 1, 0, 7);
    lines.turn();
    lines.freeze(rt);
    assert_step(rt, lines, &[]);
    assert_step(rt, lines, &[7, 6]);
    assert_step(rt, lines, &[]);
    assert_step(rt, lines, &[]);
    assert!(rt; !lines.is_waiting());
    assert_both(
        rt,
        lines,
        &[1, 2, 3, 0, 6, 0, 4, 5, 0],
        &[1, 2, 3, 0, 6, 0, 4, 5, 0],
    );
}

#[test]
fn released(rt: HostRuntime) {
    let mut lines = TwoLines::new(&rt, rt.alloc());
    assert_released(&rt, &mut lines);
}
