//! The block of an element, by how many come before it, and by the first elements of blocks.
use crate::blocks::two_lines::TwoLines;
use std::process::Abort;

/// The element that has so many before it is there.
fn assert_place(rt: &impl Abort, lines: &TwoLines, before: usize, block: usize, at: usize) {
    let place = lines.place_at(before);
    assert!(rt; place.block == block);
    assert!(rt; place.at == at);
}

/// Three blocks, of two elements, one and three.
fn assert_places(rt: &impl Abort, lines: &mut TwoLines) {
    assert_place(rt, lines, 0, 0, 0);
    assert_place(rt, lines, 4, 0, 4);
    lines.put_in(rt, 0, &[10, 20]);
    lines.put_in(rt, 1, &[30]);
    lines.put_in(rt, 2, &[40, 50, 60]);
    assert_place(rt, lines, 0, 0, 0);
    assert_place(rt, lines, 1, 0, 1);
    assert_place(rt, lines, 2, 1, 0);
    assert_place(rt, lines, 3, 2, 0);
    assert_place(rt, lines, 5, 2, 2);
    assert_place(rt, lines, 6, 3, 0);
    assert_place(rt, lines, 8, 3, 2);
    assert!(rt; lines.count_before(rt, 0) == Some(0));
    assert!(rt; lines.count_before(rt, 2) == Some(3));
    assert!(rt; lines.count_before(rt, 3) == Some(6));
}

#[test]
fn places(rt: HostRuntime) {
    let mut lines = TwoLines::new(&rt, rt.alloc());
    assert_places(&rt, &mut lines);
}

/// The first numbers are 10, 30, 40, 70 and 80.
fn assert_blocks(rt: &impl Abort, lines: &mut TwoLines) {
    assert!(rt; lines.block_for(5) == 0);
    for first in [80, 70, 40, 30, 10] {
        lines.put_in(rt, 0, &[first, first + 1]);
    }
    for (bound, block) in [
        (5, 0),
        (10, 0),
        (29, 0),
        (30, 1),
        (39, 1),
        (40, 2),
        (69, 2),
        (70, 3),
        (79, 3),
        (80, 4),
        (1_000, 4),
    ] {
        assert!(rt; lines.block_for(bound) == block);
    }
}

#[test]
fn blocks_by_first_elements(rt: HostRuntime) {
    let mut lines = TwoLines::new(&rt, rt.alloc());
    assert_blocks(&rt, &mut lines);
}
