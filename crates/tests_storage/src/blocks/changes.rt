//! Elements of a block exchanged for others: as many, fewer, more, none and all.
use crate::blocks::two_lines::TwoLines;
use std::process::Abort;

/// The exchange hands these out, and the line is then of these.
fn assert_exchanged(
    rt: &impl Abort,
    lines: &mut TwoLines,
    at: (usize, usize),
    numbers: &[u32],
    wanted: (&[u32], &[u32]),
) {
    let out = lines.exchange(rt, 0, at.0, at.1, numbers);
    assert!(rt; out.as_slice() == wanted.0);
    lines.assert_line(rt, wanted.1);
}

/// Exchanges in one block of five elements, and at last of all for none.
fn assert_exchanges(rt: &impl Abort, lines: &mut TwoLines) {
    lines.put_in(rt, 0, &[1, 2, 3, 4, 5]);
    assert_exchanged(rt, lines, (1, 2), &[6, 7], (&[2, 3], &[1, 6, 7, 4, 5, 0]));
    assert_exchanged(rt, lines, (0, 3), &[8], (&[1, 6, 7], &[8, 4, 5, 0]));
    assert_exchanged(
        rt,
        lines,
        (3, 0),
        &[9, 10, 11],
        (&[], &[8, 4, 5, 9, 10, 11, 0]),
    );
    assert_exchanged(
        rt,
        lines,
        (1, 1),
        &[12, 13, 14],
        (&[4], &[8, 12, 13, 14, 5, 9, 10, 11, 0]),
    );
    assert_exchanged(
        rt,
        lines,
        (6, 2),
        &[15, 16, 17],
        (&[10, 11], &[8, 12, 13, 14, 5, 9, 15, 16, 17, 0]),
    );
    assert_exchanged(
        rt,
        lines,
        (1, 6),
        &[],
        (&[12, 13, 14, 5, 9, 15], &[8, 16, 17, 0]),
    );
    assert_exchanged(rt, lines, (0, 3), &[], (&[8, 16, 17], &[0]));
    assert_exchanged(rt, lines, (0, 0), &[18], (&[], &[18, 0]));
}

#[test]
fn exchanges(rt: HostRuntime) {
    let mut lines = TwoLines::new(&rt, rt.alloc());
    assert_exchanges(&rt, &mut lines);
}

/// One element put into each end and the middle, and one taken out there.
fn assert_elements(rt: &impl Abort, lines: &mut TwoLines) {
    lines.put_in(rt, 0, &[1, 2]);
    lines.put(rt, 0, 0, 3);
    lines.put(rt, 0, 3, 4);
    lines.put(rt, 0, 2, 5);
    lines.assert_line(rt, &[3, 1, 5, 2, 4, 0]);
    assert!(rt; lines.take(rt, 0, 4) == 4);
    assert!(rt; lines.take(rt, 0, 0) == 3);
    assert!(rt; lines.take(rt, 0, 1) == 5);
    lines.assert_line(rt, &[1, 2, 0]);
}

#[test]
fn elements(rt: HostRuntime) {
    let mut lines = TwoLines::new(&rt, rt.alloc());
    assert_elements(&rt, &mut lines);
}
