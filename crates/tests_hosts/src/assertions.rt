//! What the tests of this crate compare with, as functions: what `assert_eq!` writes is proved wherever it stands.
use std::alloc::Global;
use std::fmt::{Debug, Display};
use std::panic::Expect;
use std::process::Abort;

/// Fails the test, and shows both values, where they are not equal.
pub(crate) fn assert_same<T: PartialEq + Debug + Drop>(rt: &impl Abort, found: T, wanted: T) {
    assert_eq!(rt; found, wanted);
}

/// Fails the test, and shows both values and the place, where the values are not equal.
pub(crate) fn assert_same_at<T: PartialEq + Debug + Drop, P: Display + Drop>(
    rt: &impl Abort,
    found: T,
    wanted: T,
    place: P,
) {
    assert_eq!(rt; found, wanted, "at {place}");
}

/// Fails the test, and shows the place, where the bytes do not begin with the others.
pub(crate) fn assert_begins(rt: &impl Abort, bytes: &[u8], front: &[u8], place: usize) {
    assert!(rt; bytes.starts_with(front), "at {place}");
}

/// Fails the test where the text of the value is not the one that is wanted, and shows both; or where memory runs out.
pub(crate) fn assert_shown<T: Display + Drop>(
    rt: &impl Abort,
    alloc: Global,
    value: T,
    wanted: &str,
) {
    assert_eq!(rt;
        value.to_string(alloc).expect(rt, "memory").as_str(),
        wanted
    );
}
