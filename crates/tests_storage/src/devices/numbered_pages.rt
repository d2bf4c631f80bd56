//! Pages that differ in their numbers.
use crate::assertions::assert_same;
use oai_device::{PAGE_BYTES, Page};
use std::process::Abort;

/// A page of its own for each number.
pub(crate) fn page_of(number: u16) -> Page {
    let [high, low] = number.to_be_bytes();
    let mut page = [low; PAGE_BYTES];
    page[0] = high;
    page
}

/// Fails the test where the page is not that of the number, and shows the number that it is of.
pub(crate) fn assert_page(rt: &impl Abort, found: &Page, number: u16) {
    assert_same(rt, u16::from_be_bytes([found[0], found[1]]), number);
    assert!(rt; *found == page_of(number));
}
