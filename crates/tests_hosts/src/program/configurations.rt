//! The configuration in a file.
use crate::assertions::assert_same;
use oai_item::Forms;
use oai_startup::{Stop, read_config};
use std::alloc::Global;
use std::fs;
use std::panic::Expect;
use std::process::Abort;
use tests_fixtures::worked_configuration;

/// The test's file, in the folder that it runs in.
const PATH: &str = "configuration-of-many-reads.json";

/// The worked configuration behind so many spaces that it takes nineteen reads of 65,536 bytes.
fn long_configuration(rt: &impl Abort, alloc: Global) -> Vec<u8> {
    let mut text = vec![in alloc; b' '; 1_200_000].expect(rt, "memory");
    text.extend_from_slice(worked_configuration().as_bytes())
        .expect(rt, "memory");
    text
}

/// A configuration may take many reads.
#[test]
fn configuration_of_many_reads(rt: HostRuntime) {
    let text = long_configuration(&rt, rt.alloc());
    fs::write(&rt, PATH, text.as_slice()).expect(&rt, "fs::write");
    let config = read_config(&rt, Forms::Fields, PATH).expect(&rt, "read_config");
    assert_same(&rt, config.len(), 3);
    fs::remove_file(&rt, PATH).expect(&rt, "fs::remove_file");
}

/// A file that is not there cannot be read.
#[test]
fn no_configuration(rt: HostRuntime) {
    match read_config(&rt, Forms::Fields, "no-such-configuration.json") {
        Ok(_) => assert!(rt; false),
        Err(stop) => assert_same(&rt, stop, Stop::CannotRead),
    }
}
