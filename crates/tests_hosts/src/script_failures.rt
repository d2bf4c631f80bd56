//! The script over stores and devices of which a call fails. An exchange that fails is made once more, and all else is
//! answered as where nothing failed; nor does a failure leave a page that nobody needs.
use crate::assertions::assert_same_at;
use crate::sample_host::{host, paged};
use oai_catalogue::{PlainVersions, Versions};
use oai_device::{FaultyDevice, MemoryDevice, PageDevice};
use oai_host::{Answer, Host};
use oai_item::Fault;
use oai_pool::PagePool;
use std::alloc::Global;
use std::panic::Expect;
use std::process::Abort;
use tests_devices::RefusingDevice;
use tests_fixtures::{
    ExchangeLine, Form, answer_to, body_of, exchange_in, long, script, short, wanted_in,
    write_exchanged,
};
use tests_stores::{failing, refusing};

// ---- exchanges of a script

/// An exchange of a transcript, and what it is answered.
pub(crate) fn step_in<'a>(rt: &impl Abort, step: &'a str) -> (ExchangeLine<'a>, &'a str) {
    let step = step.strip_prefix("> ").unwrap_or(step);
    match step.split_once("\n") {
        Some((asked, wanted)) => (exchange_in(asked).expect(rt, "exchange_in"), wanted),
        None => panic!(rt; "no answer: {step}"),
    }
}

/// What the host answers to the exchange.
pub(crate) fn answer_of<V: Versions + Drop>(
    rt: &impl Abort,
    alloc: Global,
    host: &mut Host<V>,
    told: ExchangeLine<'_>,
) -> Answer {
    let body = body_of(alloc, told).expect(rt, "body_of");
    answer_to(host, told, body.as_str())
}

/// The answer is that, in the shorthand of transcripts.
pub(crate) fn assert_written(
    rt: &impl Abort,
    alloc: Global,
    answer: &Answer,
    wanted: &str,
    told: ExchangeLine<'_>,
) {
    let mut output = Vec::new(alloc);
    write_exchanged(answer, &mut output).expect(rt, "write_exchanged");
    let wanted = wanted_in(alloc, wanted).expect(rt, "wanted_in");
    assert_same_at(rt, output.as_slice(), wanted.as_bytes(), told.target);
}

/// What an exchange is answered that fails for that cause; a deposit has one line, which is not done.
pub(crate) fn failed(fault: Fault, told: ExchangeLine<'_>) -> &'static str {
    match (fault, told.body.is_empty()) {
        (Fault::NoMemory, true) => "503 after 60 for NoMemory",
        (Fault::NoMemory, false) => "503 after 60 done 0 for NoMemory",
        (Fault::Device, true) => "500 for Device",
        (Fault::Device, false) => "500 done 0 for Device",
        (Fault::Damaged, true) => "500 for Damaged",
        (Fault::Damaged, false) => "500 done 0 for Damaged",
        (Fault::TooManyPages, true) => "503 after 60 for TooManyPages",
        (Fault::TooManyPages, false) => "503 after 60 done 0 for TooManyPages",
    }
}

// ---- scripts

/// Makes the exchange, and makes it again where it fails, which it may for that cause alone; whether it failed.
fn fails_once<V: Versions + Drop>(
    rt: &impl Abort,
    alloc: Global,
    host: &mut Host<V>,
    step: &str,
    fault: Fault,
) -> bool {
    let (told, wanted) = step_in(rt, step);
    let first = answer_of(rt, alloc, host, told);
    if first.fault.is_none() {
        assert_written(rt, alloc, &first, wanted, told);
        return false;
    }
    assert_written(rt, alloc, &first, failed(fault, told), told);
    let second = answer_of(rt, alloc, host, told);
    assert_written(rt, alloc, &second, wanted, told);
    true
}

/// Makes the exchanges of the script, each that fails twice; how many failed.
fn failures_of<V: Versions + Drop>(
    rt: &impl Abort,
    alloc: Global,
    host: &mut Host<V>,
    script: &str,
    fault: Fault,
) -> u64 {
    let mut failures: u64 = 0;
    for step in script.split("\n> ") {
        if fails_once(rt, alloc, host, step, fault) {
            failures = failures.wrapping_add(1);
        }
    }
    failures
}

/// How many exchanges fail over that store.
fn failures_over<V: Versions + Drop>(
    rt: &impl Abort,
    alloc: Global,
    store: V,
    script: &str,
    fault: Fault,
) -> u64 {
    let mut host = host(rt, alloc, store);
    failures_of(rt, alloc, &mut host, script, fault)
}

/// How many exchanges fail over pages of that device, and how many pages are named at the end.
fn failures_on<D: PageDevice>(
    rt: &impl Abort,
    alloc: Global,
    device: D,
    script: &str,
    fault: Fault,
) -> (u64, usize) {
    let mut host = host(rt, alloc, paged(rt, alloc, device));
    let failures = failures_of(rt, alloc, &mut host, script, fault);
    (failures, host.versions().pool().used())
}

// ---- each call fails in turn

/// What fails.
#[derive(Clone, Copy)]
enum Trouble {
    /// A device, at a read or a write.
    Device,
    /// A device that is refused memory.
    DeviceMemory,
    /// A store, at a call that can fail.
    Store,
    /// A store that is refused memory.
    StoreMemory,
}

/// The number of a store's call that is the k-th after the host was made, which made one for each of its three
/// repositories.
fn behind_the_host(k: u64) -> u64 {
    k.wrapping_add(3)
}

/// How many exchanges of the script fail where the k-th call after the host was made does. Behind them no more pages
/// are named than where none fails.
fn failures_at(
    rt: &impl Abort,
    alloc: Global,
    trouble: Trouble,
    script: &str,
    pages: usize,
    k: u64,
) -> u64 {
    let (failures, used) = match trouble {
        Trouble::Device => faulty(rt, alloc, script, k),
        Trouble::DeviceMemory => refused(rt, alloc, script, k),
        Trouble::Store => (failing_store(rt, alloc, script, k), pages),
        Trouble::StoreMemory => (refusing_store(rt, alloc, script, k), pages),
    };
    assert_same_at(rt, used, pages, k);
    failures
}

fn faulty(rt: &impl Abort, alloc: Global, script: &str, k: u64) -> (u64, usize) {
    let device = FaultyDevice::new(MemoryDevice::new(alloc), k);
    failures_on(rt, alloc, device, script, Fault::Device)
}

fn refused(rt: &impl Abort, alloc: Global, script: &str, k: u64) -> (u64, usize) {
    let device = RefusingDevice::new(MemoryDevice::new(alloc), k);
    failures_on(rt, alloc, device, script, Fault::NoMemory)
}

fn failing_store(rt: &impl Abort, alloc: Global, script: &str, k: u64) -> u64 {
    let store = failing(PlainVersions::new(alloc), behind_the_host(k));
    failures_over(rt, alloc, store, script, Fault::Device)
}

fn refusing_store(rt: &impl Abort, alloc: Global, script: &str, k: u64) -> u64 {
    let store = refusing(PlainVersions::new(alloc), behind_the_host(k));
    failures_over(rt, alloc, store, script, Fault::NoMemory)
}

/// Each call fails in turn, and one exchange of the script with it, up to the first run in which none does.
fn assert_each_fails(rt: &impl Abort, alloc: Global, trouble: Trouble, form: Form) {
    let script = script(alloc, form).expect(rt, "memory");
    for k in 1..1_000u64 {
        let failures = failures_at(rt, alloc, trouble, script.as_str(), form.pages, k);
        if failures == 0 {
            assert!(rt; k > 1);
            return;
        }
        assert_same_at(rt, failures, 1, k);
    }
    panic!(rt; "a call fails in each run")
}

#[test]
fn calls_of_a_device(rt: HostRuntime) {
    assert_each_fails(&rt, rt.alloc(), Trouble::Device, short());
}

#[test]
fn memory_of_a_device(rt: HostRuntime) {
    assert_each_fails(&rt, rt.alloc(), Trouble::DeviceMemory, short());
}

#[test]
fn calls_of_a_device_for_a_long_item(rt: HostRuntime) {
    assert_each_fails(&rt, rt.alloc(), Trouble::Device, long());
}

#[test]
fn memory_of_a_device_for_a_long_item(rt: HostRuntime) {
    assert_each_fails(&rt, rt.alloc(), Trouble::DeviceMemory, long());
}

#[test]
fn calls_of_a_store(rt: HostRuntime) {
    assert_each_fails(&rt, rt.alloc(), Trouble::Store, short());
}

#[test]
fn memory_of_a_store(rt: HostRuntime) {
    assert_each_fails(&rt, rt.alloc(), Trouble::StoreMemory, short());
}
