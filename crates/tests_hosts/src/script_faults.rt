//! The script over a device that returns a wrong byte in one read and fails at one call. An exchange that fails for
//! either is made again, and then answered as where nothing fails.
use crate::assertions::assert_same;
use crate::sample_host::{host, paged};
use crate::script_failures::{answer_of, assert_written, failed, step_in};
use oai_catalogue::Versions;
use oai_device::{FaultyDevice, FlippingDevice, MemoryDevice, PageDevice};
use oai_host::Host;
use oai_item::Fault;
use oai_pool::PagePool;
use std::alloc::Global;
use std::panic::Expect;
use std::process::Abort;
use tests_fixtures::{Form, long, script, short};

/// How many exchanges failed, for each cause.
#[derive(Clone, Copy, Debug, PartialEq, Eq)]
struct Faults {
    damaged: u64,
    device: u64,
    others: u64,
}

impl Faults {
    /// One more.
    fn add(&mut self, fault: Fault) {
        match fault {
            Fault::Damaged => self.damaged = self.damaged.wrapping_add(1),
            Fault::Device => self.device = self.device.wrapping_add(1),
            Fault::NoMemory | Fault::TooManyPages => self.others = self.others.wrapping_add(1),
        }
    }
}

/// Makes the exchange, which fails, and is counted, or is answered as it should; whether it is the latter.
fn is_answered<V: Versions + Drop>(
    rt: &impl Abort,
    alloc: Global,
    host: &mut Host<V>,
    step: &str,
    faults: &mut Faults,
) -> bool {
    let (told, wanted) = step_in(rt, step);
    let answer = answer_of(rt, alloc, host, told);
    match answer.fault {
        Some(fault) => {
            assert_written(rt, alloc, &answer, failed(fault, told), told);
            faults.add(fault);
            false
        }
        None => {
            assert_written(rt, alloc, &answer, wanted, told);
            true
        }
    }
}

/// Makes the exchange up to three times: once for the lie, once for the failure, and once more.
fn assert_answered<V: Versions + Drop>(
    rt: &impl Abort,
    alloc: Global,
    host: &mut Host<V>,
    step: &str,
    faults: &mut Faults,
) {
    if is_answered(rt, alloc, host, step, faults) {
        return;
    }
    if is_answered(rt, alloc, host, step, faults) {
        return;
    }
    let answered = is_answered(rt, alloc, host, step, faults);
    assert!(rt; answered);
}

/// What fails of the script over the device. At the end as many pages are named as where none does.
fn faults_on<D: PageDevice>(
    rt: &impl Abort,
    alloc: Global,
    device: D,
    script: &str,
    pages: usize,
) -> Faults {
    let mut host = host(rt, alloc, paged(rt, alloc, device));
    let mut faults = Faults {
        damaged: 0,
        device: 0,
        others: 0,
    };
    for step in script.split("\n> ") {
        assert_answered(rt, alloc, &mut host, step, &mut faults);
    }
    assert_same(rt, host.versions().pool().used(), pages);
    faults
}

/// What fails where the read of the one number is a lie and the call of the other fails.
fn faults_at(
    rt: &impl Abort,
    alloc: Global,
    script: &str,
    pages: usize,
    lie: u64,
    failure: u64,
) -> Faults {
    let lying = FlippingDevice::new(MemoryDevice::new(alloc), lie);
    let device = FaultyDevice::new(lying, failure);
    faults_on(rt, alloc, device, script, pages)
}

/// For each k the k-th read is a lie and the 2k-th call, or the one behind it, fails, up to the first run that meets
/// neither; some meet both.
fn assert_each(rt: &impl Abort, alloc: Global, form: Form, odd: bool) {
    let script = script(alloc, form).expect(rt, "memory");
    let mut both: u64 = 0;
    for k in 1..500u64 {
        let faults = faults_at(
            rt,
            alloc,
            script.as_str(),
            form.pages,
            k,
            2 * k + u64::from(odd),
        );
        assert!(rt; faults.damaged <= 1 && faults.device <= 1 && faults.others == 0);
        if faults.damaged == 0 && faults.device == 0 {
            assert!(rt; both > 0);
            return;
        }
        if faults.damaged == faults.device {
            both = both.wrapping_add(1);
        }
    }
    panic!(rt; "each run meets one")
}

#[test]
fn lies_and_failures(rt: HostRuntime) {
    assert_each(&rt, rt.alloc(), short(), false);
    assert_each(&rt, rt.alloc(), short(), true);
}

#[test]
fn lies_and_failures_for_a_long_item(rt: HostRuntime) {
    assert_each(&rt, rt.alloc(), long(), false);
}
