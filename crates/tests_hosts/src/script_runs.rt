//! The script as one run over a device of which a call is refused memory.
use crate::assertions::assert_same;
use crate::runs::{answers_to, calls_in};
use crate::sample_host::paged;
use crate::script_failures::{assert_written, failed, step_in};
use oai_device::{MemoryDevice, PageDevice};
use oai_host::Answer;
use oai_item::Fault;
use std::alloc::Global;
use std::panic::Expect;
use std::process::Abort;
use tests_devices::RefusingDevice;
use tests_fixtures::{Form, script, short};

/// The answer is that of the script, or the exchange was refused memory, which it says.
fn is_refused(rt: &impl Abort, alloc: Global, step: &str, answer: &Answer) -> bool {
    let (told, wanted) = step_in(rt, step);
    let refused = answer.fault.is_some();
    let wanted = if refused {
        failed(Fault::NoMemory, told)
    } else {
        wanted
    };
    assert_written(rt, alloc, answer, wanted, told);
    refused
}

/// The answers up to the first exchange that was refused memory are those of the script; whether there is one.
fn has_refused(rt: &impl Abort, alloc: Global, script: &str, answers: &[Answer]) -> bool {
    let mut steps = script.split("\n> ");
    for answer in answers {
        if is_refused(rt, alloc, steps.next().unwrap_or(""), answer) {
            return true;
        }
    }
    false
}

/// Whether an exchange of the run over the device is refused memory.
fn is_refused_on<D: PageDevice>(rt: &impl Abort, alloc: Global, device: D, script: &str) -> bool {
    let calls = calls_in(rt, alloc, script);
    let answers = answers_to(rt, alloc, paged(rt, alloc, device), &calls);
    assert_same(rt, answers.as_slice().len(), 20);
    has_refused(rt, alloc, script, answers.as_slice())
}

/// The same where the k-th call of the device is refused memory.
fn refused_at(rt: &impl Abort, alloc: Global, script: &str, k: u64) -> bool {
    let device = RefusingDevice::new(MemoryDevice::new(alloc), k);
    is_refused_on(rt, alloc, device, script)
}

/// Each call of the device is refused memory in turn, up to the first run in which none is.
fn assert_each_refused(rt: &impl Abort, alloc: Global, form: Form) {
    let script = script(alloc, form).expect(rt, "memory");
    for k in 1..1_000u64 {
        if !refused_at(rt, alloc, script.as_str(), k) {
            assert!(rt; k > 1);
            return;
        }
    }
    panic!(rt; "memory is refused in each run")
}

#[test]
fn run_without_memory(rt: HostRuntime) {
    assert_each_refused(&rt, rt.alloc(), short());
}
