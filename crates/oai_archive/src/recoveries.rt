//! Why a replay of an archive's journal failed.
use crate::journals::stop_of_reading;
use crate::stop::{Aspect, Difference, ServerStop};
use oai_durable::{Progress, RecoverFault};
use oai_item::Fault;
use oai_journal::{LogRecord, Recovery};
use oai_startup::Stop;
use sqlite_disk::Disk;
use std::alloc::Global;

/// A progress that is not reported, with the number of records that were replayed.
#[derive(Drop)]
pub(crate) struct Counted {
    pub(crate) records: u64,
}

impl Progress for Counted {
    fn note(&mut self, _entry: &LogRecord<'_>, number: u64, _position: usize, _len: usize) {
        self.records = number;
    }
}

/// Why the program stops if the recovery failed.
pub fn stop_of_recovery(fault: RecoverFault) -> ServerStop {
    match fault {
        RecoverFault::Journal(fault) => stop_of_reading(fault),
        RecoverFault::UnknownKind(_) => ServerStop::NotOurs,
        RecoverFault::Performing(number, fault) => ServerStop::Performing(number, fault),
    }
}

/// Why the program stops if a checkpoint that was just written could not be read back. If the handler rejects the part
/// that was read last, the configuration does not allow it, and the error has the name of its repository.
pub fn stop_of_checkpoint<D: Disk + Drop>(
    alloc: Global,
    fault: RecoverFault,
    recovery: &Recovery<D>,
) -> ServerStop {
    match fault {
        RecoverFault::Performing(_, Fault::Damaged) => unfit(alloc, recovery),
        _ => stop_of_recovery(fault),
    }
}

/// The error that the configuration does not allow the part that was read last.
fn unfit<D: Disk + Drop>(alloc: Global, recovery: &Recovery<D>) -> ServerStop {
    let Some(part) = recovery.record() else {
        return ServerStop::NotOurs;
    };
    let Ok(name) = str::from_utf8(part.name) else {
        return ServerStop::NotOurs;
    };
    match String::from_str(alloc, name) {
        Ok(repository) => ServerStop::OtherConfig(Difference {
            repository,
            aspect: Aspect::Contents,
        }),
        Err(_) => ServerStop::Common(Stop::NoMemory),
    }
}
