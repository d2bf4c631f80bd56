//! The faults of a pool, as a store reports them.
ghost use Rattle.std.specs.Prelude.{◌≡◌, ◌↔◌};
ghost use Rattle.oai_item.specs.declared.faults.Fault.TheVariants as told;
ghost use Rattle.oai_pool.specs.declared.pools.PoolFault.TheVariants as pool;
ghost use Rattle.oai_places.specs.Calls.{decoding_fault_of, fault_of};

use oai_item::{DecodeFault, Fault};
use oai_pool::PoolFault;

/// The fault of a store that reports the fault of a pool.
pub fn fault_of(fault: PoolFault) -> Fault
    ensures { result ≡ fault_of fault }
{
    match fault {
        PoolFault::Device => Fault::Device,
        PoolFault::Damaged => Fault::Damaged,
        PoolFault::NoMemory => Fault::NoMemory,
        PoolFault::TooManyPages => Fault::TooManyPages,
    }
}

/// The fault of a store that reports why bytes could not be read as items.
pub(crate) fn decoding_fault_of(fault: DecodeFault) -> Fault
    ensures { result ≡ decoding_fault_of fault }
{
    match fault {
        DecodeFault::Damaged => Fault::Damaged,
        DecodeFault::NoMemory => Fault::NoMemory,
    }
}
