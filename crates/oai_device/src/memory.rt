ghost use Rattle.std.specs.Prelude.{◌≡◌, ℕ, None, nat_eq, option_map, true, false, IsTrue};
ghost use Rattle.std.specs.HashMap.{get};

use crate::devices::{DeviceFault, Page, PageDevice};
use std::alloc::Global;
use std::collections::HashMap;

/// A device in memory. It never fails, and reads allocate nothing; a write allocates if nothing was written under its
/// number.
#[derive(Drop)]
pub struct MemoryDevice {
    alloc: Global,
    pages: HashMap<u32, Box<Page>>,
}

impl PageDevice for MemoryDevice {
    ghost pages = { λ d n. option_map (λ page. page.value) (get nat_eq d.pages n) };

    ghost failures = { λ _. 0 };

    ghost honest = { λ _. true };

    ghost reads_take_memory = { false };

    ghost writes_take_memory = { true };

    fn read(&mut self, no: u32, page: &mut Page) -> Result<(), DeviceFault> {
        let Some(kept) = self.pages.get(&no) else {
            unreachable!()
        };
        *page = **kept;
        Ok(())
    }

    fn read_range(&mut self, no: u32, from: usize, into: &mut [u8]) -> Result<(), DeviceFault> {
        let Some(kept) = self.pages.get(&no) else {
            unreachable!()
        };
        into.copy_from_slice(&kept[from..from + into.len()]);
        Ok(())
    }

    fn write(&mut self, no: u32, page: &Page) -> Result<(), DeviceFault> {
        if let Some(kept) = self.pages.get_mut(&no) {
            **kept = *page;
            return Ok(());
        }
        self.pages.insert(no, Box::new(self.alloc, *page)?)?;
        Ok(())
    }

    fn faults(&self) -> u64 {
        0
    }
}

impl MemoryDevice {
    /// A device to which nothing was written.
    pub fn new(alloc: Global) -> MemoryDevice
        ensures pages { (n : ℕ) → ⟦<MemoryDevice as PageDevice>⟧.pages result n ≡ None }
        ensures failures { ⟦<MemoryDevice as PageDevice>⟧.failures result ≡ 0 }
        ensures honest { IsTrue (⟦<MemoryDevice as PageDevice>⟧.honest result) }
    {
        MemoryDevice {
            alloc,
            pages: HashMap::new(alloc),
        }
    }
}
