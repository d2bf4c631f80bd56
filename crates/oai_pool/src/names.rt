ghost use Rattle.std.specs.Prelude.{◌≡◌, ◌≢◌, ◌+◌, ◌<◌, ◌≤◌, ◌==◌, if◌then◌else◌, ℕ, [], IfErr, IfOk, IsErrOf, OnErr, OnOk, length, max, vec_len, vec_capacity};
ghost use Rattle.oai_pool.specs.Counts.{AddsName, count_of, used_of};
ghost use Rattle.oai_pool.specs.Names.{HasRoomToName, is_free, number_to_give, times};
ghost use Rattle.oai_pool.specs.declared.pools.PoolFault.TheVariants as fault;
ghost use Rattle.oai_pool.specs.declared.pools.TheConstants.{MAX_PAGES};

use crate::pools::{MAX_PAGES, PoolFault};
use std::alloc::Global;

/// The reference count of each number, and the numbers that are free to be reused. A number that was never used comes
/// after the end of the counts.
#[derive(Drop)]
pub struct Names {
    counts: Vec<u32>,
    free: Vec<u32>,
    ghost few: { vec_len counts ≤ MAX_PAGES },
    ghost free_has_room: { vec_len counts ≤ vec_capacity free },
    ghost parted: { vec_len free + used_of counts.items ≡ vec_len counts },
    ghost listed: { (n : ℕ) → times n free.items ≡ (if is_free counts.items n then 1 else 0) },
}

impl Names {
    /// No number is referenced or was used before.
    pub fn new(alloc: Global) -> Names
        ensures { result.counts.items ≡ [] }
    {
        Names {
            counts: Vec::new(alloc),
            free: Vec::new(alloc),
        }
    }

    /// The number that `name` will use; space is reserved for `name`, and for a later `drop_name` of that number. The
    /// errors: NoMemory, or TooManyPages if each number is referenced.
    pub fn next(&mut self) -> Result<u32, PoolFault>
        ensures counts { self.new.counts.items ≡ self.old.counts.items }
        ensures number { IfOk result (λ no. no ≡ number_to_give self.new.counts.items self.new.free.items) }
        ensures free { IfOk result (λ no. count_of self.new.counts.items no ≡ 0) }
        ensures room { OnOk result (HasRoomToName self.new.counts self.new.free) }
        ensures fault { IfErr result (λ cause. cause ≢ fault.Device) }
        ensures whole { IfErr result (λ cause. cause ≢ fault.Damaged) }
        ensures full { IsErrOf result PoolFault.TooManyPages → MAX_PAGES ≤ used_of self.old.counts.items }
    {
        let free = self.free.len();
        if free > 0 {
            return Ok(self.free[free - 1]);
        }
        let no = self.counts.len();
        if no >= MAX_PAGES as usize {
            return Err(PoolFault::TooManyPages);
        }
        self.counts.reserve(1)?;
        self.free.reserve(no + 1)?;
        Ok(no as u32)
    }

    /// Sets the reference count of the number that `next` returned to 1.
    pub fn name(&mut self)
        requires { HasRoomToName self.old.counts self.old.free }
        ensures counts { let no = number_to_give self.old.counts.items self.old.free.items in
            AddsName no self.old.counts.items self.new.counts.items }
        ensures dense { length self.new.counts.items
            ≡ max (length self.old.counts.items) (used_of self.old.counts.items + 1) }
        ensures used { used_of self.new.counts.items ≡ used_of self.old.counts.items + 1 }
    {
        match self.free.pop() {
            Some(no) => self.counts[no as usize] = 1,
            None => {
                let _ = self.counts.push(1);
            }
        }
    }

    /// Increments the reference count of a referenced number. The error is TooManyPages, if it is 4,294,967,295.
    pub fn share(&mut self, no: u32) -> Result<(), PoolFault>
        requires { 0 < count_of self.old.counts.items no }
        ensures counts { OnOk result (AddsName no self.old.counts.items self.new.counts.items) }
        ensures used { used_of self.new.counts.items ≡ used_of self.old.counts.items }
        ensures err { OnErr result (self.new.counts.items ≡ self.old.counts.items) }
        ensures fault { IfErr result (λ cause. cause ≡ fault.TooManyPages) }
        ensures full { OnErr result (MAX_PAGES ≤ count_of self.old.counts.items no) }
    {
        let count = self.counts[no as usize];
        if count == MAX_PAGES {
            return Err(PoolFault::TooManyPages);
        }
        self.counts[no as usize] = count + 1;
        Ok(())
    }

    /// Decrements the reference count of a referenced number; returns whether it is now 0, and the number free.
    pub fn drop_name(&mut self, no: u32) -> bool
        requires { 0 < count_of self.old.counts.items no }
        ensures counts { AddsName no self.new.counts.items self.old.counts.items }
        ensures used { used_of self.new.counts.items ≤ used_of self.old.counts.items }
        ensures free { result ≡ (count_of self.new.counts.items no == 0) }
    {
        let count = self.counts[no as usize] - 1;
        self.counts[no as usize] = count;
        if count == 0 {
            let _ = self.free.push(no);
        }
        count == 0
    }

    /// How many numbers are referenced.
    pub fn used(&self) -> usize
        ensures { result ≡ used_of self.now.counts.items }
    {
        self.counts.len() - self.free.len()
    }
}
