//! A device over a file of pages. It is honest if its file is. No clause can say what the system's file returns, so
//! this is supposed of it, in words: it returns what was written to it, and no other process writes to it while the
//! device is in use. Every theorem over an honest device holds of `FileDevice<File>` only insofar as its file does so.
//! Nothing else is supposed: whatever the file does, failures are counted, a write changes no page of another number,
//! and no call allocates.
ghost use Rattle.std.specs.Prelude.{◌≡◌, ◌⊎◌, ◌+◌, ◌*◌, ◌<◌, ◌≤◌, ℕ, None, false, is_ok, IfErr, IsTrue, OnErr};
ghost use Rattle.oai_device.specs.Written.{AreInFile, page_under};
ghost use Rattle.oai_device.specs.declared.devices.DeviceFault.TheVariants as fault;

use crate::devices::{DeviceFault, MAX_FAILURES, PAGE_BYTES, Page, PageDevice};
use crate::page_file::{PageFile, read_all, write_page};
use crate::written::Written;

/// A device that stores page n in a file, at byte n times 16,384. It allocates nothing. Each call that fails is
/// counted, also a read that finds fewer bytes than it asked for.
#[derive(Drop)]
pub struct FileDevice<F: PageFile> {
    file: F,
    failed: u64,
    written: Written,
    ghost placed: { IsTrue (F.honest file) → AreInFile (F.bytes file) written.pages },
}

impl<F: PageFile> PageDevice for FileDevice<F> {
    ghost pages = { λ d. page_under d.written.pages };

    ghost failures = { λ d. d.failed };

    ghost honest = { λ d. F.honest d.file };

    ghost reads_take_memory = { false };

    ghost writes_take_memory = { false };

    fn read(&mut self, no: u32, page: &mut Page) -> Result<(), DeviceFault> {
        let done = read_all(&mut self.file, start_of(no), page);
        counted(done, &mut self.failed)
    }

    fn read_range(&mut self, no: u32, from: usize, into: &mut [u8]) -> Result<(), DeviceFault> {
        let done = read_all(&mut self.file, start_of(no) + from as u64, into);
        counted(done, &mut self.failed)
    }

    fn write(&mut self, no: u32, page: &Page) -> Result<(), DeviceFault> {
        let done = write_page(&mut self.file, start_of(no), page);
        self.written.note(&[u64::from(no), u64::from(done)], page);
        counted(done, &mut self.failed)
    }

    fn faults(&self) -> u64 {
        self.failed
    }
}

impl<F: PageFile> FileDevice<F> {
    /// A device over that file, which is open for reading and writing.
    pub fn new(file: F) -> FileDevice<F>
        ensures pages { (n : ℕ) → ⟦<FileDevice<F> as PageDevice>⟧.pages result n ≡ None }
        ensures failures { ⟦<FileDevice<F> as PageDevice>⟧.failures result ≡ 0 }
        ensures honest { ⟦<FileDevice<F> as PageDevice>⟧.honest result ≡ F.honest file }
    {
        FileDevice {
            file,
            failed: 0,
            written: Written::new(),
        }
    }
}

/// The offset in bytes of the page with that number.
fn start_of(no: u32) -> u64
    ensures { result ≡ no * PAGE_BYTES }
{
    u64::from(no) * PAGE_BYTES as u64
}

/// Ok if the call was done; otherwise Failed, which is counted.
fn counted(done: bool, failed: &mut u64) -> Result<(), DeviceFault>
    ensures ok { is_ok result ≡ done }
    ensures fault { IfErr result (λ cause. cause ≡ fault.Failed) }
    ensures counted { OnErr result ((failed.old < failed.new) ⊎ (failed.old ≡ MAX_FAILURES)) }
    ensures count { failed.old ≤ failed.new }
{
    if done {
        return Ok(());
    }
    *failed = failed.saturating_add(1);
    Err(DeviceFault::Failed)
}
