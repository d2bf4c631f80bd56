//! A file in memory that gives back what was written to it, as its contract says: so a device over it is an honest one.
ghost use Rattle.std.specs.Prelude.{◌≡◌, ◌≤◌, ℕ, None, nat_eq, true, IfOk, IfSome, IsTrue, length, take};
ghost use Rattle.std.specs.HashMap.{get};
ghost use Rattle.oai_device.specs.PageFile.{Bytes, WereRead};

use oai_device::{FileDevice, PAGE_BYTES, Page, PageDevice, PageFile};
use std::alloc::Global;
use std::collections::HashMap;
use std::io;
use std::io::ErrorKind;

/// A file in memory, of which each call reads or writes one byte, at any offset. Where one byte is lost, a
/// read of it finds the end of the file.
#[derive(Drop)]
pub struct ByteFile {
    bytes: HashMap<u64, u8>,
    lost: Option<u64>,
}

impl PageFile for ByteFile {
    ghost bytes = { λ f offset. get nat_eq f.bytes offset };

    ghost honest = { λ _. true };

    fn read_some(&mut self, offset: u64, into: &mut [u8]) -> io::Result<usize> {
        if into.is_empty() || self.lost == Some(offset) {
            return Ok(0);
        }
        match self.bytes.get(&offset) {
            Some(byte) => {
                into[0] = *byte;
                Ok(1)
            }
            None => Ok(0),
        }
    }

    fn write_some(&mut self, offset: u64, from: &[u8]) -> io::Result<usize> {
        if from.is_empty() {
            return Ok(0);
        }
        match self.bytes.insert(offset, from[0]) {
            Ok(_) => Ok(1),
            Err(_) => Err(ErrorKind::OutOfMemory.into()),
        }
    }
}

impl ByteFile {
    /// An empty file, of which the byte at `lost` will not be read.
    pub fn new(alloc: Global, lost: Option<u64>) -> ByteFile
        ensures { (offset : ℕ) → ⟦<ByteFile as PageFile>⟧.bytes result offset ≡ None }
    {
        ByteFile {
            bytes: HashMap::new(alloc),
            lost,
        }
    }
}

/// A device over a file in memory. It is honest, and nothing is supposed of it.
pub fn device_in_memory(alloc: Global) -> FileDevice<ByteFile>
    ensures pages { (n : ℕ) → ⟦<FileDevice<ByteFile> as PageDevice>⟧.pages result n ≡ None }
    ensures honest { IsTrue (⟦<FileDevice<ByteFile> as PageDevice>⟧.honest result) }
{
    FileDevice::new(ByteFile::new(alloc, None))
}

/// Writes a page to a device over a file in memory, and reads it again: what was read is what was written.
pub fn read_back(alloc: Global, no: u32, page: &Page) -> Option<Page>
    ensures { IfSome result (λ found. found ≡ page.now) }
{
    let mut device = device_in_memory(alloc);
    let Ok(()) = device.write(no, page) else {
        return None;
    };
    let mut found = [0; PAGE_BYTES];
    match device.read(no, &mut found) {
        Ok(()) => Some(found),
        Err(_) => None,
    }
}
