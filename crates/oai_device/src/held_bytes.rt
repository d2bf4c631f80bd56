//! Bytes in memory: own ones, or some of a page that others hold too.
ghost use Rattle.std.specs.Prelude.{◌≡◌, ◌+◌, ◌≤◌, length, take, drop, IfOk};
ghost use Rattle.oai_device.specs.declared.devices.TheConstants.{PAGE_BYTES};

use crate::devices::Page;
use std::alloc::{AllocError, Global};
use std::marker::Model;
use std::rc::Rc;

/// Where the bytes are.
#[derive(Debug, Drop)]
enum Held {
    /// In memory of their own.
    Own(Vec<u8>),
    /// On a page: from that byte on, and so many.
    OnPage(Rc<Page>, usize, usize),
}

/// Bytes that are not copied if they are on a page in memory, which is shared.
#[derive(Debug, Drop)]
pub struct HeldBytes {
    held: Held,
}

impl Model for HeldBytes {
    ghost use Rattle.std.specs.Prelude.{ℕ, List};
    ghost use Rattle.oai_device.specs.HeldBytes.{AreHeldOnPage, bytes_held};

    ghost Value = { List ℕ };

    ghost view = { λ b. bytes_held b.held };

    ghost invariant = { λ b. AreHeldOnPage b.held };
}

impl HeldBytes {
    /// These bytes.
    pub fn own(bytes: Vec<u8>) -> HeldBytes
        ensures { result ≡ bytes.items }
    {
        HeldBytes {
            held: Held::Own(bytes),
        }
    }

    /// `size` bytes of the page from byte `from` on, counted from 0. The page stays in memory with them.
    pub fn on_page(page: Rc<Page>, from: usize, size: usize) -> HeldBytes
        requires { from + size ≤ PAGE_BYTES }
        ensures { result ≡ take size (drop from page.value) }
    {
        HeldBytes {
            held: Held::OnPage(page, from, size),
        }
    }

    /// A copy of the bytes, in memory of its own. The error is out of memory.
    pub fn copied(alloc: Global, bytes: &[u8]) -> Result<HeldBytes, AllocError>
        ensures { IfOk result (λ copy. copy ≡ bytes.now) }
    {
        let mut copy = Vec::with_capacity(alloc, bytes.len())?;
        copy.extend_from_slice(bytes)?;
        Ok(HeldBytes::own(copy))
    }

    /// `size` of the bytes from the byte `from` on, counted from 0: those of a page are shared, own ones are copied. The
    /// error is out of memory, or that a page cannot be shared once more.
    pub fn part(&self, alloc: Global, from: usize, size: usize) -> Result<HeldBytes, AllocError>
        requires { from + size ≤ length self.now }
        ensures { IfOk result (λ part. part ≡ take size (drop from self.now)) }
    {
        match &self.held {
            Held::Own(bytes) => HeldBytes::copied(alloc, &bytes[from..from + size]),
            Held::OnPage(page, first, _) => Ok(HeldBytes::on_page(
                page.clone()?,
                *first + from,
                size,
            )),
        }
    }

    /// The bytes.
    pub fn as_slice(&self) -> &[u8]
        ensures value { result.now ≡ self.now }
    {
        match &self.held {
            Held::Own(bytes) => bytes.as_slice(),
            Held::OnPage(page, from, size) => &page[*from..*from + *size],
        }
    }

    /// How many bytes there are.
    pub fn len(&self) -> usize
        ensures { result ≡ length self.now }
    {
        self.as_slice().len()
    }
}
