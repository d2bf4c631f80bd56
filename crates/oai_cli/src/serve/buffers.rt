//! The output of a connection, gathered before it is written.
ghost use Rattle.std.specs.Prelude.{◌≡◌, ◌+◌, ◌++◌, ◌<◌, ◌≤◌, [], length, vec_capacity, vec_len, IfOk, OnOk};
ghost use Rattle.std.specs.Io.KnownBytes.{append_known, Appends, Keeps};
ghost use Rattle.oai_cli.specs.Outputs as spec;
ghost use Rattle.oai_cli.specs.declared.serve.buffers.TheConstants.{SHORT_BYTES};

use crate::connections::next_output;
use oai_front::{ConnId, Front};
use oai_http::Handler;
use std::alloc::{AllocError, Global};
use std::io::{self, Write};

/// Output that is shorter than this is gathered before it is written.
const SHORT_BYTES: usize = 4_096;

/// A buffer of output that is written together.
#[derive(Drop)]
pub(crate) struct OutputBuffer {
    bytes: Vec<u8>,
    ghost room: { SHORT_BYTES ≤ vec_capacity bytes },
}

impl OutputBuffer {
    /// An empty buffer, with capacity for short output.
    pub(crate) fn new(alloc: Global) -> Result<OutputBuffer, AllocError> {
        Ok(OutputBuffer {
            bytes: Vec::with_capacity(alloc, SHORT_BYTES)?,
        })
    }

    /// Gathers short bytes; writes longer ones directly, after what was gathered.
    fn put<W: Write>(&mut self, bytes: &[u8], writer: &mut W) -> io::Result<()>
        ensures { OnOk result (Appends
            (append_known (W.Write.contents writer.old) self.old.bytes.items)
            (append_known (W.Write.contents writer.new) self.new.bytes.items) bytes.now) }
    {
        if bytes.len() >= SHORT_BYTES {
            self.write(writer)?;
            return writer.write_all(bytes);
        }
        self.make_room(bytes.len(), writer)?;
        add(bytes, &mut self.bytes);
        Ok(())
    }

    /// Writes what was gathered, unless there is capacity for that many bytes more.
    fn make_room<W: Write>(&mut self, count: usize, writer: &mut W) -> io::Result<()>
        requires { count < SHORT_BYTES }
        ensures room { OnOk result (vec_len self.new.bytes + count ≤ SHORT_BYTES) }
        ensures kept { OnOk result (Keeps
            (append_known (W.Write.contents writer.old) self.old.bytes.items)
            (append_known (W.Write.contents writer.new) self.new.bytes.items)) }
    {
        if self.bytes.len() > SHORT_BYTES - count {
            return self.write(writer);
        }
        Ok(())
    }

    /// Writes what was gathered.
    fn write<W: Write>(&mut self, writer: &mut W) -> io::Result<()>
        ensures written { OnOk result (Appends (W.Write.contents writer.old)
            (W.Write.contents writer.new) self.old.bytes.items) }
        ensures none { OnOk result (self.new.bytes.items ≡ []) }
        ensures len { OnOk result (vec_len self.new.bytes ≡ 0) }
    {
        writer.write_all(&self.bytes)?;
        self.bytes.clear();
        Ok(())
    }
}

/// Appends bytes to others, which have the capacity.
fn add(bytes: &[u8], others: &mut Vec<u8>)
    requires { vec_len others.old + length bytes.now ≤ vec_capacity others.old }
    ensures items { others.new.items ≡ others.old.items ++ bytes.now }
    ensures room { vec_capacity others.old ≤ vec_capacity others.new }
{
    others.extend_from_slice(bytes).unwrap();
}

/// Writes the whole output of the connection. Output below 4,096 bytes is gathered first, and longer output is written
/// directly.
pub(crate) fn flush_output<H: Handler, W: Write>(
    front: &mut Front<H>,
    conn: ConnId,
    gathered: &mut OutputBuffer,
    writer: &mut W,
) -> io::Result<()>
    ensures written { OnOk result (Appends (W.Write.contents writer.old)
        (W.Write.contents writer.new)
        (gathered.old.bytes.items ++ spec.output_of conn.number front.old.connections)) }
    ensures none { OnOk result (gathered.new.bytes.items ≡ []) }
    ensures emptied { OnOk result (spec.IsEmptied conn.number front.old front.new) }
    ensures apart { spec.StaysApart conn.number front.old front.new }
    ensures handler { front.new.handler ≡ front.old.handler }
    ensures used { spec.IsUsed H.step front.old front.new }
{
    while let Some(count) = put_next(front, conn, gathered, writer)? {
        front.taken(conn, count);
    }
    gathered.write(writer)
}

/// Appends the next output of the connection to the others; returns how many bytes, None if there are none.
fn put_next<H, W: Write>(
    front: &Front<H>,
    conn: ConnId,
    gathered: &mut OutputBuffer,
    writer: &mut W,
) -> io::Result<Option<usize>>
    ensures { IfOk result (λ next. spec.IsNextOutput conn.number front.now.connections next (Appends
        (append_known (W.Write.contents writer.old) gathered.old.bytes.items)
        (append_known (W.Write.contents writer.new) gathered.new.bytes.items))) }
{
    let next = next_output(front, conn);
    if next.is_empty() {
        return Ok(None);
    }
    gathered.put(next, writer)?;
    Ok(Some(next.len()))
}
