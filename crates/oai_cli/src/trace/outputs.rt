//! The whole output of a connection, at once.
ghost use Rattle.std.specs.Prelude.{◌≡◌, ◌++◌, IfOk, IfErr, OnOk};
ghost use Rattle.oai_cli.specs.Outputs as spec;
ghost use Rattle.oai_startup.specs.declared.stop.Stop.TheVariants.{NoMemory};

use crate::connections::next_output;
use oai_front::{ConnId, Front};
use oai_http::Handler;
use oai_startup::Stop;
use std::alloc::Global;

/// Takes the whole output of the connection. The error is `NoMemory`.
pub(crate) fn take_output<H: Handler>(
    alloc: Global,
    front: &mut Front<H>,
    conn: ConnId,
) -> Result<Vec<u8>, Stop>
    ensures bytes { IfOk result (λ bytes. bytes.items ≡ spec.output_of conn.number
        front.old.connections) }
    ensures emptied { OnOk result (spec.IsEmptied conn.number front.old front.new) }
    ensures apart { spec.StaysApart conn.number front.old front.new }
    ensures handler { front.new.handler ≡ front.old.handler }
    ensures used { spec.IsUsed H.step front.old front.new }
    ensures err { IfErr result (λ stop. stop ≡ NoMemory) }
{
    let mut bytes = Vec::new(alloc);
    while let Some(count) = add_next(front, conn, &mut bytes)? {
        front.taken(conn, count);
    }
    Ok(bytes)
}

/// Appends the next output of the connection; returns how many bytes, None if there are none.
fn add_next<H>(front: &Front<H>, conn: ConnId, bytes: &mut Vec<u8>) -> Result<Option<usize>, Stop>
    ensures next { IfOk result (λ next. spec.IsNextOutput conn.number front.now.connections next
        (λ front. bytes.new.items ≡ bytes.old.items ++ front)) }
    ensures err { IfErr result (λ stop. stop ≡ NoMemory) }
{
    let next = next_output(front, conn);
    if next.is_empty() {
        return Ok(None);
    }
    if bytes.extend_from_slice(next).is_err() {
        return Err(Stop::NoMemory);
    }
    Ok(Some(next.len()))
}
