//! What traces and served streams do with one connection of a front.
ghost use Rattle.std.specs.Prelude.{◌≡◌, ◌<◌, length, None};
ghost use Rattle.oai_front.specs.Connections.{IsFrontOf};
ghost use Rattle.oai_front.specs.Fronts.{HasOutput, IsPiece, connection_numbered};
ghost use Rattle.oai_cli.specs.Outputs.{IsUsed, StaysApart, output_of};

use oai_front::{ConnId, Front, PieceFault};
use oai_http::Handler;

/// Passes the piece to the connection, and performs what it completes.
pub(crate) fn take_in<H: Handler>(
    front: &mut Front<H>,
    conn: ConnId,
    moment: i64,
    piece: &[u8],
) -> Result<(), PieceFault>
    ensures piece { IsPiece H.step conn.number moment piece.now front.old result front.new }
    ensures apart { StaysApart conn.number front.old front.new }
    ensures used { IsUsed H.step front.old front.new }
{
    front.piece(conn, moment, piece)
}

/// Drops the connection.
pub(crate) fn forget_connection<H: Handler>(front: &mut Front<H>, conn: ConnId)
    ensures none { connection_numbered conn.number front.new.connections ≡ None }
    ensures apart { StaysApart conn.number front.old front.new }
    ensures handler { front.new.handler ≡ front.old.handler }
    ensures used { IsUsed H.step front.old front.new }
{
    let _ = front.forget(conn);
}

/// The bytes that the connection writes next; none if there are none, or it is not open.
pub(crate) fn next_output<H>(front: &Front<H>, conn: ConnId) -> &[u8]
    ensures front { IsFrontOf result.now (output_of conn.number front.now.connections) }
    ensures has { 0 < length result.now → HasOutput conn.number (length result.now)
        front.now.connections }
{
    match front.output(conn) {
        Some(bytes) => bytes,
        None => &[],
    }
}
