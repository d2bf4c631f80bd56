//! Theorems on the definitions: empty functions.
ghost use Rattle.std.specs.Prelude.{◌≡◌, ◌≢◌, ◌^◌, ◌<◌, ℕ, ℤ, List, [], Some, decimal, FitsSigned};
ghost use Rattle.std.specs.Fmt.{signed_decimal};
ghost use Rattle.std.specs.Int.{w64};
ghost use Rattle.hex.specs.Hex.{IsBytes};
ghost use Rattle.oai_http.specs.declared.exchanges.Call.{Call};
ghost use Rattle.oai_cli.specs.EventLines.{IsTraceable, IsWritableEvent, event_line, parse_event};
ghost use Rattle.oai_cli.specs.ExchangeLines.{IsSpellable, call_line, parse_exchange};
ghost use Rattle.oai_bytes.specs.Numbers.{moment_of, number_in};
ghost use Rattle.oai_cli.specs.declared.trace.events.Event.{Event};

use crate::trace::MAX_CONNECTIONS;
use oai_startup::{MAX_READS, READ_BYTES};

/// What is written of a moment, a number, a call and an event is parsed as that again, and what a trace writes of a
/// connection can be the input of a trace. A theorem, proved by an empty function.
pub fn line_law()
    ensures moments { (moment : ℤ) → FitsSigned w64 moment
        → moment_of (signed_decimal moment) ≡ Some moment }
    ensures numbers { (number : ℕ) → number < 2 ^ 64 → number_in (decimal number) ≡ Some number }
    ensures calls { (call : Call) → IsSpellable call → parse_exchange (call_line call) ≡ Some call }
    ensures events { (event : Event) → IsWritableEvent event → parse_event (event_line event) ≡ Some event }
    ensures outputs { (moment : ℤ) (label : ℕ) (bytes : List ℕ) → FitsSigned w64 moment
        → label < 2 ^ 64 → IsBytes bytes → bytes ≢ [] → IsTraceable moment label bytes }
{}

/// The limits in numbers, which no other clause has. A theorem, proved by an empty function.
pub fn limit_law()
    ensures reads { MAX_READS ≡ 1_000_000 }
    ensures bytes { READ_BYTES ≡ 65_536 }
    ensures connections { MAX_CONNECTIONS ≡ 1_024 }
{}
