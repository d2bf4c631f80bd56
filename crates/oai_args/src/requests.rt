ghost use Rattle.std.specs.Prelude.{◌≡◌, true, IfOk};
ghost use Rattle.oai_args.specs.Pairs.{decoded_pairs};
ghost use Rattle.oai_args.specs.Requests.{GivesTheAnswer, IsReadFrom, is_by_record_verb};

use crate::arguments::Arguments;
use crate::bounds::BoundText;
use oai_names::{ListVerb, Text};
use oai_time::Granularity;
use std::alloc::Global;
use thiserror::Error;

/// A request (OAI-PMH 2.0, section 4). Its texts are decoded, and otherwise unchanged.
#[derive(Debug, Drop)]
pub enum Ask {
    /// Identify (section 4.2).
    Identify,
    /// ListMetadataFormats (section 4.4).
    Formats {
        /// The argument `identifier`, which is any text.
        identifier: Option<Text>,
    },
    /// ListSets (section 4.6), from the first set on.
    Sets,
    /// GetRecord (section 4.1).
    Get {
        /// The argument `identifier`, which is any text.
        identifier: Text,
        /// The argument `metadataPrefix`, with the syntax of a prefix and any length.
        prefix: Text,
    },
    /// ListIdentifiers or ListRecords (sections 4.3 and 4.5), from the first record on.
    List {
        /// `Identifiers` or `Records`.
        verb: ListVerb,
        /// The argument `metadataPrefix`, with the syntax of a prefix and any length.
        prefix: Text,
        /// The argument `from`, not finer than the repository's granularity.
        from: Option<BoundText>,
        /// The argument `until`, as `from`; if both are given, with the same granularity and not before it.
        until: Option<BoundText>,
        /// The argument `set`, with the syntax of a setSpec and any length.
        set: Option<Text>,
    },
    /// ListIdentifiers, ListRecords or ListSets, continued (section 3.5).
    Resume {
        /// The verb.
        verb: ListVerb,
        /// The argument `resumptionToken`, which is any text.
        token: Text,
    },
}

/// Why arguments make no request (OAI-PMH 2.0, section 3.6).
#[derive(Clone, Copy, Debug, PartialEq, Eq, Error)]
pub enum ArgFault {
    /// `verb` is missing, given more than once, or none of the six verbs, whatever else is given.
    #[error("the verb is missing, repeated or illegal")]
    BadVerb,
    /// An argument is not the verb's, is repeated or missing, or has illegal syntax.
    #[error("an argument is illegal, repeated, missing or of illegal syntax")]
    BadArgument,
    /// Out of memory; the meaning of the arguments was not looked at.
    #[error("out of memory")]
    NoMemory,
}

/// Reads the arguments of a request from the bytes of a query, in the type `application/x-www-form-urlencoded` (OAI-PMH
/// 2.0, section 3.1.1), for a repository with that granularity. The errors: `NoMemory` while the arguments are stored,
/// before their meaning is looked at, and never for an empty query; then `BadVerb` before `BadArgument`. A returned
/// `List` is by `Identifiers` or `Records`.
pub fn read_request(alloc: Global, query: &[u8], granularity: Granularity) -> Result<Ask, ArgFault>
    ensures read { IsReadFrom granularity (decoded_pairs query.now) result }
    ensures lists { IfOk result (λ ask. is_by_record_verb ask ≡ true) }
{
    let mut arguments = Arguments::new();
    match arguments.add_all(alloc, query) {
        Ok(()) => arguments.take_request(granularity),
        Err(_) => Err(ArgFault::NoMemory),
    }
}

/// The law of requests, for every granularity and every list of arguments: reading them gives a request exactly if they
/// have its form, `BadVerb` exactly if `verb` is not given once with the name of a verb, and `BadArgument` exactly in
/// all other cases. A theorem, proved by an empty function.
#[tactic(auto, using(crate::proofs::RequestLemmas::gives_the_answer))]
pub fn request_law()
    ensures { GivesTheAnswer }
{}
