ghost use Rattle.std.specs.Prelude.{◌≡◌};
ghost use Rattle.oai_args.specs.Requests.{list_of_verb};
ghost use Rattle.oai_args.specs.Verbs.{verb_named};

use oai_names::ListVerb;

/// The verbs of the protocol (OAI-PMH 2.0, section 4).
#[derive(Clone, Copy)]
pub(crate) enum Verb {
    Identify,
    ListMetadataFormats,
    ListSets,
    GetRecord,
    ListIdentifiers,
    ListRecords,
}

impl Verb {
    /// The verb with that name, case included.
    pub(crate) fn named(name: &str) -> Option<Verb>
        ensures { result ≡ verb_named name.now }
    {
        match name {
            "Identify" => Some(Verb::Identify),
            "ListMetadataFormats" => Some(Verb::ListMetadataFormats),
            "ListSets" => Some(Verb::ListSets),
            "GetRecord" => Some(Verb::GetRecord),
            "ListIdentifiers" => Some(Verb::ListIdentifiers),
            "ListRecords" => Some(Verb::ListRecords),
            _ => None,
        }
    }

    /// The lists that have parts, if the verb answers such lists.
    pub(crate) fn list(self) -> Option<ListVerb>
        ensures { result ≡ list_of_verb self }
    {
        match self {
            Verb::ListSets => Some(ListVerb::Sets),
            Verb::ListIdentifiers => Some(ListVerb::Identifiers),
            Verb::ListRecords => Some(ListVerb::Records),
            Verb::Identify => None,
            Verb::ListMetadataFormats => None,
            Verb::GetRecord => None,
        }
    }
}
