ghost use Rattle.std.specs.Prelude.{◌≡◌};
ghost use Rattle.oai_args.specs.Bounds.{is_none_or_set_spec};
ghost use Rattle.oai_args.specs.Requests as spec;
ghost use Rattle.oai_args.specs.Steps.{result_of};

use crate::arguments::Arguments;
use crate::bounds::{are_not_turned, none_or_bound};
use crate::requests::{ArgFault, Ask};
use crate::roles::Pagination;
use crate::verbs::Verb;
use oai_names::{ListVerb, Text, is_prefix, is_set_spec};
use oai_time::Granularity;

impl Arguments {
    /// Takes the request out of the arguments; the error is why they make none. Allocates nothing.
    #[tactic(auto, unfolding(crate::specs::Requests::request_in, crate::specs::Requests::asked_verb))]
    pub(crate) fn take_request(&mut self, granularity: Granularity) -> Result<Ask, ArgFault>
        ensures { result ≡ result_of (spec.request_in granularity self.old) }
    {
        let Some(verb) = self.verb else {
            return Err(ArgFault::BadVerb);
        };
        if !self.are_values_xml {
            return Err(ArgFault::BadArgument);
        }
        match self.take_ask(granularity, verb) {
            Some(ask) => Ok(ask),
            None => Err(ArgFault::BadArgument),
        }
    }

    /// Takes out the request of that verb; if a resumptionToken is given, for the next part of its list.
    #[tactic(auto, unfolding(crate::specs::Requests::form_of))]
    fn take_ask(&mut self, granularity: Granularity, verb: Verb) -> Option<Ask>
        ensures { result ≡ spec.form_of granularity verb self.old }
    {
        if self.token.is_never() {
            if self.suit(Pagination::First, verb) {
                self.take_first(granularity, verb)
            } else {
                None
            }
        } else if self.suit(Pagination::Next, verb) {
            self.take_next(verb)
        } else {
            None
        }
    }

    /// Takes out the first request of arguments that suit the verb.
    #[tactic(auto, unfolding(crate::specs::Requests::first_of))]
    fn take_first(&mut self, granularity: Granularity, verb: Verb) -> Option<Ask>
        ensures { result ≡ spec.first_of granularity verb self.old }
    {
        match verb {
            Verb::Identify => Some(Ask::Identify),
            Verb::ListMetadataFormats => Some(Ask::Formats {
                identifier: self.identifier.take(),
            }),
            Verb::ListSets => Some(Ask::Sets),
            Verb::GetRecord => self.take_item(),
            Verb::ListIdentifiers => self.take_list(granularity, ListVerb::Identifiers),
            Verb::ListRecords => self.take_list(granularity, ListVerb::Records),
        }
    }

    /// Takes out GetRecord, if the prefix has the syntax of one.
    #[tactic(auto, unfolding(crate::specs::Requests::get_record_of))]
    fn take_item(&mut self) -> Option<Ask>
        ensures { result ≡ spec.get_record_of self.old }
    {
        let identifier = self.identifier.take()?;
        let prefix = self.prefix.take()?;
        if is_prefix(prefix.as_str()) {
            Some(Ask::Get { identifier, prefix })
        } else {
            None
        }
    }

    /// Takes out a first ListIdentifiers or ListRecords, if its arguments have valid syntax.
    #[tactic(auto, unfolding(crate::specs::Requests::first_list_of, crate::specs::Bounds::are_bounds))]
    fn take_list(&mut self, granularity: Granularity, verb: ListVerb) -> Option<Ask>
        ensures { result ≡ spec.first_list_of granularity verb self.old }
    {
        let prefix = self.prefix.take()?;
        let from = none_or_bound(granularity, self.from.take())?;
        let until = none_or_bound(granularity, self.until.take())?;
        let set = self.set.take();
        if is_prefix(prefix.as_str())
            && is_none_or_set_spec(&set)
            && are_not_turned(&from, &until)
        {
            Some(Ask::List {
                verb,
                prefix,
                from,
                until,
                set,
            })
        } else {
            None
        }
    }

    /// Takes out the request for the next part of a list.
    #[tactic(auto, unfolding(crate::specs::Requests::next_of))]
    fn take_next(&mut self, verb: Verb) -> Option<Ask>
        ensures { result ≡ spec.next_of verb self.old }
    {
        let verb = verb.list()?;
        let token = self.token.take()?;
        Some(Ask::Resume { verb, token })
    }
}

/// Whether the argument `set` is absent, or has the syntax of a setSpec.
fn is_none_or_set_spec(set: &Option<Text>) -> bool
    ensures { result ≡ is_none_or_set_spec set.now }
{
    match set {
        Some(set) => is_set_spec(set.as_str()),
        None => true,
    }
}
