ghost use Rattle.std.specs.Prelude.{◌≡◌, ◌≢◌, true, ◌∷◌, [], IfOk, OnErr};
ghost use Rattle.oai_args.specs.Arguments.{arguments_in};
ghost use Rattle.oai_args.specs.Pairs.{decoded_pair, decoded_pairs, decoded_text};
ghost use Rattle.oai_args.specs.Requests.{suit};
ghost use Rattle.oai_args.specs.Steps.{arguments_with, verb_with};

use crate::decodings::unescaped_text;
use crate::occurrences::Occurrence;
use crate::roles::{Key, Pagination};
use crate::verbs::Verb;
use form_urlencoded::decode;
use oai_names::is_xml_text;
use std::alloc::{AllocError, Global};

/// The arguments of a request: how often each key of any verb is given, and its value.
#[derive(Drop)]
pub(crate) struct Arguments {
    /// The requested verb, if `verb` is given once and names one.
    pub(crate) verb: Option<Verb>,
    /// Whether `verb` is given.
    pub(crate) is_verb_given: bool,
    pub(crate) identifier: Occurrence,
    pub(crate) prefix: Occurrence,
    pub(crate) from: Occurrence,
    pub(crate) until: Occurrence,
    pub(crate) set: Occurrence,
    pub(crate) token: Occurrence,
    pub(crate) are_keys_known: bool,
    pub(crate) are_values_xml: bool,
}

impl Arguments {
    /// The arguments of no pairs.
    #[tactic(auto, unfolding(crate::specs::Arguments::arguments_in, crate::specs::Arguments::given, crate::specs::Pairs::values_of, crate::specs::Pairs::has_only_keys, crate::specs::Pairs::has_xml_values))]
    pub(crate) fn new() -> Arguments
        ensures { result ≡ arguments_in [] }
    {
        Arguments {
            verb: None,
            is_verb_given: false,
            identifier: Occurrence::Never,
            prefix: Occurrence::Never,
            from: Occurrence::Never,
            until: Occurrence::Never,
            set: Occurrence::Never,
            token: Occurrence::Never,
            are_keys_known: true,
            are_values_xml: true,
        }
    }

    /// Adds the pairs of a query to arguments that have none, by one pass over them.
    #[tactic(auto, unfolding(crate::specs::Pairs::decoded_pairs))]
    pub(crate) fn add_all(&mut self, alloc: Global, query: &[u8]) -> Result<(), AllocError>
        requires { self.old ≡ arguments_in [] }
        ensures read { IfOk result (λ _. self.new ≡ arguments_in (decoded_pairs query.now)) }
        ensures memory { OnErr result (decoded_pairs query.now ≢ []) }
    {
        for (name, value) in form_urlencoded::raw_pairs(query) {
            self.add_encoded(alloc, name, value)?;
        }
        Ok(())
    }

    /// Adds one more pair, whose name and value are encoded.
    fn add_encoded(&mut self, alloc: Global, name: &[u8], value: &[u8]) -> Result<(), AllocError>
        ensures { IfOk result
            (λ _. self.new ≡ arguments_with self.old (decoded_pair (name.now, value.now) ∷ [])) }
    {
        match unescaped_text(name) {
            Some(key) => self.add_value(alloc, key, value),
            None => {
                let key = decode(alloc, name)?;
                self.add_value(alloc, key.as_str(), value)
            }
        }
    }

    /// Adds one more value of a key, which is encoded.
    #[tactic(auto, unfolding(crate::specs::Steps::arguments_with, crate::specs::Pairs::has_xml_values))]
    fn add_value(&mut self, alloc: Global, key: &str, value: &[u8]) -> Result<(), AllocError>
        ensures { IfOk result
            (λ _. self.new ≡ arguments_with self.old ((key.now, decoded_text value.now) ∷ [])) }
    {
        match unescaped_text(value) {
            Some(text) => self.add(alloc, key, text),
            None => {
                let text = decode(alloc, value)?;
                self.are_values_xml = self.are_values_xml && is_xml_text(text.as_str());
                self.add(alloc, key, text.as_str())
            }
        }
    }

    /// Adds one more pair, but for what `are_values_xml` says.
    #[tactic(auto, unfolding(crate::specs::Steps::arguments_with, crate::specs::Steps::given_with, crate::specs::Steps::verb_with, crate::specs::Steps::is_verb_given_with, crate::specs::Pairs::values_of, crate::specs::Pairs::has_only_keys, crate::specs::Pairs::has_xml_values))]
    fn add(&mut self, alloc: Global, key: &str, value: &str) -> Result<(), AllocError>
        ensures { IfOk result
            (λ _. self.new ≡ record (arguments_with self.old ((key.now, value.now) ∷ []))
            { are_values_xml = self.old.are_values_xml }) }
    {
        match key {
            "verb" => {
                self.add_verb(value);
                Ok(())
            }
            "identifier" => self.identifier.add(alloc, value),
            "metadataPrefix" => self.prefix.add(alloc, value),
            "from" => self.from.add(alloc, value),
            "until" => self.until.add(alloc, value),
            "set" => self.set.add(alloc, value),
            "resumptionToken" => self.token.add(alloc, value),
            _ => {
                self.are_keys_known = false;
                Ok(())
            }
        }
    }

    /// Adds one more value of `verb`.
    #[tactic(auto, unfolding(crate::specs::Steps::verb_with, crate::specs::Steps::is_verb_given_with))]
    fn add_verb(&mut self, name: &str)
        ensures { self.new ≡ record self.old {
          verb = verb_with self.old.is_verb_given self.old.verb (name.now ∷ []);
          is_verb_given = true;
        } }
    {
        self.verb = if self.is_verb_given {
            None
        } else {
            Verb::named(name)
        };
        self.is_verb_given = true;
    }

    /// Whether every key is known, and each argument is given as often as its role requires.
    #[tactic(auto, unfolding(crate::specs::Requests::suit))]
    pub(crate) fn suit(&self, part: Pagination, verb: Verb) -> bool
        ensures { result ≡ suit part verb self.now }
    {
        self.are_keys_known
            && part.suits(verb.role_of(Key::Identifier), &self.identifier)
            && part.suits(verb.role_of(Key::MetadataPrefix), &self.prefix)
            && part.suits(verb.role_of(Key::From), &self.from)
            && part.suits(verb.role_of(Key::Until), &self.until)
            && part.suits(verb.role_of(Key::Set), &self.set)
            && part.suits(verb.role_of(Key::ResumptionToken), &self.token)
    }
}
