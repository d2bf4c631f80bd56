//! The answers to requests of OAI-PMH, as XML documents.
ghost use Rattle.std.specs.Prelude.{◌≡◌, List, true};
ghost use Rattle.std.specs.List.{AllByRecursion};
ghost use Rattle.oai_documents.specs.Answering.{have_namespaces};
ghost use Rattle.oai_documents.specs.WellFormed.{may_be_default};
ghost use Rattle.oai_repo.specs.State.{RepoState, empty_state};
ghost use Rattle.oai_config.specs.Configs.{NamedConfig};
ghost use Rattle.oai_http.specs.declared.exchanges.Answer.{Answer};
ghost use Rattle.oai_http.specs.declared.exchanges.Call.{Call};
ghost use Rattle.oai_host.specs.Alone.{own_answers, own_calls};
ghost use Rattle.oai_headline.specs.Eras.{AreTrueOver, HaveNumbersIn, VisitedEra};
ghost use Rattle.oai_startup.specs.Rules.{HasRules};
ghost use Rattle.oai_headline.specs.Throughout.{AreTrueFrom, own_given};
ghost use Rattle.oai_headline.specs.XmlAnswers.{AreAnsweredInXml, HasLegalTexts, IsAnsweredInXml};

/// What is answered with status 200 to a request of OAI-PMH is a well-formed XML document (XML 1.0, fifth edition;
/// Namespaces in XML 1.0, third edition), whatever bytes were deposited and requested before, and whatever failed. It is
/// UTF-8 of XML's characters; an XML parser reads its tree; and this has the elements that the schema of OAI-PMH asks
/// for, in its order, as often as it allows, and with its attributes. So it is at a repository whose answers are true
/// ([`throughout_law`](crate::throughout_law)), and over eras, between which a checkpoint ends all open lists (`over`).
///
/// The texts of the configuration are UTF-8 of such characters, as those of each accepted one are
/// ([`texts_law`](crate::texts_law)). No format of the repository, and no element that describes it or a set, has one
/// of the two namespaces that Namespaces in XML reserves. For the schema, each of these has a namespace, which is not
/// that of OAI-PMH, and so has each element about a record (`HasAboutIn`). For the tree, each element that was
/// deposited or configured has at most 124 levels, with at most 126 declarations of namespaces in force
/// (`HasFittingElements`). The function is empty.
pub fn documents_law()
    ensures answered { (calls : List Call) (answers : List Answer) (entry : NamedConfig) (left : RepoState)
        → HasRules entry → HasLegalTexts entry → have_namespaces may_be_default entry.config ≡ true
        → AreTrueFrom entry.config (empty_state entry.config) (own_calls entry.name calls)
        (own_answers entry.name calls answers) left
        → AllByRecursion (IsAnsweredInXml entry.config) (own_given entry calls answers) }
    ensures over { (eras : List VisitedEra) (entry : NamedConfig) (left : RepoState) → HasRules entry
        → HasLegalTexts entry → have_namespaces may_be_default entry.config ≡ true
        → AreTrueOver entry.config eras left → HaveNumbersIn entry.config (empty_state entry.config) eras
        → AreAnsweredInXml entry.config (empty_state entry.config) eras }
{}
