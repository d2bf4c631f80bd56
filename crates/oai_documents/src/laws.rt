ghost use Rattle.std.specs.Prelude.{◌≡◌, ◌++◌, ℕ, List, true, Some};
ghost use Rattle.oai_answers.specs.Answers.{Document};
ghost use Rattle.oai_answers.specs.Documents.{document};
ghost use Rattle.oai_answers.specs.Seen.{IsRegular};
ghost use Rattle.oai_xml.specs.Documents.{tree_in};
ghost use Rattle.oai_xml.specs.LegalTexts.{is_legal_text, is_legal_tree};
ghost use Rattle.oai_xml.specs.Trees.{spelled};
ghost use Rattle.oai_xml.specs.Whole.{is_whole};
ghost use Rattle.oai_item.specs.declared.forms.Forms.{Forms};
ghost use Rattle.oai_time.specs.declared.granularity.Granularity.{Granularity};
ghost use Rattle.oai_deposit.specs.Lines.{line_of};
ghost use Rattle.oai_settings.specs.Config.{IsConfig, RepositoryConfig};
ghost use Rattle.oai_repo.specs.Machine.{command_of, line, query};
ghost use Rattle.oai_laws.specs.Shown.{IsSomeAnswer};
ghost use Rattle.oai_documents.specs.Answering.{have_namespaces};
ghost use Rattle.oai_documents.specs.DocumentTrees.{document_tree, line_end, xml_declaration};
ghost use Rattle.oai_documents.specs.Schema.{IsOfSchema};
ghost use Rattle.oai_documents.specs.Texts.{are_legal_commands, is_legal_command, is_legal_config};
ghost use Rattle.oai_documents.specs.WellFormed.{HasAboutIn, HasNamespace, HasFittingElements, IsFilled, is_foreign, may_be_default};

/// Each document is the XML declaration, a line end, the spelling of its tree, and a line end, whatever stands in it. The
/// premises: formats satisfy the rules of formats; the fields of each record are those of its format, or keep an element
/// of it; and what is about a record, or describes a repository or a set, is an element in canonical text. A theorem,
/// proved by an empty function.
pub fn spelled_law()
    ensures { (d : Document) → IsRegular d.answer
        → document d ≡ xml_declaration ++ (spelled (document_tree d) ++ line_end) }
{}

/// The tree of a document is whole (XML 1.0, fifth edition; Namespaces in XML 1.0, third edition): names are QNames,
/// each prefix is declared, no attribute stands twice, declarations are legal. The premises: formats satisfy the rules
/// of formats; the fields of each record are those of its format, or keep an element of it; what is about a record, or
/// describes a repository or a set, is an element in canonical text; elements have at most 124 levels and at most 126
/// declarations in force (`HasFittingElements`); and neither the format's namespace nor that of an element that describes a
/// repository or a set is one of the two that Namespaces in XML reserves. A theorem, proved by an empty function.
pub fn well_formed_law()
    ensures { (d : Document) → IsRegular d.answer → HasNamespace may_be_default d.answer
        → HasFittingElements d.answer → is_whole (document_tree d) ≡ true }
{}

/// The tree of a document has the elements that the schema of OAI-PMH asks for, in its order, as often as it allows,
/// and with its attributes (`OAI-PMH.xsd`). The premises: formats satisfy the rules of formats, and the fields of each
/// record are those of its format or keep an element of it; no list of the answer is empty; and the format of its records,
/// the elements about them (`HasAboutIn`), or those that describe the repository or sets, have a namespace, and another
/// than OAI-PMH. A theorem, proved by an empty function.
pub fn schema_law()
    ensures { (d : Document) → IsRegular d.answer → IsFilled d.answer → HasNamespace is_foreign d.answer
        → HasAboutIn is_foreign d.answer → IsOfSchema (document_tree d) }
{}

/// An XML parser that follows the productions of XML 1.0 and Namespaces in XML 1.0 accepts the bytes of a document, and
/// reads its tree (`tree_in` of `oai_xml`); the bytes are UTF-8, of characters that XML allows. The premises: those of
/// [`well_formed_law`], and that each text in the document is UTF-8 of such characters. A theorem, proved by an empty
/// function.
pub fn read_law()
    ensures text { (d : Document) → IsRegular d.answer → is_legal_tree (document_tree d) ≡ true
        → is_legal_text (document d) ≡ true }
    ensures tree { (d : Document) → IsRegular d.answer → HasNamespace may_be_default d.answer
        → HasFittingElements d.answer → is_legal_tree (document_tree d) ≡ true → tree_in (document d) ≡ Some (document_tree d) }
{}

/// The texts that a request or a deposit line carries are UTF-8 of characters that XML allows, whatever bytes it was
/// read from: a request with other characters is a badArgument, and a line with others is refused. A theorem, proved by
/// an empty function.
pub fn commands_law()
    ensures requests { (granularity : Granularity) (arguments : List ℕ)
        → is_legal_command (command_of granularity (query arguments)) ≡ true }
    ensures lines { (granularity : Granularity) (forms : Forms) (text : List ℕ)
        → is_legal_command (command_of granularity (line (line_of forms text))) ≡ true }
{}

/// What a repository of an accepted configuration answers, whatever was deposited and requested before: after any
/// commands at any moments from its beginning on, the tree of each document is whole, and has the elements that the
/// schema of OAI-PMH asks for. If the texts of the configuration and of the commands are UTF-8 of characters that XML
/// allows, as those of each command that is read are ([`commands_law`]), so is each document, and an XML parser reads
/// its tree (`read`). The premises are on the namespaces of the formats, and of the elements that describe the repository
/// and its sets: none is that of `xml` or `xmlns`; and for the schema, each has one, and none is that of OAI-PMH, nor is
/// that of an element about a record in the document (`HasAboutIn`). Where a document's tree is whole and read, records
/// that are elements, what is about records, and descriptions have at most 124 levels, and at most 126 declarations in
/// force (`HasFittingElements`). A theorem, proved by an empty function.
pub fn answers_law()
    ensures whole { (config : RepositoryConfig) (d : Document) → IsConfig config → IsSomeAnswer config d
        → have_namespaces may_be_default config ≡ true → HasFittingElements d.answer
        → is_whole (document_tree d) ≡ true }
    ensures schema { (config : RepositoryConfig) (d : Document) → IsConfig config → IsSomeAnswer config d
        → have_namespaces is_foreign config ≡ true → HasAboutIn is_foreign d.answer
        → IsOfSchema (document_tree d) }
    ensures read { (config : RepositoryConfig) (d : Document) (rules : IsConfig config) (some : IsSomeAnswer config d)
        → have_namespaces may_be_default config ≡ true → is_legal_config config ≡ true
        → are_legal_commands some.commands ≡ true → (is_legal_text (document d) ≡ true)
        × (HasFittingElements d.answer → tree_in (document d) ≡ Some (document_tree d)) }
{}
