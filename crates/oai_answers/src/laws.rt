//! What the bytes of a document show of the answer.

ghost use Rattle.std.specs.Prelude.{◌≡◌, List};
ghost use Rattle.oai_answers.specs.Answers.{Document};
ghost use Rattle.oai_answers.specs.Documents.{document};
ghost use Rattle.oai_answers.specs.MetadataTrees.{fields_tree};
ghost use Rattle.oai_answers.specs.Seen.{IsRegular, document_seen, format_seen};
ghost use Rattle.oai_item.specs.declared.fields.Field.{Field};
ghost use Rattle.oai_item.specs.declared.formats.Format.{Format};
ghost use Rattle.oai_answers.specs.Unseen.{issue_by_prefix, issue_in_both, issue_of_day, plain_issue};

/// The bytes of a document determine what a reader sees of it: the date, the base URL, the arguments as `request`
/// repeats them, and of the answer all that it prints (OAI-PMH 2.0, sections 2.5 and 3). No text of an item can forge a
/// header, swallow a record or pass for another: of each live record its element is seen, or the element that its fields
/// are written as ([`fields_law`]), and the elements about it. The only premises: formats satisfy the rules of formats; the
/// fields of each record are those of its format, or keep an element of it; and what is about a record, or describes a
/// repository or a set, are elements in canonical text. A theorem, proved by an empty function.
pub fn document_law()
    ensures { (a b : Document) → IsRegular a.answer → IsRegular b.answer
        → document a ≡ document b → document_seen a ≡ document_seen b }
{}

/// The element that fields are written as determines them: equal elements of two lists of fields are of formats that look
/// the same, and of the same fields. A list of fields, and an element that is written just as that list, have one spelling.
/// A theorem, proved by an empty function.
pub fn fields_law()
    ensures { (f g : Format) (xs ys : List Field) → fields_tree f xs ≡ fields_tree g ys
        → (format_seen f ≡ format_seen g) × (xs ≡ ys) }
{}

/// What the bytes do not show, by documents that are equal: the prefix of a format besides its root, namespace and
/// schema; the second of a datestamp printed as a day; and the records of an item in other formats than the requested
/// one. All four are such documents as [`document_law`] speaks of. A theorem, proved by an empty function.
pub fn unseen_law()
    ensures regular { IsRegular plain_issue.answer × IsRegular issue_by_prefix.answer
        × IsRegular issue_of_day.answer × IsRegular issue_in_both.answer }
    ensures prefix { document issue_by_prefix ≡ document plain_issue }
    ensures day { document issue_of_day ≡ document plain_issue }
    ensures others { document issue_in_both ≡ document plain_issue }
{}
