ghost use Rattle.std.specs.Prelude.{◌≡◌, ◌++◌, IfOk, OnOk, OnErr};
ghost use Rattle.oai_answers.specs.Answers.{HasWritableTimes, IsWritableDocument};
ghost use Rattle.oai_answers.specs.Appends.{Appends};
ghost use Rattle.oai_answers.specs.Borrowed.{body_answer, document_of};
ghost use Rattle.oai_answers.specs.Documents.{answer_element, document};

use crate::dates::second_element;
use crate::errors::{ErrorCode, write_error};
use crate::formats::{Offered, write_list_metadata_formats};
use crate::head::write_head;
use crate::identify::{Identity, write_identify};
use crate::lists::{Listed, write_list_identifiers, write_list_records};
use crate::markup::put;
use crate::records::{Record, write_get_record};
use crate::request::{RequestAttributes, write_request};
use crate::rooms::room_of;
use crate::sets::{DescribedSets, write_list_sets};
use crate::tags::Tag;
use oai_item::Format;
use std::alloc::{AllocError, Global};

/// What a document answers: an error, or what the verb asks for.
#[derive(Clone, Copy, Debug)]
pub enum Body<'a> {
    /// The request failed with this error (OAI-PMH 2.0, section 3.6).
    Error(ErrorCode),
    /// The description of the repository (OAI-PMH 2.0, section 4.2).
    Identify(Identity<'a>),
    /// The metadata formats of the repository, or of an item (OAI-PMH 2.0, section 4.4).
    ListMetadataFormats(Offered<'a>),
    /// The sets of the repository, each with its setSpec, its name and what describes it (OAI-PMH 2.0, section 4.6).
    ListSets(DescribedSets<'a>),
    /// One record (OAI-PMH 2.0, section 4.1).
    GetRecord(Record<'a>),
    /// The headers of a list of items (OAI-PMH 2.0, section 4.3).
    ListIdentifiers(Listed<'a>),
    /// The records of a list of items in that format (OAI-PMH 2.0, section 4.5).
    ListRecords(&'a Format, Listed<'a>),
}

/// An answer and the other parts of its document (OAI-PMH 2.0, section 3.2).
#[derive(Clone, Copy, Debug)]
pub struct Doc<'a> {
    /// The responseDate, in seconds from 1970 on.
    pub date: i64,
    /// The base URL of the repository.
    pub base: &'a str,
    /// The arguments of the request.
    pub asked: RequestAttributes<'a>,
    /// The answer.
    pub body: Body<'a>,
}

/// The XML document (OAI-PMH 2.0, section 3.2), in UTF-8. The date, the earliest datestamp of an answer to Identify and the
/// moment at which a token expires lie in the years 0000 to 9999. The error is out of memory.
///
/// It costs one pass over the texts of the document, and a search among the records of an item for each record, and for
/// each format that is listed of an item. The buffer is allocated with an estimated capacity.
pub fn document(alloc: Global, doc: &Doc<'_>) -> Result<Vec<u8>, AllocError>
    requires { IsWritableDocument (document_of doc.now) }
    ensures { IfOk result (λ bytes. bytes.items ≡ document (document_of doc.now)) }
{
    let mut document = Vec::with_capacity(alloc, room_of(&doc.body))?;
    append(doc, &mut document)?;
    Ok(document)
}

/// Appends the document. The error is out of memory, and the buffer is unchanged. An empty `out` takes the document over;
/// to any other it is copied once.
pub fn write_document(alloc: Global, doc: &Doc<'_>, out: &mut Vec<u8>) -> Result<(), AllocError>
    requires { IsWritableDocument (document_of doc.now) }
    ensures ok { OnOk result (out.new.items ≡ out.old.items ++ document (document_of doc.now)) }
    ensures err { OnErr result (out.new.items ≡ out.old.items) }
{
    let document = document(alloc, doc)?;
    if out.is_empty() {
        *out = document;
        return Ok(());
    }
    out.extend_from_slice(&document)
}

/// Appends the document. What was appended before memory ran out stays.
#[tactic(auto, unfolding(crate::specs::Documents::document))]
fn append(doc: &Doc<'_>, out: &mut Vec<u8>) -> Result<(), AllocError>
    requires { IsWritableDocument (document_of doc.now) }
    ensures { OnOk result (Appends out.old.items out.new.items (document (document_of doc.now))) }
{
    write_head(out)?;
    second_element(Tag::ResponseDate, doc.date, out)?;
    write_request(doc, out)?;
    write_body(doc.base, &doc.body, out)?;
    put("</OAI-PMH>\n", out)?;
    Ok(())
}

/// Appends the answer itself.
fn write_body(base: &str, body: &Body<'_>, out: &mut Vec<u8>) -> Result<(), AllocError>
    requires { HasWritableTimes (body_answer body.now) }
    ensures { OnOk result (Appends out.old.items out.new.items
        (answer_element base.now (body_answer body.now))) }
{
    match body {
        Body::Error(code) => write_error(*code, out),
        Body::Identify(identity) => write_identify(base, identity, out),
        Body::ListMetadataFormats(offered) => write_list_metadata_formats(offered, out),
        Body::ListSets(listed) => write_list_sets(listed, out),
        Body::GetRecord(record) => write_get_record(record, out),
        Body::ListIdentifiers(list) => write_list_identifiers(list, out),
        Body::ListRecords(format, list) => write_list_records(format, list, out),
    }
}
