//! The tags of the elements that each document or each record has, written in one piece.
ghost use Rattle.std.specs.Prelude.{◌≡◌, OnOk};
ghost use Rattle.oai_answers.specs.Appends.{Appends};
ghost use Rattle.oai_answers.specs.Markup.{end_tag, start_tag, tag_name, text_element};

use crate::markup::put_text;
use std::alloc::AllocError;

/// An element that documents or records have, or may have.
#[derive(Clone, Copy)]
pub(crate) enum Tag {
    ResponseDate,
    Request,
    GetRecord,
    EarliestDatestamp,
    Record,
    Header,
    Identifier,
    Datestamp,
    SetSpec,
    Metadata,
    About,
    DublinCore,
}

impl Tag {
    /// Its start tag.
    #[tactic(auto, unfolding(crate::specs::Markup::start_tag, crate::specs::Markup::plain))]
    fn start(self) -> &'static str
        ensures { result.now ≡ start_tag (tag_name self) }
    {
        match self {
            Tag::ResponseDate => "<responseDate>",
            Tag::Request => "<request>",
            Tag::GetRecord => "<GetRecord>",
            Tag::EarliestDatestamp => "<earliestDatestamp>",
            Tag::Record => "<record>",
            Tag::Header => "<header>",
            Tag::Identifier => "<identifier>",
            Tag::Datestamp => "<datestamp>",
            Tag::SetSpec => "<setSpec>",
            Tag::Metadata => "<metadata>",
            Tag::About => "<about>",
            Tag::DublinCore => "<oai_dc:dc>",
        }
    }

    /// Its end tag.
    #[tactic(auto, unfolding(crate::specs::Markup::end_tag, crate::specs::Markup::plain))]
    fn end(self) -> &'static str
        ensures { result.now ≡ end_tag (tag_name self) }
    {
        match self {
            Tag::ResponseDate => "</responseDate>",
            Tag::Request => "</request>",
            Tag::GetRecord => "</GetRecord>",
            Tag::EarliestDatestamp => "</earliestDatestamp>",
            Tag::Record => "</record>",
            Tag::Header => "</header>",
            Tag::Identifier => "</identifier>",
            Tag::Datestamp => "</datestamp>",
            Tag::SetSpec => "</setSpec>",
            Tag::Metadata => "</metadata>",
            Tag::About => "</about>",
            Tag::DublinCore => "</oai_dc:dc>",
        }
    }
}

/// Appends the start tag.
pub(crate) fn open(tag: Tag, out: &mut Vec<u8>) -> Result<(), AllocError>
    ensures { OnOk result (Appends out.old.items out.new.items (start_tag (tag_name tag))) }
{
    out.extend_from_slice(tag.start().as_bytes())
}

/// Appends the end tag.
pub(crate) fn close(tag: Tag, out: &mut Vec<u8>) -> Result<(), AllocError>
    ensures { OnOk result (Appends out.old.items out.new.items (end_tag (tag_name tag))) }
{
    out.extend_from_slice(tag.end().as_bytes())
}

/// Appends the element with a text in it.
#[tactic(auto, unfolding(crate::specs::Markup::element, crate::specs::Markup::text_element))]
pub(crate) fn tagged_text(tag: Tag, text: &str, out: &mut Vec<u8>) -> Result<(), AllocError>
    ensures { OnOk result (Appends out.old.items out.new.items
        (text_element (tag_name tag) text.now)) }
{
    open(tag, out)?;
    put_text(text, out)?;
    close(tag, out)?;
    Ok(())
}
