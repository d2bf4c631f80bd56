ghost use Rattle.std.specs.Prelude.{OnOk, codes};
ghost use Rattle.std.specs.List.{flat_map};
ghost use Rattle.oai_answers.specs.Appends.{Appends};
ghost use Rattle.oai_answers.specs.Borrowed.{dissemination_of};
ghost use Rattle.oai_answers.specs.Documents.{behind_header, get_record_element, record_content, record_element};
ghost use Rattle.oai_answers.specs.Markup.{container};
ghost use Rattle.oai_item.specs.Givens.{field_texts};

use crate::fields::fields_in;
use crate::headers::write_header;
use crate::markup::put;
use crate::metadata::write_metadata;
use crate::tags::{Tag, close, open};
use oai_item::{Fields, Format, Item};
use oai_time::Granularity;
use std::alloc::AllocError;

/// An item in a format: a document has the item's record with the format's prefix, and the elements about it (OAI-PMH
/// 2.0, section 2.5).
#[derive(Clone, Copy, Debug)]
pub struct Record<'a> {
    /// The item.
    pub item: &'a Item,
    /// The granularity of the repository's datestamps.
    pub granularity: Granularity,
    /// The format.
    pub format: &'a Format,
}

/// Appends the element `GetRecord` (OAI-PMH 2.0, section 4.1).
#[tactic(auto, unfolding(crate::specs::Documents::get_record_element, crate::specs::Markup::element))]
pub(crate) fn write_get_record(
    dissemination: &Record<'_>,
    out: &mut Vec<u8>,
) -> Result<(), AllocError>
    ensures { OnOk result (Appends out.old.items out.new.items
        (get_record_element (dissemination_of dissemination.now))) }
{
    open(Tag::GetRecord, out)?;
    write_record(
        dissemination.granularity,
        dissemination.format,
        dissemination.item,
        out,
    )?;
    close(Tag::GetRecord, out)?;
    Ok(())
}

/// Appends the element `record` of each item, in order.
pub(crate) fn write_records(
    granularity: Granularity,
    format: &Format,
    items: &[Item],
    out: &mut Vec<u8>,
) -> Result<(), AllocError>
    ensures { OnOk result (Appends out.old.items out.new.items
        (flat_map (record_element granularity format.now) items.now)) }
{
    for item in items {
        write_record(granularity, format, item, out)?;
    }
    Ok(())
}

/// Appends the element `record` (OAI-PMH 2.0, section 2.5).
#[tactic(auto, unfolding(crate::specs::Documents::record_element, crate::specs::Markup::element))]
fn write_record(
    granularity: Granularity,
    format: &Format,
    item: &Item,
    out: &mut Vec<u8>,
) -> Result<(), AllocError>
    ensures { OnOk result (Appends out.old.items out.new.items
        (record_element granularity format.now item.now)) }
{
    open(Tag::Record, out)?;
    write_header(granularity, item, out)?;
    write_behind_header(format, item, out)?;
    close(Tag::Record, out)?;
    Ok(())
}

/// Appends the element `metadata` and the elements `about`, or nothing for a deleted record.
#[tactic(auto, unfolding(crate::specs::Documents::behind_header))]
fn write_behind_header(format: &Format, item: &Item, out: &mut Vec<u8>) -> Result<(), AllocError>
    ensures { OnOk result (Appends out.old.items out.new.items
        (behind_header format.now item.now)) }
{
    if !item.is_live() {
        return Ok(());
    }
    write_record_content(format, fields_in(format.prefix.as_str(), item), out)
}

/// Appends the element `metadata`, and an element `about` for each element about the record.
#[tactic(auto, unfolding(crate::specs::Documents::record_content, crate::specs::Markup::element))]
fn write_record_content(
    format: &Format,
    fields: Fields<'_>,
    out: &mut Vec<u8>,
) -> Result<(), AllocError>
    ensures { OnOk result (Appends out.old.items out.new.items
        (record_content format.now fields.entry)) }
{
    let mut left = fields;
    open(Tag::Metadata, out)?;
    write_metadata(format, &mut left, out)?;
    close(Tag::Metadata, out)?;
    write_each_about(left, out)?;
    Ok(())
}

/// Appends the element `about` around the text of each field.
fn write_each_about(mut fields: Fields<'_>, out: &mut Vec<u8>) -> Result<(), AllocError>
    ensures { OnOk result (Appends out.old.items out.new.items
        (flat_map (container (codes "about")) (field_texts fields.entry))) }
{
    while let Some(field) = fields.next() {
        write_about(field.text, out)?;
    }
    Ok(())
}

/// Appends the element `about` around an element, which is written as it stands.
#[tactic(auto, unfolding(crate::specs::Markup::container, crate::specs::Markup::element))]
fn write_about(element: &str, out: &mut Vec<u8>) -> Result<(), AllocError>
    ensures { OnOk result (Appends out.old.items out.new.items
        (container (codes "about") element.now)) }
{
    open(Tag::About, out)?;
    put(element, out)?;
    close(Tag::About, out)?;
    Ok(())
}
