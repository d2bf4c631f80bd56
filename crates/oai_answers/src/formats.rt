ghost use Rattle.std.specs.Prelude.{◌≡◌, OnOk};
ghost use Rattle.std.specs.List.{flat_map};
ghost use Rattle.std.specs.Option.{option_copied};
ghost use Rattle.oai_answers.specs.Answers.{is_offered, offered};
ghost use Rattle.oai_answers.specs.Appends.{Appends};
ghost use Rattle.oai_answers.specs.Documents.{format_element, formats_element};

use crate::markup::{end, start, text_element};
use oai_item::{Format, Item};
use std::alloc::AllocError;

/// The metadata formats that a document lists: those of the repository, in order, or only those in which an item has a
/// record (OAI-PMH 2.0, section 4.4).
#[derive(Clone, Copy, Debug)]
pub struct Offered<'a> {
    /// The formats of the repository.
    pub formats: &'a [Format],
    /// The item, if the formats of one are requested.
    pub of: Option<&'a Item>,
}

/// Appends the element `ListMetadataFormats`.
#[tactic(auto, unfolding(crate::specs::Documents::formats_element, crate::specs::Markup::element))]
pub(crate) fn write_list_metadata_formats(
    list: &Offered<'_>,
    out: &mut Vec<u8>,
) -> Result<(), AllocError>
    ensures { OnOk result (Appends out.old.items out.new.items
        (formats_element (offered list.now.formats.now (option_copied list.now.of)))) }
{
    start("ListMetadataFormats", out)?;
    write_formats(list, out)?;
    end("ListMetadataFormats", out)?;
    Ok(())
}

/// Appends the offered formats, in order.
#[tactic(auto, unfolding(crate::specs::Answers::offered))]
fn write_formats(list: &Offered<'_>, out: &mut Vec<u8>) -> Result<(), AllocError>
    ensures { OnOk result (Appends out.old.items out.new.items
        (flat_map format_element (offered list.now.formats.now (option_copied list.now.of)))) }
{
    for format in list.formats {
        if is_offered(list.of, format) {
            write_format(format, out)?;
        }
    }
    Ok(())
}

/// Whether no item is given, or it has a record in the format.
fn is_offered(of: Option<&Item>, format: &Format) -> bool
    ensures { result ≡ is_offered (option_copied of.entry) format.now }
{
    match of {
        Some(item) => item.has_record(format.prefix.as_str()),
        None => true,
    }
}

/// Appends the element `metadataFormat`.
#[tactic(auto, unfolding(crate::specs::Documents::format_element, crate::specs::Markup::element))]
fn write_format(format: &Format, out: &mut Vec<u8>) -> Result<(), AllocError>
    ensures { OnOk result (Appends out.old.items out.new.items (format_element format.now)) }
{
    start("metadataFormat", out)?;
    text_element("metadataPrefix", format.prefix.as_str(), out)?;
    text_element("schema", format.schema.as_str(), out)?;
    text_element("metadataNamespace", format.namespace.as_str(), out)?;
    end("metadataFormat", out)?;
    Ok(())
}
