ghost use Rattle.std.specs.Prelude.{◌≡◌, OnOk, ◌++◌, codes};
ghost use Rattle.std.specs.List.{before_first, flat_map};
ghost use Rattle.oai_item.specs.Elements.{behind_content, content_in, from_nameless, is_nameless};
ghost use Rattle.oai_answers.specs.Appends.{Appends};
ghost use Rattle.oai_answers.specs.Contents.{about_from, content_from};
ghost use Rattle.oai_answers.specs.Documents.{declared_metadata, declared_start, dublin_core_metadata, dublin_core_start, field_element, fields_metadata, metadata, qualifier_of, schema_location};
ghost use Rattle.oai_answers.specs.Markup.{end_tag, start_tag};

use crate::markup::{
    attribute, end, put, put_tag_end, put_text, put_value, put_value_end, start_attribute,
};
use crate::tags::{Tag, close};
use oai_item::{FieldTexts, Fields, Format};
use std::alloc::AllocError;

/// The start tag of unqualified Dublin Core, with its namespaces and its schema.
const DUBLIN_CORE_START: &str =
    "<oai_dc:dc xmlns:oai_dc=\"http://www.openarchives.org/OAI/2.0/oai_dc/\" xmlns:dc=\"http://purl.org/dc/elements/1.1/\" xmlns:xsi=\"http://www.w3.org/2001/XMLSchema-instance\" xsi:schemaLocation=\"http://www.openarchives.org/OAI/2.0/oai_dc/ http://www.openarchives.org/OAI/2.0/oai_dc.xsd\">";

/// The namespace of the attribute schemaLocation.
const SCHEMA_INSTANCE: &str = "http://www.w3.org/2001/XMLSchema-instance";

/// How the names of fields are qualified (Namespaces in XML 1.0, section 4).
#[derive(Clone, Copy)]
enum Qualifier {
    /// By the prefix of Dublin Core's elements.
    Dc,
    /// By no prefix, since the namespace of the format is the default one.
    Bare,
}

impl Qualifier {
    /// The start tag of a field, up to its own name.
    fn start(self) -> &'static str
        ensures { result.now ≡ codes "<" ++ qualifier_of self }
    {
        match self {
            Qualifier::Dc => "<dc:",
            Qualifier::Bare => "<",
        }
    }

    /// The end tag of a field, up to its own name.
    fn end(self) -> &'static str
        ensures { result.now ≡ codes "</" ++ qualifier_of self }
    {
        match self {
            Qualifier::Dc => "</dc:",
            Qualifier::Bare => "</",
        }
    }
}

/// Appends the metadata in its format: the element that the fields keep as the record itself, as it stands, or the fields
/// that are it. The fields that remain are about the record.
#[tactic(auto, unfolding(crate::specs::Documents::metadata))]
pub(crate) fn write_metadata(
    format: &Format,
    fields: &mut Fields<'_>,
    out: &mut Vec<u8>,
) -> Result<(), AllocError>
    ensures written { OnOk result (Appends out.old.items out.new.items (metadata format.now fields.old)) }
    ensures about { OnOk result (fields.new ≡ behind_content fields.old) }
{
    match fields.element() {
        Some(element) => {
            *fields = fields.about();
            put(element, out)
        }
        None => write_content(format, fields, out),
    }
}

/// Appends the fields that are the record itself, in their format. The fields that remain are about the record.
fn write_content(
    format: &Format,
    fields: &mut Fields<'_>,
    out: &mut Vec<u8>,
) -> Result<(), AllocError>
    ensures written { OnOk result (Appends out.old.items out.new.items (fields_metadata format.now (content_in fields.old))) }
    ensures about { OnOk result (fields.new ≡ behind_content fields.old) }
{
    match fields.next() {
        Some(first) => write_fields_metadata(format, Some(first), fields, out),
        None => {
            *fields = Fields::none();
            write_fields_metadata(format, None, fields, out)
        }
    }
}

/// Appends the fields in their format: the first, if there is one, and those with names that follow.
#[tactic(auto, unfolding(crate::specs::Documents::fields_metadata))]
fn write_fields_metadata(
    format: &Format,
    first: Option<FieldTexts<'_>>,
    others: &mut Fields<'_>,
    out: &mut Vec<u8>,
) -> Result<(), AllocError>
    ensures written { OnOk result (Appends out.old.items out.new.items
        (fields_metadata format.now (content_from first.entry others.old))) }
    ensures about { OnOk result (others.new ≡ about_from first.entry others.old) }
{
    if format.prefix.as_str() == "oai_dc" {
        write_dublin_core(first, others, out)
    } else {
        write_declared(format, first, others, out)
    }
}

/// Appends the metadata in unqualified Dublin Core (OAI-PMH 2.0, section 2.5; DCES 1.1).
#[tactic(auto, unfolding(crate::specs::Documents::dublin_core_metadata))]
fn write_dublin_core(
    first: Option<FieldTexts<'_>>,
    others: &mut Fields<'_>,
    out: &mut Vec<u8>,
) -> Result<(), AllocError>
    ensures written { OnOk result (Appends out.old.items out.new.items
        (dublin_core_metadata (content_from first.entry others.old))) }
    ensures about { OnOk result (others.new ≡ about_from first.entry others.old) }
{
    write_dublin_core_start(out)?;
    write_fields(Qualifier::Dc, first, others, out)?;
    close(Tag::DublinCore, out)?;
    Ok(())
}

/// Appends the start tag of unqualified Dublin Core.
#[tactic(auto, unfolding(crate::specs::Documents::dublin_core_start))]
fn write_dublin_core_start(out: &mut Vec<u8>) -> Result<(), AllocError>
    ensures { OnOk result (Appends out.old.items out.new.items dublin_core_start) }
{
    out.extend_from_slice(DUBLIN_CORE_START.as_bytes())
}

/// Appends the metadata in a declared format.
#[tactic(auto, unfolding(crate::specs::Documents::declared_metadata))]
fn write_declared(
    format: &Format,
    first: Option<FieldTexts<'_>>,
    others: &mut Fields<'_>,
    out: &mut Vec<u8>,
) -> Result<(), AllocError>
    ensures written { OnOk result (Appends out.old.items out.new.items
        (declared_metadata format.now (content_from first.entry others.old))) }
    ensures about { OnOk result (others.new ≡ about_from first.entry others.old) }
{
    write_declared_start(format, out)?;
    write_fields(Qualifier::Bare, first, others, out)?;
    end(format.root.as_str(), out)?;
    Ok(())
}

/// Appends the start tag of a declared format, with its namespace and its schema.
#[tactic(auto, unfolding(crate::specs::Documents::declared_start))]
fn write_declared_start(format: &Format, out: &mut Vec<u8>) -> Result<(), AllocError>
    ensures { OnOk result (Appends out.old.items out.new.items (declared_start format.now)) }
{
    put("<", out)?;
    put(format.root.as_str(), out)?;
    attribute("xmlns", format.namespace.as_str(), out)?;
    attribute("xmlns:xsi", SCHEMA_INSTANCE, out)?;
    write_schema_location(format, out)?;
    put_tag_end(out)?;
    Ok(())
}

/// Appends the attribute schemaLocation of the format.
#[tactic(auto, unfolding(crate::specs::Documents::schema_location, crate::specs::Markup::spelled_attribute))]
fn write_schema_location(format: &Format, out: &mut Vec<u8>) -> Result<(), AllocError>
    ensures { OnOk result (Appends out.old.items out.new.items (schema_location format.now)) }
{
    start_attribute("xsi:schemaLocation", out)?;
    put_value(format.namespace.as_str(), out)?;
    put(" ", out)?;
    put_value(format.schema.as_str(), out)?;
    put_value_end(out)?;
    Ok(())
}

/// Appends the first field, if there is one, and those with names that follow, in order.
fn write_fields(
    qualifier: Qualifier,
    first: Option<FieldTexts<'_>>,
    others: &mut Fields<'_>,
    out: &mut Vec<u8>,
) -> Result<(), AllocError>
    ensures written { OnOk result (Appends out.old.items out.new.items
        (flat_map (field_element (qualifier_of qualifier)) (content_from first.entry others.old))) }
    ensures about { OnOk result (others.new ≡ about_from first.entry others.old) }
{
    let Some(first) = first else {
        return Ok(());
    };
    write_field(qualifier, first.name, first.text, out)?;
    write_named_fields(qualifier, others, out)?;
    Ok(())
}

/// Appends the fields up to the first without a name, in order.
fn write_named_fields(
    qualifier: Qualifier,
    fields: &mut Fields<'_>,
    out: &mut Vec<u8>,
) -> Result<(), AllocError>
    ensures written { OnOk result (Appends out.old.items out.new.items
        (flat_map (field_element (qualifier_of qualifier)) (before_first is_nameless fields.old))) }
    ensures about { OnOk result (fields.new ≡ from_nameless fields.old) }
{
    while let Some(field) = fields.next_named() {
        write_field(qualifier, field.name, field.text, out)?;
    }
    Ok(())
}

/// Appends the element of a field, with its qualified name.
#[tactic(auto, unfolding(crate::specs::Documents::field_element, crate::specs::Markup::text_element, crate::specs::Markup::element))]
fn write_field(
    qualifier: Qualifier,
    name: &str,
    text: &str,
    out: &mut Vec<u8>,
) -> Result<(), AllocError>
    ensures { OnOk result (Appends out.old.items out.new.items
        (field_element (qualifier_of qualifier) (record { name = name.now; text = text.now }))) }
{
    start_qualified(qualifier, name, out)?;
    put_text(text, out)?;
    end_qualified(qualifier, name, out)?;
    Ok(())
}

/// Appends the start tag of a qualified name.
#[tactic(auto, unfolding(crate::specs::Markup::start_tag, crate::specs::Markup::plain))]
fn start_qualified(qualifier: Qualifier, name: &str, out: &mut Vec<u8>) -> Result<(), AllocError>
    ensures { OnOk result (Appends out.old.items out.new.items
        (start_tag (qualifier_of qualifier ++ name.now))) }
{
    put(qualifier.start(), out)?;
    put(name, out)?;
    put_tag_end(out)?;
    Ok(())
}

/// Appends the end tag of a qualified name.
#[tactic(auto, unfolding(crate::specs::Markup::end_tag, crate::specs::Markup::plain))]
fn end_qualified(qualifier: Qualifier, name: &str, out: &mut Vec<u8>) -> Result<(), AllocError>
    ensures { OnOk result (Appends out.old.items out.new.items
        (end_tag (qualifier_of qualifier ++ name.now))) }
{
    put(qualifier.end(), out)?;
    put(name, out)?;
    put_tag_end(out)?;
    Ok(())
}
