ghost use Rattle.std.specs.Prelude.{OnOk, codes};
ghost use Rattle.std.specs.List.{flat_map};
ghost use Rattle.oai_names.specs.Escapes.{escaped_attribute, escaped_text};
ghost use Rattle.oai_answers.specs.Appends.{Appends};
ghost use Rattle.oai_answers.specs.Markup.{attribute, attribute_start, container, element, end_tag, plain, spelled_attribute, start_tag, text_element};

use crate::tags::{Tag, tagged_text};
use oai_names::{SetSpec, Text, escape_attr, escape_text};
use std::alloc::AllocError;

/// Appends markup unescaped.
#[tactic(auto, unfolding(crate::specs::Markup::plain))]
pub(crate) fn put(markup: &str, out: &mut Vec<u8>) -> Result<(), AllocError>
    ensures { OnOk result (Appends out.old.items out.new.items (plain markup.now)) }
{
    out.extend_from_slice(markup.as_bytes())
}

/// Appends the end of a tag.
#[tactic(auto, unfolding(crate::specs::Markup::plain))]
pub(crate) fn put_tag_end(out: &mut Vec<u8>) -> Result<(), AllocError>
    ensures { OnOk result (Appends out.old.items out.new.items (plain (codes ">"))) }
{
    out.push(b'>')?;
    Ok(())
}

/// Appends the quote behind the value of an attribute.
#[tactic(auto, unfolding(crate::specs::Markup::plain))]
pub(crate) fn put_value_end(out: &mut Vec<u8>) -> Result<(), AllocError>
    ensures { OnOk result (Appends out.old.items out.new.items (plain (codes "\""))) }
{
    out.push(b'"')?;
    Ok(())
}

/// Appends a text, escaped for an element.
pub(crate) fn put_text(text: &str, out: &mut Vec<u8>) -> Result<(), AllocError>
    ensures { OnOk result (Appends out.old.items out.new.items (escaped_text text.now)) }
{
    escape_text(text, out)
}

/// Appends a text, escaped for the value of an attribute.
pub(crate) fn put_value(text: &str, out: &mut Vec<u8>) -> Result<(), AllocError>
    ensures { OnOk result (Appends out.old.items out.new.items (escaped_attribute text.now)) }
{
    escape_attr(text, out)
}

/// Appends `<NAME>`.
#[tactic(auto, unfolding(crate::specs::Markup::start_tag))]
pub(crate) fn start(name: &str, out: &mut Vec<u8>) -> Result<(), AllocError>
    ensures { OnOk result (Appends out.old.items out.new.items (start_tag name.now)) }
{
    put("<", out)?;
    put(name, out)?;
    put_tag_end(out)
}

/// Appends `</NAME>`.
#[tactic(auto, unfolding(crate::specs::Markup::end_tag))]
pub(crate) fn end(name: &str, out: &mut Vec<u8>) -> Result<(), AllocError>
    ensures { OnOk result (Appends out.old.items out.new.items (end_tag name.now)) }
{
    put("</", out)?;
    put(name, out)?;
    put_tag_end(out)
}

/// Appends an element with markup in it.
#[tactic(auto, unfolding(crate::specs::Markup::element))]
pub(crate) fn plain_element(name: &str, markup: &str, out: &mut Vec<u8>) -> Result<(), AllocError>
    ensures { OnOk result (Appends out.old.items out.new.items
        (element name.now (plain markup.now))) }
{
    start(name, out)?;
    put(markup, out)?;
    end(name, out)?;
    Ok(())
}

/// Appends an element with a text in it.
#[tactic(auto, unfolding(crate::specs::Markup::element, crate::specs::Markup::text_element))]
pub(crate) fn text_element(name: &str, text: &str, out: &mut Vec<u8>) -> Result<(), AllocError>
    ensures { OnOk result (Appends out.old.items out.new.items (text_element name.now text.now)) }
{
    start(name, out)?;
    put_text(text, out)?;
    end(name, out)?;
    Ok(())
}

/// Appends an element with that name for each text.
pub(crate) fn text_elements(name: &str, texts: &[Text], out: &mut Vec<u8>) -> Result<(), AllocError>
    ensures { OnOk result (Appends out.old.items out.new.items
        (flat_map (text_element name.now) texts.now)) }
{
    for text in texts {
        text_element(name, text.as_str(), out)?;
    }
    Ok(())
}

/// Appends an element with that name around each element, which is written as it stands.
pub(crate) fn containers(name: &str, elements: &[Text], out: &mut Vec<u8>) -> Result<(), AllocError>
    ensures { OnOk result (Appends out.old.items out.new.items
        (flat_map (container name.now) elements.now)) }
{
    for element in elements {
        contain(name, element.as_str(), out)?;
    }
    Ok(())
}

/// Appends an element with that name around an element.
#[tactic(auto, unfolding(crate::specs::Markup::container))]
fn contain(name: &str, element: &str, out: &mut Vec<u8>) -> Result<(), AllocError>
    ensures { OnOk result (Appends out.old.items out.new.items (container name.now element.now)) }
{
    plain_element(name, element, out)
}

/// Appends the element `setSpec` for each setSpec.
pub(crate) fn set_specs(specs: &[SetSpec], out: &mut Vec<u8>) -> Result<(), AllocError>
    ensures { OnOk result (Appends out.old.items out.new.items
        (flat_map (text_element (codes "setSpec")) specs.now)) }
{
    for spec in specs {
        tagged_text(Tag::SetSpec, spec.as_str(), out)?;
    }
    Ok(())
}

/// Appends an attribute up to its value: a space, its name, the equals sign and the quote.
#[tactic(auto, unfolding(crate::specs::Markup::attribute_start))]
pub(crate) fn start_attribute(name: &str, out: &mut Vec<u8>) -> Result<(), AllocError>
    ensures { OnOk result (Appends out.old.items out.new.items (attribute_start name.now)) }
{
    put(" ", out)?;
    put(name, out)?;
    put("=\"", out)?;
    Ok(())
}

/// Appends an attribute with markup as its value.
#[tactic(auto, unfolding(crate::specs::Markup::spelled_attribute))]
pub(crate) fn plain_attribute(name: &str, markup: &str, out: &mut Vec<u8>) -> Result<(), AllocError>
    ensures { OnOk result (Appends out.old.items out.new.items
        (spelled_attribute name.now (plain markup.now))) }
{
    start_attribute(name, out)?;
    put(markup, out)?;
    put_value_end(out)?;
    Ok(())
}

/// Appends an attribute with a text as its value.
#[tactic(auto, unfolding(crate::specs::Markup::spelled_attribute, crate::specs::Markup::attribute))]
pub(crate) fn attribute(name: &str, text: &str, out: &mut Vec<u8>) -> Result<(), AllocError>
    ensures { OnOk result (Appends out.old.items out.new.items (attribute name.now text.now)) }
{
    start_attribute(name, out)?;
    put_value(text, out)?;
    put_value_end(out)?;
    Ok(())
}
