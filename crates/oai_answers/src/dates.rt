ghost use Rattle.std.specs.Prelude.{OnOk};
ghost use Rattle.oai_time.specs.Stamp.{IsWritable};
ghost use Rattle.oai_time.specs.TimeTexts.{datestamp_text, second_text};
ghost use Rattle.oai_answers.specs.Appends.{Appends};
ghost use Rattle.oai_answers.specs.Markup.{element, spelled_attribute, tag_name};

use crate::markup::{put_value_end, start_attribute};
use crate::tags::{Tag, close, open};
use oai_time::{Granularity, write_datestamp};
use std::alloc::AllocError;

/// Appends the element with the time in it, in seconds.
pub(crate) fn second_element(tag: Tag, seconds: i64, out: &mut Vec<u8>) -> Result<(), AllocError>
    requires { IsWritable seconds }
    ensures { OnOk result (Appends out.old.items out.new.items
        (element (tag_name tag) (second_text seconds))) }
{
    datestamp_element(tag, Granularity::Second, seconds, out)
}

/// Appends an attribute with that name and the time as its value, in seconds.
#[tactic(auto, unfolding(crate::specs::Markup::spelled_attribute))]
pub(crate) fn second_attribute(
    name: &str,
    seconds: i64,
    out: &mut Vec<u8>,
) -> Result<(), AllocError>
    requires { IsWritable seconds }
    ensures { OnOk result (Appends out.old.items out.new.items
        (spelled_attribute name.now (second_text seconds))) }
{
    start_attribute(name, out)?;
    put_datestamp(Granularity::Second, seconds, out)?;
    put_value_end(out)?;
    Ok(())
}

/// Appends the element with the datestamp in it (OAI-PMH 2.0, section 3.3).
#[tactic(auto, unfolding(crate::specs::Markup::element))]
pub(crate) fn datestamp_element(
    tag: Tag,
    granularity: Granularity,
    seconds: i64,
    out: &mut Vec<u8>,
) -> Result<(), AllocError>
    requires { IsWritable seconds }
    ensures { OnOk result (Appends out.old.items out.new.items
        (element (tag_name tag) (datestamp_text granularity seconds))) }
{
    open(tag, out)?;
    put_datestamp(granularity, seconds, out)?;
    close(tag, out)?;
    Ok(())
}

/// Appends the datestamp alone.
pub(crate) fn put_datestamp(
    granularity: Granularity,
    seconds: i64,
    out: &mut Vec<u8>,
) -> Result<(), AllocError>
    requires { IsWritable seconds }
    ensures { OnOk result (Appends out.old.items out.new.items
        (datestamp_text granularity seconds)) }
{
    out.extend_from_slice(write_datestamp(granularity, seconds).as_bytes())
}
