ghost use Rattle.std.specs.Prelude.{OnOk};
ghost use Rattle.std.specs.Fmt.{decimal};
ghost use Rattle.oai_time.specs.Stamp.{IsWritable};
ghost use Rattle.oai_answers.specs.Answers.{HasWritableEnd};
ghost use Rattle.oai_answers.specs.Appends.{Appends};
ghost use Rattle.oai_answers.specs.Borrowed.{continuation_of};
ghost use Rattle.oai_answers.specs.Documents.{extent_attributes, token_element};
ghost use Rattle.oai_answers.specs.Markup.{spelled_attribute};

use crate::dates::second_attribute;
use crate::markup::{end, put, put_tag_end, put_text, put_value_end, start_attribute};
use std::alloc::AllocError;

/// How a list continues after the items of an answer (OAI-PMH 2.0, section 3.5).
#[derive(Clone, Copy, Debug)]
pub enum Resumption<'a> {
    /// The answer has the whole list: no token is written.
    Whole,
    /// Records remain, and a token requests them.
    More(Remaining<'a>),
    /// The answer completes a list that was answered in parts: an empty token says so.
    Last(Extent),
}

/// The token for the remaining records of a list (OAI-PMH 2.0, section 3.5).
#[derive(Clone, Copy, Debug)]
pub struct Remaining<'a> {
    /// When the token expires, in seconds from 1970 on. A document has it in seconds, also if datestamps are days.
    pub expires: i64,
    /// The position of the answer in its list.
    pub extent: Extent,
    /// The token, unescaped.
    pub token: &'a str,
}

/// The position of an answer in its list (OAI-PMH 2.0, section 3.5).
#[derive(Clone, Copy, Debug, PartialEq, Eq)]
pub struct Extent {
    /// How many records the whole list has.
    pub size: u64,
    /// How many of them precede this answer.
    pub cursor: u64,
}

/// Appends the element `resumptionToken`, or nothing if the list is whole.
#[tactic(auto, unfolding(crate::specs::Documents::token_element))]
pub(crate) fn write_token(resumption: &Resumption<'_>, out: &mut Vec<u8>) -> Result<(), AllocError>
    requires { HasWritableEnd (continuation_of resumption.now) }
    ensures { OnOk result (Appends out.old.items out.new.items
        (token_element (continuation_of resumption.now))) }
{
    match resumption {
        Resumption::Whole => Ok(()),
        Resumption::More(remaining) => write_remaining(remaining, out),
        Resumption::Last(extent) => write_last(*extent, out),
    }
}

/// Appends the element with a token in it.
#[tactic(auto, unfolding(crate::specs::Documents::token_element))]
fn write_remaining(remaining: &Remaining<'_>, out: &mut Vec<u8>) -> Result<(), AllocError>
    requires { IsWritable remaining.now.expires }
    ensures { OnOk result (Appends out.old.items out.new.items
        (token_element (continuation_of (Resumption.More remaining.now)))) }
{
    put("<resumptionToken", out)?;
    second_attribute("expirationDate", remaining.expires, out)?;
    write_extent(remaining.extent, out)?;
    put_tag_end(out)?;
    put_text(remaining.token, out)?;
    end("resumptionToken", out)?;
    Ok(())
}

/// Appends the empty element that ends a list.
#[tactic(auto, unfolding(crate::specs::Documents::token_element))]
fn write_last(extent: Extent, out: &mut Vec<u8>) -> Result<(), AllocError>
    ensures { OnOk result (Appends out.old.items out.new.items
        (token_element (continuation_of (Resumption.Last extent)))) }
{
    put("<resumptionToken", out)?;
    write_extent(extent, out)?;
    put_tag_end(out)?;
    end("resumptionToken", out)?;
    Ok(())
}

/// Appends the size of the list and the cursor as attributes.
#[tactic(auto, unfolding(crate::specs::Documents::extent_attributes))]
fn write_extent(extent: Extent, out: &mut Vec<u8>) -> Result<(), AllocError>
    ensures { OnOk result (Appends out.old.items out.new.items (extent_attributes extent)) }
{
    number_attribute("completeListSize", extent.size, out)?;
    number_attribute("cursor", extent.cursor, out)?;
    Ok(())
}

/// Appends an attribute with the number as its value, in decimal.
#[tactic(auto, unfolding(crate::specs::Markup::spelled_attribute))]
fn number_attribute(name: &str, number: u64, out: &mut Vec<u8>) -> Result<(), AllocError>
    ensures { OnOk result (Appends out.old.items out.new.items
        (spelled_attribute name.now (decimal number))) }
{
    start_attribute(name, out)?;
    put_number(number, out)?;
    put_value_end(out)?;
    Ok(())
}

/// Appends the decimal digits of the number, without leading zeros.
fn put_number(number: u64, out: &mut Vec<u8>) -> Result<(), AllocError>
    ensures { OnOk result (Appends out.old.items out.new.items (decimal number)) }
{
    let digits = number.to_string(*out.allocator())?;
    out.extend_from_slice(digits.as_bytes())
}
