ghost use Rattle.std.specs.Prelude.{◌≡◌, OnOk};
ghost use Rattle.std.specs.Option.{option_copied};
ghost use Rattle.oai_answers.specs.Answers.{arguments_told, no_arguments};
ghost use Rattle.oai_answers.specs.Appends.{Appends};
ghost use Rattle.oai_answers.specs.Borrowed.{body_answer, attributes_of, document_of};
ghost use Rattle.oai_answers.specs.Documents.{argument_name, attributes, given_attribute, request_element};
ghost use Rattle.oai_answers.specs.Markup.{attribute, attribute_start};

use crate::documents::{Body, Doc};
use crate::errors::ErrorCode;
use crate::markup::{put, put_tag_end, put_text, put_value, put_value_end};
use crate::tags::{Tag, close};
use std::alloc::AllocError;

/// The arguments of a request, decoded, as far as they were given. After `BadVerb` and `BadArgument` no document shows
/// them, whatever these are (OAI-PMH 2.0, section 3.2).
#[derive(Clone, Copy, Debug)]
pub struct RequestAttributes<'a> {
    /// The verb.
    pub verb: Option<&'a str>,
    /// The identifier.
    pub identifier: Option<&'a str>,
    /// The metadataPrefix.
    pub prefix: Option<&'a str>,
    /// The lower bound of datestamps.
    pub from: Option<&'a str>,
    /// The upper bound of datestamps.
    pub until: Option<&'a str>,
    /// The setSpec.
    pub set: Option<&'a str>,
    /// The resumptionToken.
    pub token: Option<&'a str>,
}

impl<'a> RequestAttributes<'a> {
    /// No arguments.
    pub fn nothing() -> RequestAttributes<'a>
        ensures { attributes_of result ≡ no_arguments }
    {
        RequestAttributes {
            verb: None,
            identifier: None,
            prefix: None,
            from: None,
            until: None,
            set: None,
            token: None,
        }
    }
}

/// An argument of a request, as an attribute of the element `request`.
#[derive(Clone, Copy)]
enum Argument {
    Verb,
    Identifier,
    MetadataPrefix,
    From,
    Until,
    Set,
    ResumptionToken,
}

impl Argument {
    /// The attribute up to its value, in one piece.
    #[tactic(auto, unfolding(crate::specs::Markup::attribute_start, crate::specs::Markup::plain))]
    fn start(self) -> &'static str
        ensures { result.now ≡ attribute_start (argument_name self) }
    {
        match self {
            Argument::Verb => " verb=\"",
            Argument::Identifier => " identifier=\"",
            Argument::MetadataPrefix => " metadataPrefix=\"",
            Argument::From => " from=\"",
            Argument::Until => " until=\"",
            Argument::Set => " set=\"",
            Argument::ResumptionToken => " resumptionToken=\"",
        }
    }
}

/// Appends the element `request` (OAI-PMH 2.0, section 3.2).
#[tactic(auto, unfolding(crate::specs::Documents::request_element))]
pub(crate) fn write_request(doc: &Doc<'_>, out: &mut Vec<u8>) -> Result<(), AllocError>
    ensures { OnOk result (Appends out.old.items out.new.items
        (request_element (document_of doc.now))) }
{
    put("<request", out)?;
    write_attributes_beside(&doc.body, &doc.asked, out)?;
    put_tag_end(out)?;
    put_text(doc.base, out)?;
    close(Tag::Request, out)?;
    Ok(())
}

/// Appends the attributes of `request` for that answer.
#[tactic(auto, unfolding(crate::specs::Documents::attributes))]
fn write_attributes_beside(
    body: &Body<'_>,
    asked: &RequestAttributes<'_>,
    out: &mut Vec<u8>,
) -> Result<(), AllocError>
    ensures { OnOk result (Appends out.old.items out.new.items
        (attributes (arguments_told (body_answer body.now) (attributes_of asked.now)))) }
{
    match body {
        Body::Error(ErrorCode::BadVerb) => Ok(()),
        Body::Error(ErrorCode::BadArgument) => Ok(()),
        _ => write_attributes(asked, out),
    }
}

/// Appends the arguments as attributes, in the order of the protocol.
#[tactic(auto, unfolding(crate::specs::Documents::attributes))]
fn write_attributes(asked: &RequestAttributes<'_>, out: &mut Vec<u8>) -> Result<(), AllocError>
    ensures { OnOk result (Appends out.old.items out.new.items
        (attributes (attributes_of asked.now))) }
{
    write_given(Argument::Verb, asked.verb, out)?;
    write_given(Argument::Identifier, asked.identifier, out)?;
    write_given(Argument::MetadataPrefix, asked.prefix, out)?;
    write_given(Argument::From, asked.from, out)?;
    write_given(Argument::Until, asked.until, out)?;
    write_given(Argument::Set, asked.set, out)?;
    write_given(Argument::ResumptionToken, asked.token, out)?;
    Ok(())
}

/// Appends the argument as an attribute, if it was given.
fn write_given(argument: Argument, value: Option<&str>, out: &mut Vec<u8>) -> Result<(), AllocError>
    ensures { OnOk result (Appends out.old.items out.new.items
        (given_attribute (argument_name argument) (option_copied value.entry))) }
{
    match value {
        Some(value) => write_argument(argument, value, out),
        None => Ok(()),
    }
}

/// Appends the argument as an attribute.
#[tactic(auto, unfolding(crate::specs::Markup::spelled_attribute, crate::specs::Markup::attribute))]
fn write_argument(argument: Argument, value: &str, out: &mut Vec<u8>) -> Result<(), AllocError>
    ensures { OnOk result (Appends out.old.items out.new.items
        (attribute (argument_name argument) value.now)) }
{
    start_argument(argument, out)?;
    put_value(value, out)?;
    put_value_end(out)?;
    Ok(())
}

/// Appends the attribute of the argument up to its value.
fn start_argument(argument: Argument, out: &mut Vec<u8>) -> Result<(), AllocError>
    ensures { OnOk result (Appends out.old.items out.new.items
        (attribute_start (argument_name argument))) }
{
    out.extend_from_slice(argument.start().as_bytes())
}
