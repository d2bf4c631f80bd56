//! Metadata formats: oai_dc, those that are declared, and why one is not.
use crate::answers::Answer;
use crate::rows::Row;
use oai_item::{Format, FormatFault, Formats};
use oai_names::{Prefix, Sequence, Text};
use std::alloc::{AllocError, Global};

/// Adds what the row is answered.
pub(crate) fn answer(alloc: Global, row: &Row<'_>, answer: &mut Answer) {
    match row.call {
        "Formats::dc" => dublin_core(alloc, row.text(0), answer),
        "Formats::declare" => declare(alloc, row, answer),
        "each-declared" => declare_each(alloc, row, answer),
        "FormatFault::NoMemory" => answer.fault(FormatFault::NoMemory),
        _ => answer.word("no such call"),
    }
}

const URI: &str = "http://host.example/jnl/";

/// A format in short; its fields have commas between.
#[derive(Clone, Copy)]
struct Told<'a> {
    prefix: &'a str,
    schema: &'a str,
    namespace: &'a str,
    root: &'a str,
    fields: &'a str,
}

/// The format `jnl`, of the fields `volume` and `pages`.
fn journal() -> Told<'static> {
    Told {
        prefix: "jnl",
        schema: URI,
        namespace: URI,
        root: "article",
        fields: "volume,pages",
    }
}

/// The journal under that prefix.
fn journal_under(prefix: &str) -> Told<'_> {
    Told {
        prefix,
        ..journal()
    }
}

/// The journal with each change made: the name of a part and, behind a `=`, the part.
fn changed<'a>(row: &'a Row<'_>) -> Told<'a> {
    let mut told = journal();
    for at in 0..row.len() {
        let (name, part) = row.text(at).split_once('=').unwrap_or(("", ""));
        match name {
            "prefix" => told.prefix = part,
            "schema" => told.schema = part,
            "namespace" => told.namespace = part,
            "root" => told.root = part,
            "fields" => told.fields = part,
            _ => {}
        }
    }
    told
}

/// The format; none where its prefix is not of the syntax of one. The error is out of memory.
fn format_of(alloc: Global, told: Told<'_>) -> Result<Option<Format>, AllocError> {
    let schema = Text::new(alloc, told.schema)?;
    let namespace = Text::new(alloc, told.namespace)?;
    let root = Text::new(alloc, told.root)?;
    let fields = fields_in(alloc, told.fields)?;
    match Prefix::read(alloc, told.prefix) {
        Ok(prefix) => Ok(Some(Format {
            prefix,
            schema,
            namespace,
            root,
            fields,
        })),
        Err(_) => Ok(None),
    }
}

/// The names of the fields; none in no text.
fn fields_in(alloc: Global, names: &str) -> Result<Sequence<Text>, AllocError> {
    let mut fields = Vec::new(alloc);
    if !names.is_empty() {
        for name in names.split(',') {
            fields.push(Text::new(alloc, name)?)?;
        }
    }
    Ok(Sequence::new(fields))
}

/// oai_dc alone: how many formats there are, whether that of the text is one, and how many fields oai_dc has.
fn dublin_core(alloc: Global, prefix: &str, answer: &mut Answer) {
    match Formats::dc(alloc) {
        Ok(formats) => {
            answer.value(formats.len());
            answer.is(formats.get(1).is_some());
            answer.is(formats.find_named(prefix).is_some());
            match Prefix::read(alloc, "oai_dc") {
                Ok(prefix) => find(&formats, &prefix, answer),
                Err(fault) => answer.fault(fault),
            }
        }
        Err(_) => answer.out_of_memory(),
    }
}

/// How many fields the format of that prefix has.
fn find(formats: &Formats, prefix: &Prefix, answer: &mut Answer) {
    match formats.find(prefix) {
        Some(format) => answer.value(format.fields.as_slice().len()),
        None => answer.word("-"),
    }
}

/// The formats once the journal with the changes was declared beside oai_dc.
fn declare(alloc: Global, row: &Row<'_>, answer: &mut Answer) {
    match Formats::dc(alloc) {
        Ok(mut formats) => {
            declare_one(alloc, &mut formats, changed(row), answer);
            show_formats(&formats, answer);
        }
        Err(_) => answer.out_of_memory(),
    }
}

/// The formats once the journal was declared under each of the prefixes.
fn declare_each(alloc: Global, row: &Row<'_>, answer: &mut Answer) {
    match Formats::dc(alloc) {
        Ok(mut formats) => {
            for at in 0..row.len() {
                declare_one(alloc, &mut formats, journal_under(row.text(at)), answer);
            }
            show_formats(&formats, answer);
        }
        Err(_) => answer.out_of_memory(),
    }
}

/// Declares the format, or adds to the answer why it is refused.
fn declare_one(alloc: Global, formats: &mut Formats, told: Told<'_>, answer: &mut Answer) {
    match format_of(alloc, told) {
        Ok(Some(format)) => {
            if let Err(fault) = formats.declare(format) {
                answer.fault(fault);
            }
        }
        Ok(None) => answer.word("no prefix"),
        Err(_) => answer.out_of_memory(),
    }
}

/// How many formats there are, and the prefix and the root of the second.
fn show_formats(formats: &Formats, answer: &mut Answer) {
    answer.value(formats.len());
    match formats.get(1) {
        Some(format) => {
            answer.text(format.prefix.as_str());
            answer.text(format.root.as_str());
        }
        None => answer.word("-"),
    }
}
