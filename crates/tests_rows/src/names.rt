//! Names and their grammars, characters and escapes, and the sets of a repository.
use crate::answers::Answer;
use crate::rows::Row;
use oai_names::{
    Identifier, NameFault, Prefix, Sequence, SetFault, SetSpec, SetTree, Text, escape_attr,
    escape_text, is_set_spec, is_xml_text, parent_of,
};
use std::alloc::Global;

/// Adds what the row is answered.
pub(crate) fn answer(alloc: Global, row: &Row<'_>, answer: &mut Answer) {
    match row.call {
        "Prefix::read" => read_prefix(alloc, row.text(0), answer),
        "Identifier::read" => read_identifier(alloc, row.text(0), answer),
        "SetSpec::read" => read_set_spec(alloc, row.text(0), answer),
        "SetSpec::covers" => covers(alloc, row.text(0), row.text(1), answer),
        "Text::new" => new_text(alloc, row.text(0), answer),
        "Text::into_string" => into_string(alloc, row.text(0), row.text(1), answer),
        "Sequence::into_vec" => into_vec(alloc, row.bytes(0), answer),
        "NameFault::NoMemory" => answer.fault(NameFault::NoMemory),
        "SetFault::NoMemory" => answer.fault(SetFault::NoMemory),
        "is_set_spec" => answer.is(is_set_spec(row.text(0))),
        "is_xml_text" => answer.is(is_xml_text(row.text(0))),
        "parent_of" => answer.text_or_none(parent_of(row.text(0))),
        _ => other_answer(alloc, row, answer),
    }
}

/// Adds what an escape or a tree of sets is answered.
fn other_answer(alloc: Global, row: &Row<'_>, answer: &mut Answer) {
    match row.call {
        "escape_text" => escaped_text(alloc, row.text(0), answer),
        "escape_attr" => escaped_attr(alloc, row.text(0), answer),
        "SetTree::has" => {
            let sets = tree_of(alloc, row, 1, answer);
            has(alloc, &sets, row.text(0), answer);
        }
        "SetTree::add" => {
            let sets = tree_of(alloc, row, 0, answer);
            show_sets(&sets, 0, answer);
        }
        "SetTree::get" => {
            let sets = tree_of(alloc, row, 0, answer);
            show_sets(&sets, 9_999, answer);
        }
        _ => answer.word("no such call"),
    }
}

/// The prefix that is read, and a copy of it.
fn read_prefix(alloc: Global, text: &str, answer: &mut Answer) {
    match Prefix::read(alloc, text) {
        Ok(prefix) => {
            answer.text(prefix.as_str());
            match prefix.copy(alloc) {
                Ok(copy) => answer.text(copy.as_str()),
                Err(_) => answer.out_of_memory(),
            }
        }
        Err(fault) => answer.fault(fault),
    }
}

/// The identifier that is read, and a copy of it.
fn read_identifier(alloc: Global, text: &str, answer: &mut Answer) {
    match Identifier::read(alloc, text) {
        Ok(identifier) => {
            answer.text(identifier.as_str());
            match identifier.copy(alloc) {
                Ok(copy) => answer.text(copy.as_str()),
                Err(_) => answer.out_of_memory(),
            }
        }
        Err(fault) => answer.fault(fault),
    }
}

/// The setSpec that is read, and a copy of it.
fn read_set_spec(alloc: Global, text: &str, answer: &mut Answer) {
    match SetSpec::read(alloc, text) {
        Ok(spec) => {
            answer.text(spec.as_str());
            match spec.copy(alloc) {
                Ok(copy) => answer.text(copy.as_str()),
                Err(_) => answer.out_of_memory(),
            }
        }
        Err(fault) => answer.fault(fault),
    }
}

/// Whether the one setSpec covers the other.
fn covers(alloc: Global, set: &str, other: &str, answer: &mut Answer) {
    match (SetSpec::read(alloc, set), SetSpec::read(alloc, other)) {
        (Ok(set), Ok(other)) => answer.is(set.covers(&other)),
        _ => answer.word("no setSpec"),
    }
}

/// The text, and a copy of it.
fn new_text(alloc: Global, text: &str, answer: &mut Answer) {
    match Text::new(alloc, text) {
        Ok(text) => {
            answer.text(text.as_str());
            match text.copy(alloc) {
                Ok(copy) => answer.text(copy.as_str()),
                Err(_) => answer.out_of_memory(),
            }
        }
        Err(_) => answer.out_of_memory(),
    }
}

/// The text, and the text made of its string once more was put behind that.
fn into_string(alloc: Global, text: &str, more: &str, answer: &mut Answer) {
    let Ok(string) = String::from_str(alloc, text) else {
        return answer.out_of_memory();
    };
    let text = Text::from_string(string);
    answer.text(text.as_str());
    let mut string = text.into_string();
    match string.push_str(more) {
        Ok(()) => answer.text(Text::from_string(string).as_str()),
        Err(_) => answer.out_of_memory(),
    }
}

/// The values of a sequence, and those of the vector that it becomes.
fn into_vec(alloc: Global, bytes: &[u8], answer: &mut Answer) {
    match Vec::from_slice(alloc, bytes) {
        Ok(values) => {
            let sequence = Sequence::new(values);
            answer.bytes(sequence.as_slice());
            answer.bytes(sequence.into_vec().as_slice());
        }
        Err(_) => answer.out_of_memory(),
    }
}

/// The text as it is written behind a byte that stands there.
fn escaped_text(alloc: Global, text: &str, answer: &mut Answer) {
    let Ok(mut out) = Vec::from_slice(alloc, b"-") else {
        return answer.out_of_memory();
    };
    match escape_text(text, &mut out) {
        Ok(()) => answer.text(str::from_utf8(out.as_slice()).unwrap_or("no UTF-8")),
        Err(_) => answer.out_of_memory(),
    }
}

/// The text as it is written in an attribute, behind a byte that stands there.
fn escaped_attr(alloc: Global, text: &str, answer: &mut Answer) {
    let Ok(mut out) = Vec::from_slice(alloc, b"-") else {
        return answer.out_of_memory();
    };
    match escape_attr(text, &mut out) {
        Ok(()) => answer.text(str::from_utf8(out.as_slice()).unwrap_or("no UTF-8")),
        Err(_) => answer.out_of_memory(),
    }
}

/// A tree of sets, to which those in the arguments from that place on were added, each its setSpec and, behind a `=`, its name.
/// Adds to the answer why one was refused.
fn tree_of(alloc: Global, row: &Row<'_>, from: usize, answer: &mut Answer) -> SetTree {
    let mut sets = SetTree::new(alloc);
    for at in from..row.len() {
        let (spec, name) = row.text(at).split_once('=').unwrap_or(("", ""));
        add_set(alloc, &mut sets, spec, name, answer);
    }
    sets
}

/// Adds the set to the tree, or to the answer why it is refused.
fn add_set(alloc: Global, sets: &mut SetTree, spec: &str, name: &str, answer: &mut Answer) {
    match SetSpec::read(alloc, spec) {
        Ok(spec) => {
            if let Err(fault) = sets.add(&spec, name) {
                answer.fault(fault);
            }
        }
        Err(fault) => answer.fault(fault),
    }
}

/// Whether the tree has the set.
fn has(alloc: Global, sets: &SetTree, spec: &str, answer: &mut Answer) {
    match SetSpec::read(alloc, spec) {
        Ok(spec) => answer.is(sets.has(&spec)),
        Err(fault) => answer.fault(fault),
    }
}

/// How many sets the tree has, and the setSpec and the name of each from that place on.
fn show_sets(sets: &SetTree, from: usize, answer: &mut Answer) {
    answer.value(sets.len());
    for at in from..10_001 {
        match sets.get(at) {
            Some((spec, name)) => {
                answer.text(spec.as_str());
                answer.text(name);
            }
            None => break,
        }
    }
}
