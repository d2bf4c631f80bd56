ghost use Rattle.std.specs.Prelude.{OnOk, map};
ghost use Rattle.std.specs.List.{flat_map};
ghost use Rattle.oai_answers.specs.Answers.{described_set, described_sets};
ghost use Rattle.oai_answers.specs.Appends.{Appends};
ghost use Rattle.oai_answers.specs.Documents.{set_element, sets_element};

use crate::markup::{containers, end, start, text_element};
use oai_names::{SetSpec, Text};
use oai_xml::NamedElements;
use std::alloc::AllocError;

/// Sets, as ListSets returns them (OAI-PMH 2.0, section 4.6).
#[derive(Clone, Copy, Debug)]
pub struct DescribedSets<'a> {
    /// The setSpec and the name of each, in order.
    pub sets: &'a [(SetSpec, Text)],
    /// The elements that describe sets, each list under a setSpec.
    pub described: &'a NamedElements,
}

/// Appends the element `ListSets`.
#[tactic(auto, unfolding(crate::specs::Documents::sets_element, crate::specs::Markup::element))]
pub(crate) fn write_list_sets(
    listed: &DescribedSets<'_>,
    out: &mut Vec<u8>,
) -> Result<(), AllocError>
    ensures { OnOk result (Appends out.old.items out.new.items
        (sets_element (described_sets listed.now.described.now listed.now.sets.now))) }
{
    start("ListSets", out)?;
    write_sets(listed.described, listed.sets, out)?;
    end("ListSets", out)?;
    Ok(())
}

/// Appends the sets, in order.
fn write_sets(
    described: &NamedElements,
    sets: &[(SetSpec, Text)],
    out: &mut Vec<u8>,
) -> Result<(), AllocError>
    ensures { OnOk result (Appends out.old.items out.new.items
        (flat_map set_element (described_sets described.now sets.now))) }
{
    for set in sets {
        write_set(described, set, out)?;
    }
    Ok(())
}

/// Appends the element `set`.
#[tactic(auto, unfolding(crate::specs::Documents::set_element, crate::specs::Markup::element))]
fn write_set(
    described: &NamedElements,
    set: &(SetSpec, Text),
    out: &mut Vec<u8>,
) -> Result<(), AllocError>
    ensures { OnOk result (Appends out.old.items out.new.items
        (set_element (described_set described.now set.now))) }
{
    let descriptions = described.find(set.0.as_str());
    start("set", out)?;
    text_element("setSpec", set.0.as_str(), out)?;
    text_element("setName", set.1.as_str(), out)?;
    containers("setDescription", descriptions, out)?;
    end("set", out)?;
    Ok(())
}
