ghost use Rattle.std.specs.Prelude.{OnOk, codes};
ghost use Rattle.std.specs.List.{flat_map};
ghost use Rattle.oai_answers.specs.Appends.{Appends};
ghost use Rattle.oai_answers.specs.Documents.{header_element, header_start};

use crate::dates::datestamp_element;
use crate::markup::{put, set_specs};
use crate::tags::{Tag, close, tagged_text};
use oai_item::Item;
use oai_time::Granularity;
use std::alloc::AllocError;

/// Appends the element `header` of each item, in order.
pub(crate) fn write_headers(
    granularity: Granularity,
    items: &[Item],
    out: &mut Vec<u8>,
) -> Result<(), AllocError>
    ensures { OnOk result (Appends out.old.items out.new.items
        (flat_map (header_element granularity) items.now)) }
{
    for item in items {
        write_header(granularity, item, out)?;
    }
    Ok(())
}

/// Appends the element `header` (OAI-PMH 2.0, section 2.5).
#[tactic(auto, unfolding(crate::specs::Documents::header_element))]
pub(crate) fn write_header(
    granularity: Granularity,
    item: &Item,
    out: &mut Vec<u8>,
) -> Result<(), AllocError>
    ensures { OnOk result (Appends out.old.items out.new.items
        (header_element granularity item.now)) }
{
    write_header_start(item.is_live(), out)?;
    tagged_text(Tag::Identifier, item.identifier().as_str(), out)?;
    datestamp_element(Tag::Datestamp, granularity, item.stamp(), out)?;
    set_specs(item.sets(), out)?;
    close(Tag::Header, out)?;
    Ok(())
}

/// Appends the start tag of `header`, with its status if the record is deleted.
fn write_header_start(is_live: bool, out: &mut Vec<u8>) -> Result<(), AllocError>
    ensures { OnOk result (Appends out.old.items out.new.items (header_start is_live)) }
{
    if is_live {
        put("<header>", out)
    } else {
        put("<header status=\"deleted\">", out)
    }
}
