ghost use Rattle.std.specs.Prelude.{OnOk};
ghost use Rattle.oai_answers.specs.Answers.{HasWritableEnd};
ghost use Rattle.oai_answers.specs.Appends.{Appends};
ghost use Rattle.oai_answers.specs.Borrowed.{continuation_of, page_of};
ghost use Rattle.oai_answers.specs.Documents.{identifiers_element, records_element};

use crate::headers::write_headers;
use crate::markup::{end, start};
use crate::records::write_records;
use crate::tokens::{Resumption, write_token};
use oai_item::{Format, Item};
use oai_time::Granularity;
use std::alloc::AllocError;

/// A list of items, whole or a part of it, as ListIdentifiers and ListRecords return it (OAI-PMH 2.0, section 3.5).
#[derive(Clone, Copy, Debug)]
pub struct Listed<'a> {
    /// The items, in order.
    pub items: &'a [Item],
    /// The granularity of the repository's datestamps.
    pub granularity: Granularity,
    /// How the list continues after them.
    pub resumption: Resumption<'a>,
}

/// Appends the element `ListIdentifiers` (OAI-PMH 2.0, section 4.3).
#[tactic(auto, unfolding(crate::specs::Documents::identifiers_element, crate::specs::Markup::element))]
pub(crate) fn write_list_identifiers(list: &Listed<'_>, out: &mut Vec<u8>) -> Result<(), AllocError>
    requires { HasWritableEnd (continuation_of list.now.resumption) }
    ensures { OnOk result (Appends out.old.items out.new.items
        (identifiers_element (page_of list.now))) }
{
    start("ListIdentifiers", out)?;
    write_headers(list.granularity, list.items, out)?;
    write_token(&list.resumption, out)?;
    end("ListIdentifiers", out)?;
    Ok(())
}

/// Appends the element `ListRecords` (OAI-PMH 2.0, section 4.5).
#[tactic(auto, unfolding(crate::specs::Documents::records_element, crate::specs::Markup::element))]
pub(crate) fn write_list_records(
    format: &Format,
    list: &Listed<'_>,
    out: &mut Vec<u8>,
) -> Result<(), AllocError>
    requires { HasWritableEnd (continuation_of list.now.resumption) }
    ensures { OnOk result (Appends out.old.items out.new.items
        (records_element format.now (page_of list.now))) }
{
    start("ListRecords", out)?;
    write_records(list.granularity, format, list.items, out)?;
    write_token(&list.resumption, out)?;
    end("ListRecords", out)?;
    Ok(())
}
