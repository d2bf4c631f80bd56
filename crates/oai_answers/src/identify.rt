ghost use Rattle.std.specs.Prelude.{◌≡◌, ◌++◌, OnOk, codes};
ghost use Rattle.std.specs.List.{flat_map};
ghost use Rattle.oai_time.specs.Stamp.{IsWritable};
ghost use Rattle.oai_time.specs.TimeTexts.{datestamp_text};
ghost use Rattle.oai_answers.specs.Appends.{Appends};
ghost use Rattle.oai_answers.specs.Borrowed.{description_of};
ghost use Rattle.oai_answers.specs.Documents.{deleted_text, granularity_text, identify_element};
ghost use Rattle.oai_answers.specs.Markup.{element, plain, text_element};

use crate::dates::datestamp_element;
use crate::markup::{containers, end, plain_element, start, text_element, text_elements};
use crate::tags::Tag;
use oai_item::DeletedRecord;
use oai_names::Text;
use oai_time::Granularity;
use std::alloc::AllocError;

/// What Identify returns besides the base URL of a repository (OAI-PMH 2.0, section 4.2).
#[derive(Clone, Copy, Debug)]
pub struct Identity<'a> {
    /// The repository's name.
    pub name: &'a str,
    /// The addresses of the administrators.
    pub addresses: &'a [Text],
    /// The earliestDatestamp, in seconds from 1970 on.
    pub earliest: i64,
    /// The policy on deleted records.
    pub deleted: DeletedRecord,
    /// The granularity of the datestamps.
    pub granularity: Granularity,
    /// The elements that describe the repository, in canonical text.
    pub descriptions: &'a [Text],
}

/// Appends the element `Identify`.
pub(crate) fn write_identify(
    base: &str,
    identity: &Identity<'_>,
    out: &mut Vec<u8>,
) -> Result<(), AllocError>
    requires { IsWritable identity.now.earliest }
    ensures { OnOk result (Appends out.old.items out.new.items
        (identify_element base.now (description_of identity.now))) }
{
    start("Identify", out)?;
    write_names(base, identity, out)?;
    write_rules(identity, out)?;
    containers("description", identity.descriptions, out)?;
    end("Identify", out)?;
    Ok(())
}

/// Appends the elements `repositoryName`, `baseURL`, `protocolVersion` and `adminEmail`.
fn write_names(base: &str, identity: &Identity<'_>, out: &mut Vec<u8>) -> Result<(), AllocError>
    ensures { OnOk result (Appends out.old.items out.new.items
        (text_element (codes "repositoryName") identity.now.name.now
        ++ text_element (codes "baseURL") base.now
        ++ element (codes "protocolVersion") (plain (codes "2.0"))
        ++ flat_map (text_element (codes "adminEmail")) identity.now.addresses.now)) }
{
    text_element("repositoryName", identity.name, out)?;
    text_element("baseURL", base, out)?;
    plain_element("protocolVersion", "2.0", out)?;
    text_elements("adminEmail", identity.addresses, out)?;
    Ok(())
}

/// Appends the elements `earliestDatestamp`, `deletedRecord` and `granularity`.
fn write_rules(identity: &Identity<'_>, out: &mut Vec<u8>) -> Result<(), AllocError>
    requires { IsWritable identity.now.earliest }
    ensures { OnOk result (Appends out.old.items out.new.items
        (element (codes "earliestDatestamp") (datestamp_text identity.now.granularity identity.now.earliest)
        ++ element (codes "deletedRecord") (plain (deleted_text identity.now.deleted))
        ++ element (codes "granularity") (plain (granularity_text identity.now.granularity)))) }
{
    datestamp_element(
        Tag::EarliestDatestamp,
        identity.granularity,
        identity.earliest,
        out,
    )?;
    plain_element("deletedRecord", policy_text(identity.deleted), out)?;
    plain_element("granularity", granularity_text(identity.granularity), out)?;
    Ok(())
}

/// The word of the protocol for the policy.
fn policy_text(deleted: DeletedRecord) -> &'static str
    ensures { result.now ≡ deleted_text deleted }
{
    match deleted {
        DeletedRecord::No => "no",
        DeletedRecord::Transient => "transient",
        DeletedRecord::Persistent => "persistent",
    }
}

/// The word of the protocol for the granularity.
fn granularity_text(granularity: Granularity) -> &'static str
    ensures { result.now ≡ granularity_text granularity }
{
    match granularity {
        Granularity::Day => "YYYY-MM-DD",
        Granularity::Second => "YYYY-MM-DDThh:mm:ssZ",
    }
}
