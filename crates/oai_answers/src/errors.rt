ghost use Rattle.std.specs.Prelude.{◌≡◌, OnOk};
ghost use Rattle.oai_answers.specs.Appends.{Appends};
ghost use Rattle.oai_answers.specs.Documents.{code_of, error_element, message_of};

use crate::markup::{end, plain_attribute, put, put_tag_end};
use std::alloc::AllocError;

/// Why a request failed (OAI-PMH 2.0, section 3.6).
#[derive(Clone, Copy, Debug, PartialEq, Eq)]
pub enum ErrorCode {
    /// The verb is missing, repeated or no verb of the protocol.
    BadVerb,
    /// An argument is illegal, missing, repeated or has illegal syntax.
    BadArgument,
    /// The resumptionToken is invalid or has expired.
    BadResumptionToken,
    /// The item, or the repository, does not have that metadata format.
    CannotDisseminateFormat,
    /// No item has that identifier.
    IdDoesNotExist,
    /// No record has that format, set and dates.
    NoRecordsMatch,
    /// The item has no metadata formats.
    NoMetadataFormats,
    /// The repository has no sets.
    NoSetHierarchy,
}

impl ErrorCode {
    /// The name of the error in the protocol.
    fn code(self) -> &'static str
        ensures { result.now ≡ code_of self }
    {
        match self {
            ErrorCode::BadVerb => "badVerb",
            ErrorCode::BadArgument => "badArgument",
            ErrorCode::BadResumptionToken => "badResumptionToken",
            ErrorCode::CannotDisseminateFormat => "cannotDisseminateFormat",
            ErrorCode::IdDoesNotExist => "idDoesNotExist",
            ErrorCode::NoRecordsMatch => "noRecordsMatch",
            ErrorCode::NoMetadataFormats => "noMetadataFormats",
            ErrorCode::NoSetHierarchy => "noSetHierarchy",
        }
    }

    /// The error in words.
    fn message(self) -> &'static str
        ensures { result.now ≡ message_of self }
    {
        match self {
            ErrorCode::BadVerb => "The verb is missing, repeated or illegal.",
            ErrorCode::BadArgument =>
                "An argument is illegal, missing, repeated or of illegal syntax.",
            ErrorCode::BadResumptionToken => "The resumption token is invalid or has expired.",
            ErrorCode::CannotDisseminateFormat => "The metadata format is not available.",
            ErrorCode::IdDoesNotExist => "No item has this identifier.",
            ErrorCode::NoRecordsMatch => "No records match.",
            ErrorCode::NoMetadataFormats => "The item has no metadata formats.",
            ErrorCode::NoSetHierarchy => "The repository has no sets.",
        }
    }
}

/// Appends the element `error`.
#[tactic(auto, unfolding(crate::specs::Documents::error_element))]
pub(crate) fn write_error(code: ErrorCode, out: &mut Vec<u8>) -> Result<(), AllocError>
    ensures { OnOk result (Appends out.old.items out.new.items (error_element code)) }
{
    put("<error", out)?;
    plain_attribute("code", code.code(), out)?;
    put_tag_end(out)?;
    put(code.message(), out)?;
    end("error", out)?;
    Ok(())
}
