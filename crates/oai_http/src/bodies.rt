//! The media types of message bodies.
ghost use Rattle.std.specs.Prelude.{◌≡◌};
ghost use Rattle.std.specs.Option.{option_copied};
ghost use Rattle.oai_http.specs.Bodies as spec;

use crate::bytes::len_before;
use crate::texts::trim;

/// The media type of a form: that of a POST request (OAI-PMH 2.0, section 3.1.1.2).
pub const FORM: &[u8] = b"application/x-www-form-urlencoded";

/// Whether a body is a form, by the value of the field Content-Type: its media type is `FORM`, ignoring parameters,
/// white space around it and case. Without the field it is not.
pub fn is_form(content_type: Option<&[u8]>) -> bool
    ensures { result ≡ spec.is_form (option_copied content_type.entry) }
{
    match content_type {
        Some(value) => is_form_type(value),
        None => false,
    }
}

/// Whether it is the media type of a form, whatever its parameters.
fn is_form_type(value: &[u8]) -> bool
    ensures { result ≡ spec.is_form_type value.now }
{
    media_type(value).eq_ignore_ascii_case(FORM)
}

/// The media type without its parameters.
fn media_type(value: &[u8]) -> &[u8]
    ensures { result.now ≡ spec.media_type value.now }
{
    trim(&value[..len_before(b';', value)])
}
