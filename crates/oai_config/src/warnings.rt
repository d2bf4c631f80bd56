//! Warnings: what in a configuration makes documents invalid by the schema of OAI-PMH, or is of no use to a harvester.
ghost use Rattle.std.specs.Prelude.{◌≡◌, OnOk, true, false};
ghost use Rattle.std.specs.List.{flat_map, list_all};
ghost use Rattle.std.specs.String.{string_bytes};
ghost use Rattle.oai_answers.specs.Appends.{Appends};
ghost use Rattle.oai_names.specs.Names.{is_uri_byte};
ghost use Rattle.oai_item.specs.Rules.{is_space};
ghost use Rattle.oai_config.specs.Warnings as spec;

use crate::config::{Config, NamedConfig};
use oai_item::Format;
use oai_names::{Text, may_be_identifier};
use std::alloc::AllocError;

/// Appends the warnings of a configuration, each a line: for each repository in order, of its base URL, its addresses,
/// and its formats, for each of these of the schema, the namespace and the root. Nothing if all is well. The error is
/// out of memory.
pub fn write_warnings(config: &Config, out: &mut String) -> Result<(), AllocError>
    ensures { OnOk result (Appends (string_bytes out.old) (string_bytes out.new)
        (spec.warnings_of config.now)) }
{
    for entry in config.repositories() {
        warn_of_repository(entry, out)?;
    }
    Ok(())
}

/// Appends the warnings of a repository.
#[tactic(auto, unfolding(crate::specs::Warnings::repository_warnings))]
fn warn_of_repository(entry: &NamedConfig, out: &mut String) -> Result<(), AllocError>
    ensures { OnOk result (Appends (string_bytes out.old) (string_bytes out.new)
        (spec.repository_warnings entry.now)) }
{
    let name = entry.name.as_str();
    warn_unless(is_url(entry.config.base()), name, "base URL is no URL", out)?;
    warn_of_addresses(name, entry.config.addresses(), out)?;
    warn_of_formats(name, entry.config.formats().as_slice(), out)?;
    Ok(())
}

/// Appends a warning for each text that is no address.
fn warn_of_addresses(name: &str, addresses: &[Text], out: &mut String) -> Result<(), AllocError>
    ensures { OnOk result (Appends (string_bytes out.old) (string_bytes out.new)
        (flat_map (spec.address_warning name.now) addresses.now)) }
{
    for address in addresses {
        warn_of_address(name, address, out)?;
    }
    Ok(())
}

/// Appends a warning, if the text is no address.
fn warn_of_address(name: &str, address: &Text, out: &mut String) -> Result<(), AllocError>
    ensures { OnOk result (Appends (string_bytes out.old) (string_bytes out.new)
        (spec.address_warning name.now address.now)) }
{
    warn_unless(
        is_address(address.as_str()),
        name,
        "adminEmail is no address",
        out,
    )
}

/// Appends the warnings of each format.
fn warn_of_formats(name: &str, formats: &[Format], out: &mut String) -> Result<(), AllocError>
    ensures { OnOk result (Appends (string_bytes out.old) (string_bytes out.new)
        (flat_map (spec.format_warnings name.now) formats.now)) }
{
    for format in formats {
        warn_of_format(name, format, out)?;
    }
    Ok(())
}

/// Appends the warnings of a format.
#[tactic(auto, unfolding(crate::specs::Warnings::format_warnings))]
fn warn_of_format(name: &str, format: &Format, out: &mut String) -> Result<(), AllocError>
    ensures { OnOk result (Appends (string_bytes out.old) (string_bytes out.new)
        (spec.format_warnings name.now format.now)) }
{
    let passes = is_url(format.schema.as_str());
    warn_of(passes, name, format, "schema is no URL", out)?;
    warn_of_namespace(name, format, out)?;
    let passes = !is_xml_name(format.root.as_str());
    warn_of(passes, name, format, "root begins with xml", out)?;
    Ok(())
}

/// Appends the warnings of a format's namespace.
#[tactic(auto, unfolding(crate::specs::Warnings::namespace_warnings))]
fn warn_of_namespace(name: &str, format: &Format, out: &mut String) -> Result<(), AllocError>
    ensures { OnOk result (Appends (string_bytes out.old) (string_bytes out.new)
        (spec.namespace_warnings name.now format.now)) }
{
    let passes = may_be_identifier(format.namespace.as_str());
    warn_of(passes, name, format, "namespace is no URI", out)?;
    let passes = is_free(format.namespace.as_str());
    warn_of(passes, name, format, "namespace is kept for others", out)?;
    Ok(())
}

/// Appends a warning about a repository, unless the test passes.
fn warn_unless(passes: bool, name: &str, what: &str, out: &mut String) -> Result<(), AllocError>
    ensures { OnOk result (Appends (string_bytes out.old) (string_bytes out.new)
        (spec.warning_unless passes name.now what.now)) }
{
    if passes {
        Ok(())
    } else {
        write_warning(name, what, out)
    }
}

/// Appends a warning about a format of a repository, unless the test passes.
fn warn_of(
    passes: bool,
    name: &str,
    format: &Format,
    what: &str,
    out: &mut String,
) -> Result<(), AllocError>
    ensures { OnOk result (Appends (string_bytes out.old) (string_bytes out.new)
        (spec.format_warning_unless passes name.now format.now what.now)) }
{
    if passes {
        Ok(())
    } else {
        write_format_warning(name, format.prefix.as_str(), what, out)
    }
}

/// Appends a line about a repository.
#[tactic(auto, unfolding(crate::specs::Warnings::warning))]
fn write_warning(name: &str, what: &str, out: &mut String) -> Result<(), AllocError>
    ensures { OnOk result (Appends (string_bytes out.old) (string_bytes out.new)
        (spec.warning name.now what.now)) }
{
    put_named("warning: repository ", name, out)?;
    put_line(what, out)?;
    Ok(())
}

/// Appends a line about the format with that prefix of a repository.
#[tactic(auto, unfolding(crate::specs::Warnings::format_warning))]
fn write_format_warning(
    name: &str,
    prefix: &str,
    what: &str,
    out: &mut String,
) -> Result<(), AllocError>
    ensures { OnOk result (Appends (string_bytes out.old) (string_bytes out.new)
        (spec.format_warning name.now prefix.now what.now)) }
{
    put_named("warning: repository ", name, out)?;
    put_named("format ", prefix, out)?;
    put_line(what, out)?;
    Ok(())
}

/// Appends the kind of a thing, its name, a colon and a space.
#[tactic(auto, unfolding(crate::specs::Warnings::named))]
fn put_named(what: &str, name: &str, out: &mut String) -> Result<(), AllocError>
    ensures { OnOk result (Appends (string_bytes out.old) (string_bytes out.new)
        (spec.named what.now name.now)) }
{
    put(what, out)?;
    put(name, out)?;
    put(": ", out)?;
    Ok(())
}

/// Appends the text and a line end.
#[tactic(auto, unfolding(crate::specs::Warnings::text_line))]
fn put_line(text: &str, out: &mut String) -> Result<(), AllocError>
    ensures { OnOk result (Appends (string_bytes out.old) (string_bytes out.new)
        (spec.text_line text.now)) }
{
    put(text, out)?;
    put("\n", out)?;
    Ok(())
}

/// Appends the text unchanged.
fn put(text: &str, out: &mut String) -> Result<(), AllocError>
    ensures { OnOk result (Appends (string_bytes out.old) (string_bytes out.new) text.now) }
{
    out.push_str(text)
}

/// Whether a harvester may send requests to the text: a URL of `http` or `https` with a host.
#[tactic(auto, unfolding(crate::specs::Warnings::is_url, crate::specs::Warnings::is_at_host))]
fn is_url(text: &str) -> bool
    ensures { result ≡ spec.is_url text.now }
{
    match text.split_once(':') {
        Some((scheme, rest)) => is_web_scheme(scheme) && is_at_host(rest),
        None => false,
    }
}

fn is_web_scheme(scheme: &str) -> bool
    ensures { result ≡ spec.is_web_scheme scheme.now }
{
    scheme == "http" || scheme == "https"
}

/// Whether the text is two slashes and one or more characters of a URI.
#[tactic(auto, unfolding(crate::specs::Warnings::is_at_host))]
fn is_at_host(text: &str) -> bool
    ensures { result ≡ spec.is_at_host text.now }
{
    if text.len() <= 2 {
        return false;
    }
    if !are_uri_bytes(text) {
        return false;
    }
    text.as_bytes().starts_with(b"//")
}

fn are_uri_bytes(text: &str) -> bool
    ensures { result ≡ list_all is_uri_byte text.now }
{
    text.as_bytes().iter().all(|b| is_uri_byte(*b))
}

fn is_uri_byte(b: u8) -> bool
    ensures { result ≡ is_uri_byte b }
{
    b.is_ascii_alphanumeric() || b"-._~:/?#[]@!$&'()*+,;=%".contains(&b)
}

/// Whether the text is an address: a name, an at sign, and a host of two parts or more, without white space.
#[tactic(auto, unfolding(crate::specs::Warnings::is_address, crate::specs::Warnings::has_two_parts))]
fn is_address(text: &str) -> bool
    ensures { result ≡ spec.is_address text.now }
{
    if has_space(text) {
        return false;
    }
    match text.split_once('@') {
        Some((name, host)) => !name.is_empty() && has_two_parts(host),
        None => false,
    }
}

/// Whether the text has something before the first dot, and after it.
#[tactic(auto, unfolding(crate::specs::Warnings::has_two_parts))]
fn has_two_parts(host: &str) -> bool
    ensures { result ≡ spec.has_two_parts host.now }
{
    match host.split_once('.') {
        Some((first, rest)) => !first.is_empty() && !rest.is_empty(),
        None => false,
    }
}

fn has_space(text: &str) -> bool
    ensures { result ≡ spec.has_space text.now }
{
    text.as_bytes().iter().any(|b| is_space(*b))
}

fn is_space(b: u8) -> bool
    ensures { result ≡ is_space b }
{
    b == 32 || b == 9 || b == 13 || b == 10
}

/// Whether a namespace is not a reserved one.
fn is_free(namespace: &str) -> bool
    ensures { result ≡ spec.is_unreserved_namespace namespace.now }
{
    namespace != "http://www.w3.org/XML/1998/namespace"
        && namespace != "http://www.w3.org/2000/xmlns/"
        && namespace != "http://www.openarchives.org/OAI/2.0/"
}

/// Whether a name begins with `xml`, in upper or lower case.
#[tactic(auto, unfolding(crate::specs::Warnings::is_xml_name))]
fn is_xml_name(name: &str) -> bool
    ensures { result ≡ spec.is_xml_name name.now }
{
    match name.as_bytes() {
        [first, second, third, ..] => {
            first.to_ascii_lowercase() == b'x'
                && second.to_ascii_lowercase() == b'm'
                && third.to_ascii_lowercase() == b'l'
        }
        _ => false,
    }
}
