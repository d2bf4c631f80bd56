//! Warnings of repositories without keys.
ghost use Rattle.std.specs.Prelude.{◌≡◌, OnOk};
ghost use Rattle.std.specs.String.{string_bytes};
ghost use Rattle.oai_answers.specs.Appends.{Appends};
ghost use Rattle.oai_keys.specs.Warnings as spec;

use crate::readings::has_ring;
use crate::rings::Ring;
use oai_config::Config;
use std::alloc::AllocError;

/// Appends a line for each repository of the configuration that has no ring, in order: deposits into it are open. The
/// error is out of memory.
pub fn write_warnings(config: &Config, rings: &[Ring], out: &mut String) -> Result<(), AllocError>
    ensures { OnOk result (Appends (string_bytes out.old) (string_bytes out.new)
        (spec.open_warnings rings.now config.now)) }
{
    for entry in config.repositories() {
        warn_of(rings, entry.name.as_str(), out)?;
    }
    Ok(())
}

/// Appends the line, unless the repository has a ring.
fn warn_of(rings: &[Ring], name: &str, out: &mut String) -> Result<(), AllocError>
    ensures { OnOk result (Appends (string_bytes out.old) (string_bytes out.new)
        (spec.warning_of rings.now name.now)) }
{
    if has_ring(rings, name) {
        Ok(())
    } else {
        write_warning(name, out)
    }
}

/// Appends the line.
#[tactic(auto, unfolding(crate::specs::Warnings::open_warning))]
fn write_warning(name: &str, out: &mut String) -> Result<(), AllocError>
    ensures { OnOk result (Appends (string_bytes out.old) (string_bytes out.new)
        (spec.open_warning name.now)) }
{
    put("warning: repository ", out)?;
    put(name, out)?;
    put(": deposits are open\n", out)?;
    Ok(())
}

/// Appends the text unchanged.
fn put(text: &str, out: &mut String) -> Result<(), AllocError>
    ensures { OnOk result (Appends (string_bytes out.old) (string_bytes out.new) text.now) }
{
    out.push_str(text)
}
