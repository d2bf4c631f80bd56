ghost use Rattle.std.specs.Prelude.{◌≡◌, ◌&&◌, ◌==◌, false, IfOk};
ghost use Rattle.oai_xml.specs.Documents as spec;

use std::alloc::{AllocError, Global};

/// The bytes with each line end as LF (section 2.11).
#[tactic(auto, unfolding(crate::specs::Documents::lines))]
pub(crate) fn normalized(alloc: Global, bytes: &[u8]) -> Result<Vec<u8>, AllocError>
    ensures { IfOk result (λ lines. lines.items ≡ spec.normalized bytes.now) }
{
    let mut lines = Vec::with_capacity(alloc, bytes.len())?;
    let mut behind_cr = false;
    for b in bytes {
        if *b == b'\r' {
            lines.push(b'\n')?;
        } else if !is_second(behind_cr, *b) {
            lines.push(*b)?;
        }
        behind_cr = *b == b'\r';
    }
    Ok(lines)
}

/// How many of the bytes stand before those of which, with each line end as LF, there are so many.
#[tactic(auto, unfolding(crate::specs::Documents::origin))]
pub(crate) fn origin(bytes: &[u8], count: usize) -> usize
    ensures { result ≡ spec.origin false bytes.now count }
{
    let mut left = count;
    let mut behind_cr = false;
    for (i, b) in bytes.iter().enumerate() {
        if !is_second(behind_cr, *b) {
            if left == 0 {
                return i;
            }
            left -= 1;
        }
        behind_cr = *b == b'\r';
    }
    bytes.len()
}

/// Whether the byte is the second one of CR LF.
fn is_second(behind_cr: bool, b: u8) -> bool
    ensures { result ≡ (behind_cr && b == 10) }
{
    behind_cr && b == b'\n'
}
