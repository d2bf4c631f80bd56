//! Tests of all bytes of a text, many at a time.
ghost use Rattle.std.specs.Prelude.{◌≡◌, ◌+◌, ◌≤◌, ℕ, Bool, length};
ghost use Rattle.std.specs.List.{list_all};

/// The length of the blocks in which a long text is tested.
const BLOCK: usize = 64;

/// A test of a byte.
pub trait ByteTest {
    ghost passes: { ℕ → Bool };

    /// Whether the byte passes. Each comparison is made, so that there is no branch.
    fn passes(b: u8) -> bool
        ensures { result ≡ passes b };
}

/// Whether each byte passes. A test of so many bytes as the compiler knows is vectorized, so a text is tested in such
/// parts, which may overlap: no bytes are left to be tested one by one.
#[inline(never)]
pub fn all_pass<T: ByteTest>(bytes: &[u8]) -> bool
    ensures { result ≡ list_all T.passes bytes.now }
{
    match bytes.len() {
        64.. => pass_in_blocks::<T>(bytes),
        32.. => pass_at_ends::<T>(32, bytes),
        16.. => pass_at_ends::<T>(16, bytes),
        8.. => pass_at_ends::<T>(8, bytes),
        4.. => pass_at_ends::<T>(4, bytes),
        _ => pass::<T>(bytes),
    }
}

/// The same of a long text, in blocks and the last block.
fn pass_in_blocks<T: ByteTest>(bytes: &[u8]) -> bool
    requires { BLOCK ≤ length bytes.now }
    ensures { result ≡ list_all T.passes bytes.now }
{
    let last = bytes.len() - BLOCK;
    let mut passed = true;
    let mut at = 0;
    while at < last {
        passed = passed & pass::<T>(&bytes[at..at + BLOCK]);
        at += BLOCK;
    }
    passed & pass::<T>(&bytes[last..])
}

/// The same of a text of `len` bytes or up to twice as many: the first and the last `len` bytes.
#[inline(always)]
fn pass_at_ends<T: ByteTest>(len: usize, bytes: &[u8]) -> bool
    requires within { len ≤ length bytes.now }
    requires enough { length bytes.now ≤ len + len }
    ensures { result ≡ list_all T.passes bytes.now }
{
    pass::<T>(&bytes[..len]) & pass::<T>(&bytes[bytes.len() - len..])
}

/// The same, byte by byte. The loop ends only at the last byte, so that it can be vectorized.
#[inline(always)]
fn pass<T: ByteTest>(bytes: &[u8]) -> bool
    ensures { result ≡ list_all T.passes bytes.now }
{
    let mut passed = true;
    for b in bytes {
        passed = passed & T::passes(*b);
    }
    passed
}
