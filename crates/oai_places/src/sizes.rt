ghost use Rattle.std.specs.Prelude.{◌≡◌, ◌+◌, ◌*◌};
ghost use Rattle.oai_device.specs.declared.devices.TheConstants.{PAGE_BYTES};

/// How many bytes of a page are left for the entries of its items: all but those of their number.
pub const MAX_ENTRY_BYTES: usize = 16_380;

/// The maximum length of an encoded item that fits on the page of its entry. A longer one has overflow pages.
pub const MAX_WHOLE_BYTES: usize = 16_000;

/// How many bytes of a longer encoded item are on the page of its entry: the first ones. The others are on overflow
/// pages.
pub const HEAD_BYTES: usize = 600;

/// The maximum number of overflow pages of an item.
pub const MAX_OVERFLOW_PAGES: usize = 64;

/// The length of a number on a page in bytes.
pub const NUMBER_BYTES: usize = 4;

/// The bytes before the identifier of an encoded item: whether it is live, and its datestamp.
pub(crate) const STAMP_BYTES: usize = 9;

/// How many bytes of a page are used if its item has overflow pages: two numbers, and the first bytes of the encoded
/// item.
pub const FRONT_BYTES: usize = 608;

/// To how many bytes a page is filled at the end of a list, where items come in order, and where pages are merged: nine
/// tenths.
pub const FULL_BYTES: usize = 14_742;

/// The most leaves of a directory that one change replaces: one, and its two neighbours.
pub const MAX_REPLACED: usize = 3;

/// The sizes in numbers, since definitions read them by their names. A theorem, proved by an empty function.
pub fn size_law()
    ensures entries { MAX_ENTRY_BYTES ≡ 16_380 }
    ensures page { MAX_ENTRY_BYTES + NUMBER_BYTES ≡ PAGE_BYTES }
    ensures whole { MAX_WHOLE_BYTES ≡ 16_000 }
    ensures head { HEAD_BYTES ≡ 600 }
    ensures front { FRONT_BYTES ≡ HEAD_BYTES + 2 * NUMBER_BYTES }
    ensures overflow { MAX_OVERFLOW_PAGES ≡ 64 }
{}
