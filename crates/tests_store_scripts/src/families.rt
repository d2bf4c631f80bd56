//! Families of items, whose members are named by a number: `five/3`.
use crate::samples::{Sample, sized};

/// The member of that number.
pub(crate) fn member(family: &str, number: u32) -> Sample {
    match family {
        "five" => of_five_pages(number),
        "anew" => anew(number),
        "group" => of_groups(number),
        "some" => of_long_and_small(number),
        "large" => sized(number, number.saturating_mul(10), 16_000),
        "between" => sized(number.saturating_add(90), 12, 900),
        "even" => twice(number, 2),
        "tens" => twice(number, 20),
        "before" => of_a_page(99_999u32.saturating_sub(number), number),
        "amid" => of_a_page(
            (number.saturating_mul(7) % 1_000).saturating_add(100_000),
            number,
        ),
        "behind" => of_a_page(number.saturating_add(200_000), number),
        _ => sized(number, number / 3, 0),
    }
}

/// An item of 200 bytes, with a number free between it and the next, and of a datestamp so many times later.
fn twice(number: u32, times: u32) -> Sample {
    sized(number.saturating_mul(2), number.saturating_mul(times), 200)
}

/// An item of 15,900 bytes, and so many more.
fn of_a_page(number: u32, more: u32) -> Sample {
    sized(number, number, more.saturating_add(15_900) as usize)
}

/// An item of 4,000 bytes; every second one is in the set, and two in three are in `jnl`, of the first five all.
fn of_five_pages(number: u32) -> Sample {
    Sample {
        in_set: number % 2 == 0,
        in_jnl: number < 5 || number % 3 != 0,
        ..sized(number, later(number), 4_000)
    }
}

/// Its datestamp, so many seconds later than the first one, from 3 to 15: the last item of the second page and the first one of the
/// third have the same, and so have all of the fourth; none has 12.
fn later(number: u32) -> u32 {
    match number {
        0..=5 => number.saturating_add(3),
        6..=8 => number.saturating_add(2),
        9..=11 => 11,
        _ => number.saturating_add(1),
    }
}

/// That item once it was deposited anew.
fn anew(number: u32) -> Sample {
    sized(number, number.saturating_add(40), 4_000)
}

/// An item of 9,000 bytes, which has a page of its own: every third one is in the set, and all but some of the second group of 256
/// pages are in `jnl`. Two have the same datestamp.
fn of_groups(number: u32) -> Sample {
    Sample {
        in_set: number % 3 == 0,
        in_jnl: number < 300 || number >= 350,
        ..sized(number, number / 2, 9_000)
    }
}

/// One in three has overflow pages, and of these all but one in four are wide; each way of being in the set and in `jnl` comes with
/// each size.
fn of_long_and_small(number: u32) -> Sample {
    Sample {
        in_set: number % 2 == 0,
        in_jnl: number / 6 % 2 == 0,
        wide: number % 4 != 3,
        ..sized(number, number / 4, size_of(number))
    }
}

fn size_of(number: u32) -> usize {
    if number % 3 == 1 {
        number.saturating_mul(700).saturating_add(17_000) as usize
    } else {
        0
    }
}
