ghost use Rattle.std.specs.Prelude.{◌≡◌, ◌<◌, [], get_or, vec_len, true, length, nat_le, nat_lt, position, slice_get, IfSome, IsSome};
ghost use Rattle.std.specs.List.{find, list_all, remove};
ghost use Rattle.oai_lists.specs.declared.open_lists.OpenList.{OpenList as Opened};
ghost use Rattle.std.specs.Option.{option_copied, option_map};
ghost use Rattle.oai_lists.specs.HeldTable.{IsListPlace, earlier};
ghost use Rattle.oai_lists.specs.OpenLists.{IsEarliest, IsListOpening, IsListTable, IsReopening, may_reopen, number_or_fault, are_numbered_lists, has_ended, highest_given, kept_open, open_fault, open_numbered, open_ones, opened_list, with_change, without_ended};

use crate::open_lists::{Mark, NewList, OpenList};
use std::alloc::Global;
use std::marker::Model;
use thiserror::Error;

/// The number that no list gets.
pub const LAST_NUMBER: u64 = 18_446_744_073_709_551_615;

/// Why no list was opened, in the order in which the causes are tested.
#[derive(Clone, Copy, Debug, PartialEq, Eq, Error)]
pub enum OpenListFault {
    /// As many lists are open as the limit allows.
    #[error("too many lists are open")]
    Full,
    /// No number is left.
    #[error("no number is left for a list")]
    NumbersSpent,
    /// Out of memory.
    #[error("out of memory")]
    NoMemory,
}

/// Why a list was not put back, in the order in which the causes are tested.
#[derive(Clone, Copy, Debug, PartialEq, Eq, Error)]
pub enum ReopenFault {
    /// Its number is not above those of the lists that are held, or not below the next one.
    #[error("the number of the list is out of order")]
    OutOfOrder,
    /// Out of memory.
    #[error("out of memory")]
    NoMemory,
}

/// The open lists of a repository, and some that have ended and are not dropped yet, in the order in which they were
/// opened. A number is never used again.
#[derive(Debug, Drop)]
pub struct Lists {
    limit: u64,
    next: u64,
    earliest: i64,
    lists: Vec<OpenList>,
}

impl Model for Lists {
    ghost use Rattle.oai_lists.specs.OpenLists.{Table};

    ghost Value = { Table };

    ghost use Rattle.oai_lists.specs.HeldTable.{IsHeldTable};
    ghost use Rattle.oai_lists.specs.Inside.{table_in};

    ghost view = { table_in };

    ghost invariant = { λ lists. IsHeldTable (table_in lists) lists.earliest };
}

impl Lists {
    /// An empty table. At most `limit` lists are open at once, and the first gets the number `next`. Allocates nothing.
    pub fn new(alloc: Global, limit: u64, next: u64) -> Lists
        ensures { result ≡ record { limit = limit; next = next; lists = [] } }
    {
        Lists {
            limit,
            next,
            earliest: i64::MAX,
            lists: Vec::new(alloc),
        }
    }

    /// The number that `open` would return at `now`, in seconds from 1970 on, or its error, except `NoMemory`.
    /// Allocates nothing. It scans the lists only if as many are held as may be open, and one of them may have ended.
    #[tactic(auto, unfolding(crate::specs::OpenLists::open_fault))]
    pub fn next(&self, now: i64) -> Result<u64, OpenListFault>
        ensures { result ≡ number_or_fault (open_fault self.now now) self.now.next }
    {
        if self.is_full(now) {
            return Err(OpenListFault::Full);
        }
        if self.next == LAST_NUMBER {
            return Err(OpenListFault::NumbersSpent);
        }
        Ok(self.next)
    }

    /// Opens the list at `now`, in seconds from 1970 on, and returns its number, which is the next one. The error is the
    /// first cause of `OpenListFault` that applies, and the lists are unchanged. It scans the lists only if `next` does,
    /// and allocates space for one more list.
    pub fn open(&mut self, now: i64, list: NewList) -> Result<u64, OpenListFault>
        ensures opened { IsListOpening self.old now (opened_list self.old.next list) result self.new }
        ensures valid { IsListTable self.old }
    {
        let number = match self.next(now) {
            Ok(number) => number,
            Err(fault) => return Err(fault),
        };
        let end = list.end;
        match self.lists.push(opened_list(list, number)) {
            Ok(()) => {}
            Err(_) => return Err(OpenListFault::NoMemory),
        }
        self.next = number + 1;
        self.earliest = self.earliest.min(end);
        Ok(number)
    }

    /// Whether a list with that number may be put back: the number is above those of the lists that are held, and below
    /// the next one.
    pub fn may_reopen(&self, number: u64) -> bool
        ensures { result ≡ may_reopen self.now number }
    {
        is_above_all(self.lists.as_slice(), number) && number < self.next
    }

    /// Puts a list back that was open before, behind those that are held, with its number and all else that it had. It
    /// does not look at the limit: where more lists are then open than may be, `open` returns `Full` until enough of
    /// them have ended. The error is the first cause of `ReopenFault` that applies, and the lists are unchanged. It
    /// allocates space for one more list.
    pub fn reopen(&mut self, list: OpenList) -> Result<(), ReopenFault>
        ensures reopened { IsReopening self.old list result self.new }
        ensures valid { IsListTable self.old }
    {
        if !self.may_reopen(list.number) {
            return Err(ReopenFault::OutOfOrder);
        }
        let end = list.end;
        match self.lists.push(list) {
            Ok(()) => {}
            Err(_) => return Err(ReopenFault::NoMemory),
        }
        self.earliest = self.earliest.min(end);
        Ok(())
    }

    /// The list with that number, if its end is above `now`, in seconds from 1970 on, and its position, as `get` counts.
    /// Allocates nothing. Binary search, O(log n).
    pub fn find(&self, number: u64, now: i64) -> Option<(usize, &OpenList)>
        ensures found { option_map (λ r. r.1.now) result ≡ open_numbered number now self.now.lists }
        ensures placed { IfSome result (λ r. slice_get self.now.lists r.0 ≡ Some r.1.now) }
        ensures valid { IsListTable self.now }
    {
        match place_of(self.lists.as_slice(), number) {
            Some(at) => {
                let list = &self.lists[at];
                if now < list.end {
                    Some((at, list))
                } else {
                    None
                }
            }
            None => None,
        }
    }

    /// The list at that position among those that are held, in the order of their numbers, those that have ended and are
    /// not dropped yet among them. Allocates nothing.
    pub fn get(&self, at: usize) -> Option<&OpenList>
        ensures { option_copied result ≡ slice_get self.now.lists at }
    {
        self.lists.get(at)
    }

    /// Notes that a part of the list at that position was answered: it ends at `end`, in seconds from 1970 on, the cursor
    /// `next` of the part's token was given too, if there is one, and its mark is `mark`, or none. Allocates nothing.
    /// O(1).
    pub fn carry_on(&mut self, at: usize, end: i64, next: Option<u64>, mark: Option<Mark>)
        requires { IsSome (slice_get self.old.lists at) }
        ensures { (list : Opened) → slice_get self.old.lists at ≡ Some list → self.new
            ≡ record self.old { lists = with_change list.number (kept_open end next mark) self.old.lists } }
    {
        let list = &mut self.lists[at];
        list.end = end;
        list.given = highest_given(next, list.given);
        list.mark = mark;
        self.earliest = self.earliest.min(end);
    }

    /// Drops the first list whose end is at or below `now`, in seconds from 1970 on, and returns the number of its
    /// version, which the caller then releases. None if no list has ended. Allocates nothing. It scans the lists only
    /// if one of them may have ended.
    pub fn expire(&mut self, now: i64) -> Option<u64>
        ensures version { result
            ≡ option_map (λ list. list.version) (find (has_ended now) self.old.lists) }
        ensures left { self.new ≡ record self.old { lists = without_ended now self.old.lists } }
    {
        if now < self.earliest {
            return None;
        }
        match ended_at(self.lists.as_slice(), now) {
            Some(at) => Some(drop_at(&mut self.lists, at)),
            None => {
                self.earliest = earliest(self.lists.as_slice(), now).unwrap_or(i64::MAX);
                None
            }
        }
    }

    /// The earliest end among the lists that are open at `now`, or None if none is open. Both moments are in seconds
    /// from 1970 on. Allocates nothing. O(n).
    pub fn earliest_end(&self, now: i64) -> Option<i64>
        ensures { IsEarliest (open_ones now self.now.lists) result }
    {
        earliest(self.lists.as_slice(), now)
    }

    /// The number that the next list gets; the last one of 64 bits is never used.
    pub fn next_number(&self) -> u64
        ensures { result ≡ self.now.next }
    {
        self.next
    }

    /// How many lists are held, including those that have ended and are not dropped yet.
    pub fn len(&self) -> usize
        ensures count { result ≡ length self.now.lists }
        ensures valid { IsListTable self.now }
    {
        self.lists.len()
    }

    /// Whether as many lists are open at `now` as the limit allows.
    fn is_full(&self, now: i64) -> bool
        ensures { result ≡ nat_le self.now.limit (length (open_ones now self.now.lists)) }
    {
        let held = self.lists.len() as u64;
        if held < self.limit {
            return false;
        }
        if now < self.earliest {
            return true;
        }
        self.limit <= open_among(self.lists.as_slice(), now)
    }
}

/// The list with that number.
fn opened_list(list: NewList, number: u64) -> OpenList
    ensures { result ≡ opened_list number list }
{
    OpenList {
        number,
        verb: list.verb,
        filter: list.filter,
        version: list.version,
        size: list.size,
        end: list.end,
        given: list.given,
        mark: list.mark,
    }
}

/// The highest cursor given, if `given` is the highest so far and `next` is given too, if there is one.
fn highest_given(next: Option<u64>, given: u64) -> u64
    ensures { result ≡ highest_given next given }
{
    match next {
        Some(cursor) => given.max(cursor),
        None => given,
    }
}

/// Whether the number is above those of the lists, which rise.
fn is_above_all(lists: &[OpenList], number: u64) -> bool
    requires { are_numbered_lists lists.now ≡ true }
    ensures { result ≡ list_all (λ list. nat_lt list.number number) lists.now }
{
    match lists.last() {
        Some(last) => last.number < number,
        None => true,
    }
}

/// The position of the list with that number, by binary search: the numbers rise. None if no list has it.
fn place_of(lists: &[OpenList], number: u64) -> Option<usize>
    requires { are_numbered_lists lists.now ≡ true }
    ensures { IsListPlace number lists.now result }
{
    match lists.binary_search_by_key(&number, |list| list.number) {
        Ok(at) => Some(at),
        Err(_) => None,
    }
}

/// The position of the first list whose end is at or below `now`; None if no list has ended.
fn ended_at(lists: &[OpenList], now: i64) -> Option<usize>
    ensures { result ≡ position (has_ended now) lists.now }
{
    lists.iter().position(|list| list.end <= now)
}

/// Drops the list at that position, and returns the number of its version.
fn drop_at(lists: &mut Vec<OpenList>, at: usize) -> u64
    requires { at < vec_len lists.old }
    ensures version { (list : Opened) → result ≡ (get_or lists.old.items at list).version }
    ensures left { lists.new.items ≡ remove lists.old.items at }
{
    lists.remove(at).version
}

/// The earliest end among the lists whose end is above `now`, or None if there is none.
fn earliest(lists: &[OpenList], now: i64) -> Option<i64>
    ensures { IsEarliest (open_ones now lists.now) result }
{
    let mut earliest = None;
    for list in lists {
        if now < list.end {
            earliest = Some(earlier(earliest, list.end));
        }
    }
    earliest
}

/// The earlier of two moments, of which the first may be missing.
fn earlier(first: Option<i64>, second: i64) -> i64
    ensures { result ≡ earlier first second }
{
    match first {
        Some(first) => first.min(second),
        None => second,
    }
}

/// How many of the lists have an end above `now`.
fn open_among(lists: &[OpenList], now: i64) -> u64
    ensures { result ≡ length (open_ones now lists.now) }
{
    lists.iter().filter(|list| now < list.end).count() as u64
}
