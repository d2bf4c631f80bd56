//! A store beside a plain one: each call is made at both, and written where they answer it otherwise.
use crate::calls::{call, item_count};
use crate::counts::{Counted, Counts};
use crate::lines::{behind_word, number, word};
use crate::lists::TwoLists;
use crate::orders::{each_in_order, grow, put_three_pages};
use crate::random::random_calls;
use oai_catalogue::{PlainVersions, Versions};
use std::alloc::Global;
use std::io::{self, Write};

/// Two lists of a plain store, and two of another one.
#[derive(Drop)]
pub(crate) struct Pair<V: Versions + Drop> {
    pub(crate) alloc: Global,
    plain: TwoLists<PlainVersions>,
    paged: TwoLists<V>,
}

impl<V: Versions + Drop + Counted> Pair<V> {
    /// Empty lists, the other ones of that store.
    pub(crate) fn new(alloc: Global, store: V) -> Option<Pair<V>> {
        match TwoLists::new(PlainVersions::new(alloc)) {
            Some(plain) => Pair::of(alloc, plain, store),
            None => None,
        }
    }

    fn of(alloc: Global, plain: TwoLists<PlainVersions>, store: V) -> Option<Pair<V>> {
        match TwoLists::new(store) {
            Some(paged) => Some(Pair {
                alloc,
                plain,
                paged,
            }),
            None => None,
        }
    }

    /// What the store counts.
    pub(crate) fn counts(&self) -> Counts {
        self.paged.store().counts()
    }

    /// Performs the line: a call, or several, or one of which something is counted.
    pub(crate) fn perform(&mut self, line: &str, out: &mut Vec<u8>) -> io::Result<()> {
        let rest = behind_word(line);
        match word(line, 0) {
            "used" => self.used(rest, out),
            "cost" => self.cost(rest, out),
            "within" => self.within(rest, out),
            "few" => self.few(number(rest) as usize, out),
            "lists" => self.lists(out),
            "each" => each_in_order(self, rest, out),
            "three-pages" => put_three_pages(self, rest, out),
            "random" => random_calls(self, rest, out),
            "grow" => grow(self, out),
            _ => self.call(line, out),
        }
    }

    /// Makes the call at both, and adds what each answers, if that is not the same or no call can be made.
    pub(crate) fn call(&mut self, line: &str, out: &mut Vec<u8>) -> io::Result<()> {
        let mut found = Vec::new(self.alloc);
        call(self.alloc, &mut self.paged, line, &mut found)?;
        self.compare(line, found.as_slice(), out)
    }

    /// Makes the call at the plain store, which answers it so.
    fn compare(&mut self, line: &str, found: &[u8], out: &mut Vec<u8>) -> io::Result<()> {
        let mut wanted = Vec::new(self.alloc);
        call(self.alloc, &mut self.plain, line, &mut wanted)?;
        if found == wanted.as_slice() && found.starts_with(b"ok") {
            return Ok(());
        }
        write_otherwise(line, found, wanted.as_slice(), out)
    }

    /// The same. Where the device fails, all is as before, and the call is answered at the second time.
    pub(crate) fn call_again(&mut self, line: &str, out: &mut Vec<u8>) -> io::Result<()> {
        let used = self.counts().used;
        let mut found = Vec::new(self.alloc);
        call(self.alloc, &mut self.paged, line, &mut found)?;
        if found.as_slice() != b"the device failed\n".as_slice() {
            return self.compare(line, found.as_slice(), out);
        }
        self.as_before(used, out)?;
        self.call(line, out)
    }

    /// So many pages are used, and both lists are of the same items.
    fn as_before(&mut self, used: usize, out: &mut Vec<u8>) -> io::Result<()> {
        let now = self.counts().used;
        if now != used {
            writeln!(out, "{now} used in place of {used}")?;
        }
        self.lists(out)
    }

    /// Both lists are of the same items in either store.
    fn lists(&mut self, out: &mut Vec<u8>) -> io::Result<()> {
        self.call("list", out)?;
        self.call("turn", out)?;
        self.call("list", out)?;
        self.call("turn", out)
    }

    /// Makes the call, and adds how many pages are then used.
    fn used(&mut self, line: &str, out: &mut Vec<u8>) -> io::Result<()> {
        if !line.is_empty() {
            self.call(line, out)?;
            write!(out, "{line}: ")?;
        }
        writeln!(out, "{} used", self.counts().used)
    }

    /// Makes the call, and adds how many pages it reads from the device and writes to it.
    fn cost(&mut self, line: &str, out: &mut Vec<u8>) -> io::Result<()> {
        let before = self.counts();
        self.call(line, out)?;
        write_cost(line, before, self.counts(), out)
    }

    /// Makes the call behind two numbers, and adds whether it reads at most so many pages, and writes at most so many.
    fn within(&mut self, text: &str, out: &mut Vec<u8>) -> io::Result<()> {
        let line = behind_word(behind_word(text));
        let before = self.counts();
        self.call(line, out)?;
        let after = self.counts();
        if is_within(text, before, after) {
            return writeln!(out, "{line}: within");
        }
        write_cost(line, before, after, out)
    }

    /// No more pages are used than so many times the items of both lists.
    pub(crate) fn few(&mut self, most: usize, out: &mut Vec<u8>) -> io::Result<()> {
        let own = item_count(self.alloc, &mut self.plain);
        self.plain.turn();
        let other = item_count(self.alloc, &mut self.plain);
        self.plain.turn();
        let used = self.counts().used;
        if used <= own.saturating_add(other).saturating_mul(most) {
            return Ok(());
        }
        writeln!(out, "{used} used by {own} and {other} items")
    }
}

fn write_otherwise(line: &str, found: &[u8], wanted: &[u8], out: &mut Vec<u8>) -> io::Result<()> {
    write!(out, "otherwise: {line}: ")?;
    out.write_all(found)?;
    write!(out, "in place of: ")?;
    out.write_all(wanted)
}

fn write_cost(line: &str, before: Counts, after: Counts, out: &mut Vec<u8>) -> io::Result<()> {
    let reads = after.reads.saturating_sub(before.reads);
    let writes = after.writes.saturating_sub(before.writes);
    writeln!(out, "{line}: {reads} read, {writes} written")
}

/// Whether at most so many pages were read, and at most so many written, as the first two words say.
fn is_within(text: &str, before: Counts, after: Counts) -> bool {
    let reads = after.reads.saturating_sub(before.reads);
    let writes = after.writes.saturating_sub(before.writes);
    reads <= u64::from(number(word(text, 0))) && writes <= u64::from(number(word(text, 1)))
}
