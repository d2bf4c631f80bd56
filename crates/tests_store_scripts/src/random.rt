//! Calls that a seed determines.
use crate::beside::Pair;
use crate::counts::Counted;
use crate::lines::{number, word};
use crate::names::name_of;
use crate::samples::Sample;
use oai_catalogue::Versions;
use std::alloc::{AllocError, Global};
use std::io::{self, Write};

/// A generator of numbers: those of a linear congruential one of 64 bits, by their upper halves.
#[derive(Clone, Copy, Debug, PartialEq, Eq)]
pub(crate) struct Random {
    state: u64,
    long: bool,
}

/// Performs a thousand calls that the seed determines, with long items, where the second word is `long`: no more pages are used
/// than there are items in both lists, or, where these may have overflow pages, at most four, than five times as many.
pub(crate) fn random_calls<V: Versions + Drop + Counted>(
    pair: &mut Pair<V>,
    text: &str,
    out: &mut Vec<u8>,
) -> io::Result<()> {
    let mut random = Random::new(u64::from(number(word(text, 0))), word(text, 1) == "long");
    for _ in 0..1_000 {
        let line = random.line(pair.alloc)?;
        call_and_count(pair, line.as_str(), random.long, out)?;
    }
    Ok(())
}

fn call_and_count<V: Versions + Drop + Counted>(
    pair: &mut Pair<V>,
    line: &str,
    long: bool,
    out: &mut Vec<u8>,
) -> io::Result<()> {
    pair.call(line, out)?;
    pair.few(if long { 5 } else { 1 }, out)
}

impl Random {
    /// The numbers that the seed determines. Long items all have one datestamp; of them one in eight has overflow pages, and every
    /// second one is wide.
    pub(crate) fn new(seed: u64, long: bool) -> Random {
        Random { state: seed, long }
    }

    /// The next number.
    pub(crate) fn number(&mut self) -> u32 {
        self.state = self
            .state
            .wrapping_mul(6_364_136_223_846_793_005)
            .wrapping_add(1_442_695_040_888_963_407);
        let [a, b, c, d, _, _, _, _] = self.state.to_be_bytes();
        u32::from_be_bytes([a, b, c, d])
    }

    /// An item of one of sixty keys, of which three after one another have one datestamp; one in eight is large, and one in three
    /// of middle size.
    fn sample(&mut self) -> Sample {
        let number = self.number() % 60;
        Sample {
            number,
            later: if self.long { 0 } else { number / 3 },
            bytes: self.size(),
            letter: [b'a', b'b'][self.number() as usize % 2],
            in_set: self.number() % 2 == 0,
            in_other: false,
            in_jnl: self.number() % 4 > 0,
            wide: self.long && self.number() % 2 == 0,
        }
    }

    fn size(&mut self) -> usize {
        match self.number() % 24 {
            0..=2 if self.long => self.long_size(),
            0..=2 => 15_990 + self.number() as usize % 11,
            3..=10 => 3_000 + self.number() as usize % 3_000,
            _ => 0,
        }
    }

    /// About the last byte that fits on a leaf page, or on an overflow page; or on some more pages.
    fn long_size(&mut self) -> usize {
        match self.number() % 4 {
            0 => 15_999 + self.number() as usize % 4,
            1 => 16_983 + self.number() as usize % 4,
            2 => 33_367 + self.number() as usize % 4,
            _ => 16_001 + self.number() as usize % 50_000,
        }
    }

    /// A call: of eighteen twelve put, take out or replace, four ask for something, and two change lists.
    fn line(&mut self, alloc: Global) -> Result<String, AllocError> {
        let mut line = String::new(alloc);
        self.push_call(alloc, &mut line)?;
        Ok(line)
    }

    fn push_call(&mut self, alloc: Global, line: &mut String) -> Result<(), AllocError> {
        match self.number() % 18 {
            0..=5 => self.push_item(alloc, "put", line),
            6..=7 => self.push_item(alloc, "remove", line),
            8..=11 => self.push_replacement(alloc, line),
            12..=15 => self.push_question(alloc, line),
            _ => line.push_str(self.turning()),
        }
    }

    /// A call with an item.
    fn push_item(
        &mut self,
        alloc: Global,
        verb: &str,
        line: &mut String,
    ) -> Result<(), AllocError> {
        let item = name_of(alloc, self.sample())?;
        write!(line, "{verb} {}", item.as_str())
    }

    fn push_replacement(&mut self, alloc: Global, line: &mut String) -> Result<(), AllocError> {
        self.push_item(alloc, "replace", line)?;
        let item = name_of(alloc, self.sample())?;
        write!(line, " {}", item.as_str())
    }

    /// A call that asks for something.
    fn push_question(&mut self, alloc: Global, line: &mut String) -> Result<(), AllocError> {
        let skip = self.number() % 30;
        match self.number() % 4 {
            0 => self.push_item(alloc, "find", line),
            1 => self.push_asked("count", line),
            2 => {
                self.push_asked("part", line)?;
                write!(line, " {skip} {}", self.number() % 30)
            }
            _ => self.push_part_after(alloc, skip, line),
        }
    }

    fn push_part_after(
        &mut self,
        alloc: Global,
        most: u32,
        line: &mut String,
    ) -> Result<(), AllocError> {
        self.push_asked("after", line)?;
        let key = name_of(alloc, self.sample())?;
        write!(line, " {} {most}", key.as_str())
    }

    /// What is asked of a list: items of any datestamp or of some, and often of a set or in a format.
    fn push_asked(&mut self, verb: &str, line: &mut String) -> Result<(), AllocError> {
        let in_set = self.number() % 3 == 0;
        let in_jnl = self.number() % 3 == 0;
        if self.number() % 2 == 0 {
            write!(line, "{verb} all")?;
        } else {
            let from = self.number() % 20;
            write!(line, "{verb} {from}..{}", self.number() % 20)?;
        }
        line.push_str(if in_set { "+x" } else { "" })?;
        line.push_str(if in_jnl { "+jnl" } else { "" })
    }

    /// A call that changes lists as a whole.
    fn turning(&mut self) -> &'static str {
        match self.number() % 8 {
            0 => "renew",
            1..=4 => "turn",
            _ => "freeze",
        }
    }
}
