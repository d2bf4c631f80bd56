//! The lines of an input.
ghost use Rattle.std.specs.Prelude.{◌≡◌, ◌<◌, ◌≤◌, ◌+◌, ◌-◌, ◌^◌, ◌++◌, [], ◌∷◌, drop, false, length, min, take, vec_len, IfErr, IfOk, OnOk};
ghost use Rattle.std.specs.Io.KnownBytes.{Consumes, IsAtEnd};
ghost use Rattle.std.specs.List.{position};
ghost use Rattle.oai_host.specs.Bodies.{is_line_end};
ghost use Rattle.oai_cli.specs.Inputs as spec;
ghost use Rattle.oai_startup.specs.declared.limits.TheConstants.{MAX_READS, READ_BYTES};
ghost use Rattle.oai_startup.specs.declared.stop.Stop.TheVariants.{InputFault, NoMemory};

use memchr::memchr;
use oai_startup::{MAX_READS, READ_BYTES, Stop};
use std::alloc::Global;
use std::io::Read;
use std::marker::Model;

/// The lines of an input, read one after the other: what precedes each line end, and what follows the last.
#[derive(Drop)]
pub(crate) struct Lines {
    /// What was read last.
    buffer: Vec<u8>,
    /// The range of the bytes of the buffer that were read and not returned.
    given: usize,
    filled: usize,
    /// How often the input was read.
    reads: u64,
    /// Whether all lines were returned.
    is_over: bool,
    /// The line that was read last.
    line: Vec<u8>,
    /// Its number, counted from 1.
    number: u64,
    ghost ordered: { given ≤ filled },
    ghost within: { filled ≤ vec_len buffer },
    ghost room: { vec_len buffer ≡ READ_BYTES },
    ghost counted: { reads ≤ MAX_READS },
}

impl Model for Lines {
    ghost use Rattle.std.specs.Prelude.{◌-◌, drop, take};
    ghost use Rattle.oai_cli.specs.Inputs.{Input};

    ghost Value = { Input };

    ghost view = { λ l. record {
      ahead = take (l.filled - l.given) (drop l.given l.buffer.items);
      is_over = l.is_over;
      line = l.line.items;
      number = l.number;
    } };
}

impl Lines {
    /// The lines of an input that was not read yet. The error is `NoMemory`.
    pub(crate) fn new(alloc: Global) -> Result<Lines, Stop>
        ensures begun { IfOk result (λ lines. lines ≡ spec.unread) }
        ensures err { IfErr result (λ stop. stop ≡ NoMemory) }
    {
        let Ok(buffer) = vec![in alloc; 0u8; READ_BYTES] else {
            return Err(Stop::NoMemory);
        };
        Ok(Lines {
            buffer,
            given: 0,
            filled: 0,
            reads: 0,
            is_over: false,
            line: Vec::new(alloc),
            number: 0,
        })
    }

    /// The line that was read last.
    pub(crate) fn line(&self) -> &[u8]
        ensures { result.now ≡ self.now.line }
    {
        &self.line
    }

    /// The number of the line that was read last, counted from 1.
    pub(crate) fn number(&self) -> u64
        ensures { result ≡ self.now.number }
    {
        self.number
    }

    /// Reads the next line; returns whether there is one. The errors are `InputFault`, also if the input does not end
    /// within 1,000,000 reads, and `NoMemory`.
    pub(crate) fn next<R: Read>(&mut self, reader: &mut R) -> Result<bool, Stop>
        ensures next { spec.IsNextLine (spec.left self.old (R.Read.remaining reader.old)) result
            self.new.line (spec.left self.new (R.Read.remaining reader.new)) }
        ensures number { IfOk result (λ some. self.new.number ≡ spec.numbered some self.old.number) }
        ensures err { IfErr result spec.IsUnread }
    {
        self.line.clear();
        if self.is_over {
            return Ok(false);
        }
        self.number = self.number.saturating_add(1);
        for _ in 0..=MAX_READS {
            if self.take_piece()? {
                return Ok(true);
            }
            if !self.fill(reader)? {
                self.is_over = true;
                return Ok(true);
            }
        }
        Err(Stop::InputFault)
    }

    /// Appends the unread bytes up to the line end to the line; returns whether there is one.
    fn take_piece(&mut self) -> Result<bool, Stop>
        ensures piece { spec.IsLinePiece self.old result self.new }
        ensures given { IfOk result (λ found. found ≡ false → self.new.ahead ≡ []) }
        ensures over { self.new.is_over ≡ self.old.is_over }
        ensures number { self.new.number ≡ self.old.number }
    {
        let rest = &self.buffer[self.given..self.filled];
        match line_end(rest) {
            Some(end) => {
                add(&rest[..end], &mut self.line)?;
                self.given += end + 1;
                Ok(true)
            }
            None => {
                add(rest, &mut self.line)?;
                self.given = self.filled;
                Ok(false)
            }
        }
    }

    /// Reads more, if the buffer was used up; returns whether anything came.
    fn fill<R: Read>(&mut self, reader: &mut R) -> Result<bool, Stop>
        ensures bytes { OnOk result (Consumes (R.Read.remaining reader.old)
            (R.Read.remaining reader.new) self.new.ahead) }
        ensures end { IfOk result (λ some. some ≡ false → (self.new.ahead ≡ [])
            × IsAtEnd (R.Read.remaining reader.new)) }
        ensures line { self.new.line ≡ self.old.line }
        ensures over { self.new.is_over ≡ self.old.is_over }
        ensures number { self.new.number ≡ self.old.number }
        ensures err { IfErr result (λ stop. stop ≡ InputFault) }
    {
        if self.reads >= MAX_READS {
            return Err(Stop::InputFault);
        }
        self.reads += 1;
        let Ok(count) = reader.read(&mut self.buffer) else {
            return Err(Stop::InputFault);
        };
        self.given = 0;
        self.filled = count;
        Ok(count > 0)
    }
}

/// Appends bytes to a line. The error is `NoMemory`.
fn add(bytes: &[u8], line: &mut Vec<u8>) -> Result<(), Stop>
    ensures ok { OnOk result (line.new.items ≡ line.old.items ++ bytes.now) }
    ensures err { IfErr result (λ stop. stop ≡ NoMemory) }
{
    if line.extend_from_slice(bytes).is_err() {
        return Err(Stop::NoMemory);
    }
    Ok(())
}

/// The position of the first line end.
fn line_end(text: &[u8]) -> Option<usize>
    ensures { result ≡ position is_line_end text.now }
{
    memchr(b'\n', text)
}
