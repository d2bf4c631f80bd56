//! A handler of a few parts, which keeps what it restores as bytes.
use oai_http::{Answer, Exchange, Handler, Status};
use oai_item::Fault;
use oai_replay::{Part, PartKind, Performed, RecordedAnswer, Replayed, SaveFault, Sink};
use std::alloc::Global;

/// A handler that saves these parts and then the fault, if there is one, and notes what it restores.
#[derive(Drop)]
pub(crate) struct Shelf<'a> {
    alloc: Global,
    parts: &'a [Part<'a>],
    fault: Option<SaveFault>,
    raise: u32,
    notes: Vec<u8>,
}

impl<'a> Shelf<'a> {
    /// A handler of these parts.
    pub(crate) fn new(alloc: Global, parts: &'a [Part<'a>], fault: Option<SaveFault>) -> Shelf<'a> {
        Shelf {
            alloc,
            parts,
            fault,
            raise: 0,
            notes: Vec::new(alloc),
        }
    }

    /// By how much the list numbers were raised that were saved last.
    pub(crate) fn raise(&self) -> u32 {
        self.raise
    }

    /// What was restored and replayed: of a part a letter, its moment in eight bytes, its name, a space, and its bytes with an LF.
    pub(crate) fn notes(&self) -> &[u8] {
        self.notes.as_slice()
    }

    /// Adds bytes to the notes.
    fn put(&mut self, bytes: &[u8]) -> Result<(), Fault> {
        for byte in bytes {
            if self.notes.push(*byte).is_err() {
                return Err(Fault::NoMemory);
            }
        }
        Ok(())
    }

    /// Notes what was restored or replayed.
    fn note(&mut self, letter: &[u8], moment: i64, name: &[u8], bytes: &[u8]) -> Result<(), Fault> {
        self.put(letter)?;
        self.put(&moment.to_be_bytes())?;
        self.put(name)?;
        self.put(b" ")?;
        self.put(bytes)?;
        self.put(b"\n")
    }
}

/// A letter for the kind of a part.
fn letter_of(kind: PartKind) -> &'static [u8] {
    match kind {
        PartKind::Begin => b"B",
        PartKind::Set => b"S",
        PartKind::Item => b"I",
        PartKind::List => b"L",
        PartKind::Gone => b"G",
    }
}

impl Handler for Shelf<'_> {
    ghost step = { λ old moment asked answer new. Unit };

    fn exchange(&mut self, _moment: i64, _exchange: &Exchange<'_>) -> Answer {
        Answer::of_status(self.alloc, Status::NotFound)
    }
}

impl Replayed for Shelf<'_> {
    ghost use Rattle.oai_http.specs.Answers.{answered};
    ghost use Rattle.oai_http.specs.declared.statuses.Status.TheVariants.{NotFound};
    ghost use Rattle.std.specs.Prelude.{[], false, refl};

    ghost Kept = { Unit };

    ghost kept = { λ shelf. tt };

    ghost is_honest = { λ shelf. false };

    ghost redone = { λ kept call. kept };

    ghost reply = { λ kept call. answered NotFound };

    fn exchange_recorded<'a>(
        &mut self,
        moment: i64,
        exchange: &Exchange<'a>,
    ) -> RecordedAnswer<'a> {
        RecordedAnswer {
            answer: self.exchange(moment, exchange),
            performed: None,
        }
    }

    fn redo(&mut self, moment: i64, performed: &Performed<'_>) -> Result<(), Fault> {
        self.note(b"P", moment, performed.name, performed.bytes)
    }

    ghost restored = { λ kept part. kept };

    ghost parts = { λ kept. [] };

    ghost ended = { λ raise kept. kept };

    ghost emptied = { λ kept. kept };

    fn restore(&mut self, part: &Part<'_>) -> Result<(), Fault> {
        if part.bytes.is_empty() {
            return Err(Fault::Damaged);
        }
        self.note(letter_of(part.kind), part.moment, part.name, part.bytes)
    }

    fn save<S: Sink>(&mut self, raise: u32, sink: &mut S) -> Result<(), SaveFault> {
        self.raise = raise;
        for part in self.parts {
            if let Err(fault) = sink.add(part) {
                return Err(SaveFault::Sink(fault));
            }
        }
        match self.fault {
            Some(fault) => Err(fault),
            None => Ok(()),
        }
    }

    ghost saves = { λ shelf kept parts. Unit };

    fn begin_saving(&mut self) -> Result<(), Fault> {
        Ok(())
    }

    fn save_next<S: Sink>(&mut self, _sink: &mut S) -> Result<bool, SaveFault> {
        Ok(false)
    }

    fn stop_saving(&mut self) {}

    ghost same_redone = { λ kept call. refl };

    ghost same_restored = { λ kept part. refl };
}
