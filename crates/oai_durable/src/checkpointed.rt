//! A journaled handler whose journal stays short while it serves.
ghost use Rattle.oai_durable.specs.Checkpointed.{IsStepBeside};
ghost use Rattle.oai_durable.specs.Journaled.{promised};
ghost use Rattle.oai_durable.specs.declared.either.EitherJournal.TheVariants.{First, Second};
ghost use Rattle.std.specs.Prelude.{◌≡◌, None};

use crate::either::EitherJournal;
use crate::folders::{Folder, Measured};
use crate::journaled::Journaled;
use crate::online_checkpoints::OnlineCheckpoint;
use crate::steps::{Schedule, Stepped, make_step};
use oai_figures::{Exposition, Figures};
use oai_http::{Answer, Exchange, Handler, SettleFault, Settled};
use oai_journal::Journal;
use oai_replay::Replayed;
use std::marker::Model;

/// A journaled handler whose journal stays short while it serves: behind each commit a step of a checkpoint is made,
/// where one is due, and a whole one takes the place of the journal. Open lists are saved, so it changes no answer.
#[derive(Drop)]
pub struct Checkpointed<H, J, K, F> {
    journaled: Journaled<H, EitherJournal<J, K>>,
    schedule: Schedule<F>,
    /// The checkpoint that is written.
    writing: Option<OnlineCheckpoint<K>>,
    /// A new journal that was renamed over the folder's, but the folder could not be synced.
    unsynced: Option<K>,
}

impl<H, J, K, F> Model for Checkpointed<H, J, K, F> {
    ghost use Rattle.oai_durable.specs.Checkpointed.{Checkpointed as Beside};
    ghost use Rattle.oai_durable.specs.declared.either.EitherJournal.{EitherJournal as Either};

    ghost Value = { Beside H (Either J K) K };

    ghost view = { λ c. record { parts = c.journaled; writing = c.writing; unsynced = c.unsynced } };
}

impl<H: Replayed, J: Journal + Measured, K: Journal + Measured, F: Folder<K>> Checkpointed<
    H,
    J,
    K,
    F,
> {
    /// Over that handler with its journal, in that folder. No checkpoint is written.
    pub fn new(journaled: Journaled<H, J>, folder: F) -> Checkpointed<H, J, K, F>
        ensures handler { result.parts.handler ≡ journaled.handler }
        ensures journal { result.parts.journal ≡ First journaled.journal }
        ensures writing { result.writing ≡ None }
        ensures unsynced { result.unsynced ≡ None }
    {
        let schedule = Schedule::new(folder, journaled.bytes());
        Checkpointed {
            journaled: journaled.either(),
            schedule,
            writing: None,
            unsynced: None,
        }
    }

    /// Makes a step of a checkpoint, behind a commit. The error is that the folder could not be synced.
    fn step(&mut self) -> Result<(), SettleFault>
        requires { self.old.unsynced ≡ None }
        ensures { IsStepBeside (promised H.Replayed) ⟦<EitherJournal<J, K> as Journal>⟧ K.Journal H.emptied Second
            self.old.parts self.old.writing result self.new }
    {
        let writing = self.writing.take();
        match make_step(&mut self.journaled, &mut self.schedule, writing) {
            Stepped::Stays(writing) => {
                self.writing = writing;
                Ok(())
            }
            Stepped::Replaced(new, records) => {
                self.journaled.replace(EitherJournal::Second(new), records);
                Ok(())
            }
            Stepped::InDoubt(new) => {
                self.unsynced = Some(new);
                Err(SettleFault)
            }
        }
    }
}

impl<H: Replayed, J: Journal, K: Journal, F> Handler for Checkpointed<H, J, K, F> {
    ghost use Rattle.oai_durable.specs.Checkpointed.{IsExchangeBeside};
    ghost use Rattle.oai_durable.specs.Journaled.{promised};

    ghost step = { IsExchangeBeside (promised H.Replayed) ⟦<EitherJournal<J, K> as Journal>⟧ };

    fn exchange(&mut self, moment: i64, exchange: &Exchange<'_>) -> Answer {
        self.schedule.note(moment);
        self.journaled.exchange(moment, exchange)
    }
}

impl<H: Replayed, J: Journal + Measured, K: Journal + Measured, F: Folder<K>> Settled
    for Checkpointed<H, J, K, F> {
    ghost use Rattle.oai_durable.specs.Checkpointed.{IsSettledBeside};
    ghost use Rattle.oai_durable.specs.Journaled.{promised};
    ghost use Rattle.oai_durable.specs.declared.either.EitherJournal.TheVariants.{Second};

    ghost settled = { IsSettledBeside (promised H.Replayed) ⟦<EitherJournal<J, K> as Journal>⟧ K.Journal H.emptied Second };

    fn settle(&mut self) -> Result<(), SettleFault> {
        if self.unsynced.is_some() {
            return Err(SettleFault);
        }
        self.journaled.settle()?;
        self.step()
    }
}

impl<H: Figures, J: Measured, K: Measured, F> Figures for Checkpointed<H, J, K, F> {
    fn report(&self, page: &mut Exposition) {
        self.journaled.report(page);
    }
}
