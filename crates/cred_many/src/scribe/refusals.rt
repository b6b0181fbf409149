//! Lines that the scribe gives up.

ghost use Rattle.std.specs.List.{remove};
ghost use Rattle.std.specs.Prelude.{◌≡◌, None};
ghost use Rattle.cred_many.specs.{Adds.AddsNotSentAway, Adds.AddsQuick, Scribe.HasTurn, Scribe.IsBusy, Scribe.IsReady, Served.NeedsMemory, Turns.UsesTurn};

use super::{Scribe, Starved};
use crate::fault::ServiceFault;
use crate::line::Line;
use crate::service_id::ServiceId;
use cred_admin::Host;
use cred_book::BookError;
use cred_cli::Refusal;
use std::io::Write;

impl<J: ServiceId, K: Host, W: Write> Scribe<J, K, W> {
    /// Answers a line without memory for its hash.
    pub fn no_memory(&mut self, starved: Starved<J>)
        ensures turn { HasTurn starved.0.number self.old.output self.new.output }
        ensures turns { self.new.output.fault ≡ None → UsesTurn starved.0.number
            self.old.output.pending self.new.output.pending }
        ensures clock { self.new.tries ≡ self.old.tries }
        ensures going { self.new.output.fault ≡ None → self.old.output.fault ≡ None }
        ensures came { self.new.came ≡ self.old.came }
        ensures adds { AddsNotSentAway self.old self.new }
    {
        self.starve(starved.into_line());
    }

    /// Refuses a line for want of memory, unless the scribe answers no more lines.
    pub(super) fn starve(&mut self, line: Line<J>)
        requires { NeedsMemory K.capacity (K.book self.old.keeper) line.operation }
        ensures book { K.book self.new.keeper ≡ K.book self.old.keeper }
        ensures same_came { self.new.came ≡ self.old.came }
        ensures same_tries { self.new.tries ≡ self.old.tries }
        ensures turn { HasTurn line.number self.old.output self.new.output }
        ensures turns { self.new.output.fault ≡ None → UsesTurn line.number
            self.old.output.pending self.new.output.pending }
        ensures going { self.new.output.fault ≡ None → self.old.output.fault ≡ None }
        ensures adds { AddsQuick self.old self.new }
    {
        if self.output.fault.is_some() {
            return;
        }
        if let Some(place) = self.output.pending.place_of(line.number()) {
            self.refuse(place, line);
        }
    }

    /// Refuses a line for want of memory, or ends the service if the keeper has failed.
    pub(super) fn refuse(&mut self, place: usize, line: Line<J>)
        requires ready { IsReady self.old.output.fault self.old.output.pending place line.number }
        requires needs { NeedsMemory K.capacity (K.book self.old.keeper) line.operation }
        ensures book { K.book self.new.keeper ≡ K.book self.old.keeper }
        ensures same_tries { self.new.tries ≡ self.old.tries }
        ensures closed { self.new.output.fault ≡ None
            → self.new.output.pending ≡ remove self.old.output.pending place }
        ensures same_came { self.new.came ≡ self.old.came }
        ensures adds { AddsQuick self.old self.new }
    {
        if self.keeper.has_failed() {
            self.output.fault = Some(ServiceFault::Keeper);
            return;
        }
        let answer = Refusal::Book(BookError::Memory).line();
        self.output.answer(place, &line, answer);
    }

    /// Answers a line with `busy`, since other lines have changed its account's record too often.
    pub(super) fn give_up_as_busy(&mut self, place: usize, line: Line<J>)
        requires ready { IsReady self.old.output.fault self.old.output.pending place line.number }
        requires busy { IsBusy self.old.output.pending place line.operation }
        ensures closed { self.new.output.pending ≡ remove self.old.output.pending place }
        ensures same_came { self.new.came ≡ self.old.came }
        ensures same_tries { self.new.tries ≡ self.old.tries }
        ensures adds { AddsQuick self.old self.new }
    {
        self.output.answer(place, &line, Refusal::Busy.line());
    }
}
