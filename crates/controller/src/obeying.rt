ghost use Rattle.std.specs.Prelude.{◌≡◌, ℕ};
ghost use Rattle.commands.specs.Sent.{values_of};
ghost use Rattle.judging.specs.Judgements.{judgement, accepted};
ghost use Rattle.controller.specs.Messages.{obeyed, carried_out};

use crate::common::Common;
use commands::command::Command;
use judging::effects::session_after;
use judging::rejection::Rejection;
use records::any_record::AnyRecord;

impl Common {
    // Carries out an accepted command, but for what it is to the session.
    fn carry_out(&mut self, command: &Command<'_>)
        ensures { self.new ≡ carried_out (values_of command.now) self.old }
    {
        match *command {
            Command::SetTime(time) => {
                let _ = self.clock.set(time);
            }
            Command::EmptyFaultLog => self.faults.journal.clear(),
            _ => {
                if let Some(kept) = AnyRecord::of(command) {
                    self.store.put(kept);
                }
            }
        }
    }

    // Does what a verdict asks.
    pub fn obey(&mut self, verdict: &Result<Command<'_>, Rejection>)
        ensures { self.new ≡ obeyed (judgement verdict.now) self.old }
    {
        self.session = session_after(self.session, self.tick_byte, verdict);
        if let Ok(command) = verdict {
            self.carry_out(command);
        }
    }
}
