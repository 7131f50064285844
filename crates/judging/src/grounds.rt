ghost use Rattle.std.specs.Prelude.{◌≡◌, ◌&&◌};
ghost use Rattle.commands.specs.Sent.{values_of};
ghost use Rattle.fitness.specs.Fitness.{fit};
ghost use Rattle.records.specs.AnyRecords.{record_of};
ghost use Rattle.judging.specs.Conditions.{asked, needs_open, ordering, password_right, time_exists, record_kept, overlapping};

use crate::verdict::Judge;
use commands::command::{Command, Order};
use commands::kind::RecordKind;
use fitness::judging::fits;
use records::plan::Plan;
use session::Event;

// Whether the message has the code of a group order; those are not known yet.
#[tactic(auto, using(crate::proofs::Ordering::read_as_order))]
pub(crate) fn is_order(message: &[u8]) -> bool
    ensures { result ≡ ordering message.now }
{
    matches!(message, [code, ..] if Order::try_from(*code).is_ok())
}

// Whether the command is for an open session alone.
pub(crate) fn needs_open(command: &Command<'_>) -> bool
    ensures { result ≡ needs_open (asked (values_of command.now)) }
{
    !matches!(
        command,
        Command::StartSession | Command::Password(_) | Command::Heartbeat
    )
}

// Whether the values are in range, and a time to be set exists.
pub(crate) fn values_fit(command: &Command<'_>) -> bool
    ensures { result ≡ fit (values_of command.now) && time_exists (asked (values_of command.now)) }
{
    match *command {
        Command::SetTime(time) => time.judge().is_ok(),
        _ => fits(command),
    }
}

// Whether a plan, if the command sets one, has entries that share a minute.
pub(crate) fn entries_overlap(command: &Command<'_>) -> bool
    ensures { result ≡ overlapping (record_of (values_of command.now)) }
{
    match *command {
        Command::SetPlan {
            header,
            days,
            lines,
        } => Plan::new(header, days, lines).overlaps_itself(),
        _ => false,
    }
}

impl Judge<'_> {
    // Whether a password, if the command is one, opens the session.
    pub(crate) fn password_right(&self, command: &Command<'_>) -> bool
        ensures { result ≡ password_right self.now.session self.now.offsets (asked (values_of command.now)) }
    {
        match *command {
            Command::Password(word) => matches!(
                self.session.judge(word, self.offsets),
                Some(Event::RightWord)
            ),
            _ => true,
        }
    }

    // Whether a record, if the command asks for one, is stored.
    pub(crate) fn record_stored(&self, command: &Command<'_>) -> bool
        ensures { result ≡ record_kept self.now.store.now (asked (values_of command.now)) }
    {
        match *command {
            Command::StoredRecord { kind, number } => RecordKind::try_from(kind).is_ok_and(
                |kind| self.store.record_at(kind, number).is_some(),
            ),
            _ => true,
        }
    }
}
