ghost use Rattle.std.specs.Prelude.{◌≡◌, ℕ, true, List};
ghost use Rattle.commands.specs.Sent.{values_of, parsed};
ghost use Rattle.fitness.specs.Fitness.{fit};
ghost use Rattle.records.specs.AnyRecords.{record_of, bytes_of, GivesBack, Bytes};
ghost use Rattle.records.specs.Writing.{room_for, laid};

use crate::frame::Frame;
use crate::message::Message;
use crate::plan::Plan;
use commands::command::Command;

// A record of any kind.
#[derive(Clone, Copy)]
pub enum AnyRecord {
    Frame(Frame),
    Message(Message),
    Plan(Plan),
}

fn set_by(command: &Command<'_>) -> Option<AnyRecord>
    ensures { result ≡ record_of (values_of command.now) }
{
    match *command {
        Command::SetText {
            header,
            font,
            colour,
            conspicuity,
            text,
        } => {
            let frame = Frame::text(header, font, colour, conspicuity, text);
            Some(AnyRecord::Frame(frame))
        }
        Command::SetGraphic {
            header,
            rows,
            columns,
            conspicuity,
            picture,
        } => {
            let frame = Frame::graphic(header, rows, columns, conspicuity, picture);
            Some(AnyRecord::Frame(frame))
        }
        Command::SetMessage { header, spans } => {
            Some(AnyRecord::Message(Message { header, spans }))
        }
        Command::SetPlan {
            header,
            days,
            lines,
        } => Some(AnyRecord::Plan(Plan::new(header, days, lines))),
        _ => None,
    }
}

impl AnyRecord {
    // The record that a storing command sets; other commands set none. No `TryFrom`, since that is no error.
    pub fn of(command: &Command<'_>) -> Option<AnyRecord>
        ensures value { result ≡ record_of (values_of command.now) }
        ensures back { (m : List ℕ) → Bytes m → parsed m ≡ values_of command.now → fit (values_of command.now) ≡ true → GivesBack m result }
    {
        set_by(command)
    }

    // Writes the command that sets the record, if there is room for it.
    pub fn write_command(&self, out: &mut [u8]) -> Option<usize>
        ensures count { result ≡ room_for (bytes_of self.now) out.old }
        ensures bytes { out.new ≡ laid (bytes_of self.now) out.old }
    {
        match self {
            AnyRecord::Frame(frame) => frame.write_command(out),
            AnyRecord::Message(message) => message.write_command(out),
            AnyRecord::Plan(plan) => plan.write_command(out),
        }
    }
}
