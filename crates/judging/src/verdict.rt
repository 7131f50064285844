ghost use Rattle.std.specs.Prelude.{◌≡◌};
ghost use Rattle.commands.specs.Sent.{parsed, values_of};
ghost use Rattle.judging.specs.Judgements.{Grounded, against, decided, judged, judgement};
ghost use Rattle.judging.specs.Rejections.{beyond_form, in_order};

use crate::grounds::{entries_overlap, is_order, needs_open, values_fit};
use crate::rejection::Rejection;
use commands::command::Command;
use commands::parsing::parse;
use fitness::soundness::check_word_right;
use records::store::Store;
use session::{Offsets, Session};

// What a message is judged by.
#[derive(Clone, Copy)]
pub struct Judge<'a> {
    pub session: Session,
    pub offsets: Offsets,
    pub store: &'a Store,
}

impl Judge<'_> {
    // The verdict on a message: its command, or the first ground against it.
    pub fn judge<'m>(&self, message: &'m [u8]) -> Result<Command<'m>, Rejection>
        ensures verdict { judgement result ≡ judged self.now.session self.now.offsets self.now.store.now message.now }
        ensures first { Grounded (against self.now.session self.now.offsets self.now.store.now message.now (parsed message.now)) (parsed message.now) in_order (judgement result) }
    {
        self.decide(message)
    }

    // The verdict, by the message's form first.
    #[tactic(auto, unfolding(crate::specs::Judgements::judged))]
    fn decide<'m>(&self, message: &'m [u8]) -> Result<Command<'m>, Rejection>
        ensures { judgement result ≡ judged self.now.session self.now.offsets self.now.store.now message.now }
    {
        if is_order(message) {
            return Err(Rejection::UnknownCode);
        }
        let command = parse(message)?;
        self.admit(message, command)
    }

    // The verdict on a message that was read as a command.
    fn admit<'m>(&self, message: &'m [u8], command: Command<'m>) -> Result<Command<'m>, Rejection>
        ensures { judgement result ≡ decided (against self.now.session self.now.offsets self.now.store.now message.now (values_of command.entry)) (values_of command.entry) beyond_form }
    {
        if needs_open(&command) && !self.session.is_open() {
            Err(Rejection::NotOpen)
        } else if !self.password_right(&command) {
            Err(Rejection::BadPassword)
        } else if !check_word_right(message) {
            Err(Rejection::WrongCheckWord)
        } else if !values_fit(&command) {
            Err(Rejection::Unfit)
        } else if !self.record_stored(&command) {
            Err(Rejection::NotStored)
        } else if entries_overlap(&command) {
            Err(Rejection::Overlap)
        } else {
            Ok(command)
        }
    }
}
