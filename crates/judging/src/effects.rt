ghost use Rattle.std.specs.Prelude.{◌≡◌, ℕ};
ghost use Rattle.judging.specs.Effects.{Spares, error_after, event_of, session_after};
ghost use Rattle.judging.specs.Judgements.{judgement};

use crate::rejection::Rejection;
use commands::command::Command;
use session::{Event, Session};

// What a verdict is to the session; a session that starts is seeded by the byte of the newest tick.
pub fn session_event(tick: u8, verdict: &Result<Command<'_>, Rejection>) -> Option<Event>
    ensures { result ≡ event_of tick (judgement verdict.now) }
{
    match verdict {
        Ok(Command::StartSession) => Some(Event::Start(tick)),
        Ok(Command::Password(_)) => Some(Event::RightWord),
        Ok(Command::Heartbeat) => Some(Event::Heartbeat),
        Ok(Command::EndSession) => Some(Event::End),
        Err(Rejection::BadPassword) => Some(Event::WrongWord),
        _ => None,
    }
}

// The session after a verdict: a rejection leaves it, but for a wrong password, which closes a seeded one.
pub fn session_after(
    session: Session,
    tick: u8,
    verdict: &Result<Command<'_>, Rejection>,
) -> Session
    ensures moved { result ≡ session_after session tick (judgement verdict.now) }
    ensures spared { Spares session (judgement verdict.now) result }
{
    match session_event(tick, verdict) {
        Some(event) => session.on(event),
        None => session,
    }
}

// The application error code after a verdict, a byte as replies tell it: what stood before may be any.
pub fn error_after(before: u8, verdict: &Result<Command<'_>, Rejection>) -> u8
    ensures { result ≡ error_after before (judgement verdict.now) }
{
    match verdict {
        Ok(Command::StartSession) => 0,
        Ok(_) => before,
        Err(rejection) => u8::from(*rejection),
    }
}
