// The session between the control room and the controller: closed, seeded or open, and the password that opens it.
// Promised: the state after every pair of state and event, the right word for every seed and offsets, and the verdict on
// every word.
#![tactic(auto)]

ghost use Rattle.std.specs.Prelude.{◌≡◌, Some};
ghost use Rattle.session.specs.Sessions.{after, is_open, judged, name_of};
ghost use Rattle.session.specs.Passwords.{right_word, Worked};

use std::fmt;

// What the site adds to a seed and to the password made of it.
#[derive(Clone, Copy, Debug, PartialEq, Eq)]
pub struct Offsets {
    pub seed: u8,
    pub password: u16,
}

// Where a session stands.
#[derive(Clone, Copy, Debug, PartialEq, Eq)]
pub enum Session {
    Closed,
    // a seed was drawn, and a password is awaited
    Seeded(u8),
    // so many seconds of silence have passed
    Open(u16),
}

// What can move a session.
#[derive(Clone, Copy, Debug, PartialEq, Eq)]
pub enum Event {
    Start(u8),
    RightWord,
    WrongWord,
    Heartbeat,
    End,
    // a second passes, under a limit of silence
    Tick(u16),
}

// The word that opens a session which was seeded so.
pub fn right_word(seed: u8, offsets: Offsets) -> u16
    ensures word { result ≡ right_word seed offsets }
    ensures worked { Worked }
{
    let key = u16::from(seed.wrapping_add(offsets.seed));
    (key * 257).wrapping_add(offsets.password)
}

impl fmt::Display for Session {
    ghost output = { λ session. Some (name_of session) };

    fn fmt<W: fmt::Write>(&self, f: &mut fmt::Formatter<W>) -> fmt::Result {
        f.write_str(match self {
            Session::Closed => "closed",
            Session::Seeded(_) => "seeded",
            Session::Open(_) => "open",
        })
    }
}

impl Session {
    pub fn is_open(self) -> bool
        ensures { result ≡ is_open self }
    {
        matches!(self, Session::Open(_))
    }

    // What a password is to the session: nothing where it is not seeded, or whether the word is right.
    pub fn judge(self, word: u16, offsets: Offsets) -> Option<Event>
        ensures { result ≡ judged self word offsets }
    {
        match self {
            Session::Seeded(seed) if word == right_word(seed, offsets) => Some(Event::RightWord),
            Session::Seeded(_) => Some(Event::WrongWord),
            Session::Closed | Session::Open(_) => None,
        }
    }

    // The session after an event: one match on both, as the rules are written.
    pub fn on(self, event: Event) -> Session
        ensures { result ≡ after self event }
    {
        match (self, event) {
            (_, Event::Start(seed)) => Session::Seeded(seed),
            (Session::Seeded(_), Event::RightWord) => Session::Open(0),
            (Session::Seeded(_), Event::WrongWord) => Session::Closed,
            (Session::Open(_), Event::Heartbeat) => Session::Open(0),
            (Session::Open(_), Event::End) => Session::Closed,
            (Session::Open(silence), Event::Tick(limit)) if silence.saturating_add(1) < limit => {
                Session::Open(silence.saturating_add(1))
            }
            (Session::Open(_), Event::Tick(_)) => Session::Closed,
            (session, _) => session,
        }
    }
}
