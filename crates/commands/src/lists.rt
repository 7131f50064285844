ghost use Rattle.std.specs.Prelude.{◌≡◌};
ghost use Rattle.commands.specs.Lists.{minutes_of};

// A frame and for how long it stands; a span of no frame and no seconds is unused.
#[derive(Clone, Copy, Debug, PartialEq, Eq, Default)]
pub struct Span {
    pub frame: u8,
    pub seconds: u16,
}

// An hour and a minute as sent, in range or not.
#[derive(Clone, Copy, Debug, PartialEq, Eq, Default)]
pub struct Time {
    pub hour: u8,
    pub minute: u8,
}

// An entry of a plan as sent. Its kind is a byte, since an unknown one is refused only in its turn, among the values.
#[derive(Clone, Copy, Debug, PartialEq, Eq, Default)]
pub struct Line {
    pub kind: u8,
    pub number: u8,
    pub start: Time,
    pub stop: Time,
}

impl Time {
    // The minute of the day, counted from 00:00.
    pub fn minute_of_day(self) -> u16
        ensures { result ≡ minutes_of self }
    {
        u16::from(self.hour) * 60 + u16::from(self.minute)
    }
}
