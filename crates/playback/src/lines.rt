ghost use Rattle.std.specs.Prelude.{Some};
ghost use Rattle.std.specs.Option.{option_map};
ghost use Rattle.playback.specs.Lines.{line_of};

use records::frame::Frame;
use std::fmt;

// The line that tells what a sign of a group shows.
#[derive(Clone, Copy)]
pub struct SignLine<'a> {
    pub sign: u8,
    pub group: u8,
    pub shown: Option<&'a Frame>,
}

impl<'a> fmt::Display for SignLine<'a> {
    ghost output = { λ line. Some (line_of line.sign line.group (option_map (λ x. x.now) line.shown)) };

    fn fmt<W: fmt::Write>(&self, f: &mut fmt::Formatter<W>) -> fmt::Result {
        let SignLine { sign, group, shown } = *self;
        match shown {
            Some(frame) => {
                let number = frame.header.number;
                let revision = frame.header.revision;
                write!(
                    f,
                    "sign {sign} group {group} frame {number} revision {revision}"
                )
            }
            None => write!(f, "sign {sign} group {group} dark"),
        }
    }
}
