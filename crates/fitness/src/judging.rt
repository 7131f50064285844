ghost use Rattle.std.specs.Prelude.{◌≡◌, ℕ, ◌≤◌, Bool};
ghost use Rattle.commands.specs.Sent.{values_of};
ghost use Rattle.fitness.specs.Fitness.{byte_fits, all_characters, unused_clear, bits_used, filled_span, blank_span, time_of_day, filled_line, blank_line, listed, listed_from, fit, text_fits, graphic_fits};

use commands::command::Command;
use commands::kind::RecordKind;
use commands::lists::{Line, Span, Time};

// Where a byte with a range of its own stands.
#[derive(Clone, Copy, Debug, PartialEq, Eq)]
pub enum Place {
    Conspicuity,
    Character,
}

// Beacons 0 to 5 in bits 0 to 2, annulus 0 to 2 in bits 3 and 4, the rest zero; characters 20h to 7Eh.
// One decision over ranges and a guard serves both.
pub fn byte_fits(place: Place, byte: u8) -> bool
    ensures { result ≡ byte_fits place byte }
{
    match (place, byte) {
        (Place::Conspicuity, 0..=23) if byte % 8 <= 5 => true,
        (Place::Character, 0x20..=0x7E) => true,
        _ => false,
    }
}

fn characters_fit(text: &[u8]) -> bool
    ensures { result ≡ all_characters text.now }
{
    text.iter().all(|byte| byte_fits(Place::Character, *byte))
}

fn text_fits(number: u8, conspicuity: u8, text: &[u8]) -> bool
    ensures { result ≡ text_fits number conspicuity text.now }
{
    matches!((number, text.len()), (1..=255, 1..=128))
        && byte_fits(Place::Conspicuity, conspicuity)
        && characters_fit(text)
}

// Whether the byte at `place`, if it is the last of its row, has only bits of its columns.
#[tactic(auto, unfolding(crate::specs::Fitness::bits_used))]
fn bits_used(columns: u8, place: usize, byte: u8) -> bool
    requires { 1 ≤ columns }
    ensures { result ≡ bits_used columns place byte }
{
    let stride = usize::from(columns).div_ceil(8);
    place % stride != stride - 1 || u16::from(byte) >> ((columns - 1) % 8 + 1) == 0
}

fn unused_bits_clear(columns: u8, picture: &[u8]) -> bool
    requires { 1 ≤ columns }
    ensures { result ≡ unused_clear columns picture.now }
{
    picture
        .iter()
        .enumerate()
        .all(|(place, byte)| bits_used(columns, place, *byte))
}

fn graphic_fits(number: u8, rows: u8, columns: u8, conspicuity: u8, picture: &[u8]) -> bool
    ensures { result ≡ graphic_fits number rows columns conspicuity picture.now }
{
    matches!((number, rows, columns), (1..=255, 1..=32, 1..=32))
        && byte_fits(Place::Conspicuity, conspicuity)
        && unused_bits_clear(columns, picture)
}

// A part of a list that is filled up to some place and zero from there.
pub trait Listed {
    ghost fills: { Self → Bool };

    ghost blanks: { Self → Bool };

    fn is_filled(&self) -> bool
        ensures { result ≡ fills self.now };

    // Each kind of part says what blank is: one body for all would need laws on `default` and `==`.
    fn is_blank(&self) -> bool
        ensures { result ≡ blanks self.now };
}

impl Listed for Span {
    ghost fills = { filled_span };

    ghost blanks = { blank_span };

    fn is_filled(&self) -> bool {
        self.frame >= 1 && self.seconds >= 1
    }

    fn is_blank(&self) -> bool {
        *self == Span::default()
    }
}

// Whether it is a time of day: 00:00 to 23:59.
fn of_day(time: Time) -> bool
    ensures { result ≡ time_of_day time }
{
    time.hour <= 23 && time.minute <= 59
}

impl Listed for Line {
    ghost fills = { filled_line };

    ghost blanks = { blank_line };

    fn is_filled(&self) -> bool {
        match (self.kind, self.number, self.stop.hour, self.stop.minute) {
            (1..=2, 1..=255, 0..=23, 0..=59) | (1..=2, 1..=255, 24, 0) => {
                of_day(self.start) && self.start.minute_of_day() < self.stop.minute_of_day()
            }
            _ => false,
        }
    }

    fn is_blank(&self) -> bool {
        *self == Line::default()
    }
}

// Whether all parts are blank from the first on that is not filled.
fn ends_well<E: Listed>(list: &[E]) -> bool
    ensures { result ≡ listed_from E.Listed.fills E.Listed.blanks list.now }
{
    list.iter()
        .skip_while(|part| part.is_filled())
        .all(|part| part.is_blank())
}

// Whether the first part is filled, and all are blank from the first on that is not.
pub fn well_listed<E: Listed>(list: &[E]) -> bool
    ensures { result ≡ listed E.Listed.fills E.Listed.blanks list.now }
{
    match list {
        [first, ..] => first.is_filled() && ends_well(list),
        [] => false,
    }
}

// Whether the values of a storing command or a request are in range; group orders and the time are judged elsewhere.
pub fn fits(command: &Command<'_>) -> bool
    ensures { result ≡ fit (values_of command.now) }
{
    match command {
        Command::SetText {
            header,
            conspicuity,
            text,
            ..
        } => text_fits(header.number, *conspicuity, text),
        Command::SetGraphic {
            header,
            rows,
            columns,
            conspicuity,
            picture,
        } => graphic_fits(header.number, *rows, *columns, *conspicuity, picture),
        Command::SetMessage { header, spans } => header.number >= 1 && well_listed(spans),
        Command::SetPlan {
            header,
            days,
            lines,
        } => header.number >= 1 && matches!(days, 1..=127) && well_listed(lines),
        Command::StoredRecord { kind, number } => {
            RecordKind::try_from(*kind).is_ok() && *number >= 1
        }
        Command::ListStored { kind } => *kind == 0 || RecordKind::listed(*kind).is_some(),
        _ => true,
    }
}
