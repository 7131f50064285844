// What a sensor reads, and the byte that stands for it.
ghost use Rattle.std.specs.Prelude.{◌≡◌, ◌≤◌, [], ◌∷◌};
ghost use Rattle.analog.specs.Codes.{count, mark_from, code_of, volts_code, celsius_code, NearVolts, NearDegrees, Faithful, WorkedVolts};

#[derive(Clone, Copy, Debug, PartialEq)]
pub enum Reading {
    Volts(f32),
    Celsius(f32),
    Absent,
}

// How many of the `marks` marks `first`, `first + 1`, .. are not above `x`.
fn marks_reached(first: f32, marks: u8, x: f32) -> u8
    ensures { result ≡ count (mark_from first) marks x }
{
    // a `for`, and no chain: through one a reading takes half as long again
    let mut reached = 0;
    for k in 0..marks {
        if first + (k as f32) <= x {
            reached += 1;
        }
    }
    reached
}

// Tenths of a volt, by the marks 0.5 to 254.5.
fn volts_code(volts: f32) -> u8
    ensures value { result ≡ volts_code volts }
    ensures near { 1 ≤ result → result ≤ 254 → NearVolts result volts }
{
    marks_reached(0.5, 255, volts * 10.0)
}

// Degrees, by the marks -19.5 to 79.5, above 80.
fn celsius_code(degrees: f32) -> u8
    ensures value { result ≡ celsius_code degrees }
    ensures near { 81 ≤ result → result ≤ 179 → NearDegrees result degrees }
{
    if degrees.is_nan() {
        0
    } else {
        80 + marks_reached(-19.5, 100, degrees)
    }
}

impl Reading {
    // The byte that stands for the reading.
    pub fn code(self) -> u8
        ensures value { result ≡ code_of self }
        ensures faithful { Faithful self result }
    {
        match self {
            Reading::Volts(volts) => volts_code(volts),
            Reading::Celsius(degrees) => celsius_code(degrees),
            Reading::Absent => 0,
        }
    }
}

// The codes of 0.25, 25.375 and 25.5 volts.
pub fn worked_volts() -> [u8; 3]
    ensures codes { result ≡ 3 ∷ 254 ∷ 255 ∷ [] }
    ensures stand { WorkedVolts }
{
    [
        Reading::Volts(0.25).code(),
        Reading::Volts(25.375).code(),
        Reading::Volts(25.5).code(),
    ]
}
