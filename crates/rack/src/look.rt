ghost use Rattle.std.specs.Prelude.{◌≡◌, ℕ};
ghost use Rattle.rack.specs.Face.{shape_of};

// What a picture is made of: a row of characters, or rows of pixels.
#[derive(Clone, Copy, Debug, PartialEq, Eq)]
pub enum Kind {
    Text,
    Graphic,
}

// How a picture is shown, apart from its bytes.
#[derive(Clone, Copy, Debug, PartialEq, Eq)]
pub struct Look {
    pub kind: Kind,
    pub rows: u8,
    pub columns: u8,
    pub font: u8,
    pub colour: u8,
    pub conspicuity: u8,
}

// What decides whether a sign takes a picture.
#[derive(Clone, Copy, Debug, PartialEq, Eq)]
pub struct Shape {
    pub kind: Kind,
    pub rows: u8,
    pub columns: u8,
    pub length: usize,
}

impl Shape {
    // What decides for a look and a picture's length; a From would have to take the two as a pair.
    pub fn of(look: Look, length: usize) -> Shape
        ensures { result ≡ shape_of look length }
    {
        Shape {
            kind: look.kind,
            rows: look.rows,
            columns: look.columns,
            length,
        }
    }
}
