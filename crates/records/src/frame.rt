ghost use Rattle.std.specs.Prelude.{◌≡◌, ℕ, ◌≤◌, length};
ghost use Rattle.records.specs.Frames.{pictured, counted, text_frame, graphic_frame, shown, shape_shown, frame_bytes};
ghost use Rattle.records.specs.Writing.{room_for, laid};

use crate::slots::Record;
use crate::writing::lay_command;
use commands::command::Header;
use rack::look::{Kind, Look, Shape};

// The most bytes of a picture.
const PICTURE_MOST: usize = 128;

// A text or a picture of up to 128 bytes, with the look that it is shown in.
// An array and a length: a value of several kinds of record that holds an `Octets`, which has ghost fields, is not covered
// where a pattern finds it inside two others.
#[derive(Clone, Copy)]
pub struct Frame {
    pub header: Header,
    pub look: Look,
    pub length: u8,
    pub picture: [u8; PICTURE_MOST],
}

impl Record for Frame {
    ghost header = { λ f. f.header };

    fn header(&self) -> Header {
        self.header
    }
}

// The first bytes, as many as a picture keeps, with zeros behind them; and how many they are.
fn pictured(bytes: &[u8]) -> ([u8; PICTURE_MOST], u8)
    ensures picture { result.0 ≡ pictured bytes.now }
    ensures count { result.1 ≡ counted bytes.now }
{
    let kept = &bytes[..bytes.len().min(PICTURE_MOST)];
    let mut picture = [0; PICTURE_MOST];
    picture[..kept.len()].copy_from_slice(kept);
    (picture, kept.len() as u8)
}

impl Frame {
    // A text has one row, its count as columns and its characters as picture.
    #[tactic(auto, unfolding(crate::specs::Frames::text_frame))]
    pub fn text(header: Header, font: u8, colour: u8, conspicuity: u8, text: &[u8]) -> Frame
        ensures { result ≡ text_frame header font colour conspicuity text.now }
    {
        let (picture, length) = pictured(text);
        Frame {
            header,
            look: Look {
                kind: Kind::Text,
                rows: 1,
                columns: length,
                font,
                colour,
                conspicuity,
            },
            length,
            picture,
        }
    }

    // A graphic has font and colour 0.
    #[tactic(auto, unfolding(crate::specs::Frames::graphic_frame))]
    pub fn graphic(header: Header, rows: u8, columns: u8, conspicuity: u8, picture: &[u8]) -> Frame
        ensures { result ≡ graphic_frame header rows columns conspicuity picture.now }
    {
        let (picture, length) = pictured(picture);
        Frame {
            header,
            look: Look {
                kind: Kind::Graphic,
                rows,
                columns,
                font: 0,
                colour: 0,
                conspicuity,
            },
            length,
            picture,
        }
    }

    // The bytes that a sign is given.
    pub fn picture(&self) -> &[u8]
        ensures value { result.now ≡ shown self.now }
        ensures few { length result.now ≤ 128 }
    {
        &self.picture[..usize::from(self.length).min(PICTURE_MOST)]
    }

    // What decides whether a sign takes the frame.
    pub fn shape(&self) -> Shape
        ensures { result ≡ shape_shown self.now }
    {
        Shape::of(self.look, self.picture().len())
    }

    // Writes the command that sets the frame, if there is room for it.
    #[tactic(auto, unfolding(crate::specs::Frames::frame_bytes))]
    pub fn write_command(&self, out: &mut [u8]) -> Option<usize>
        ensures count { result ≡ room_for (frame_bytes self.now) out.old }
        ensures bytes { out.new ≡ laid (frame_bytes self.now) out.old }
    {
        let Header {
            number,
            revision,
            check,
        } = self.header;
        let Look {
            kind,
            rows,
            columns,
            font,
            colour,
            conspicuity,
        } = self.look;
        match kind {
            Kind::Text => {
                let head = [0x0A, number, revision, font, colour, conspicuity, columns];
                lay_command(&head, self.picture(), check, out)
            }
            Kind::Graphic => {
                let head = [0x0B, number, revision, rows, columns, conspicuity];
                lay_command(&head, self.picture(), check, out)
            }
        }
    }
}
