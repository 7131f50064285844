// Dresses a gantry: a joined rack of two text signs and a lane sign shows a text and a picture, refuses a text that
// is too wide, and darkens a sign. After each step it prints every sign.
#![tactic(auto)]

use anyhow::Context;
use rack::interface::{Rack, ShowError};
use rack::joined::JoinedRack;
use rack::lane::LaneRack;
use rack::look::{Kind, Look};
use rack::refusal::Refusal;
use rack::text::TextRack;

type Gantry = JoinedRack<TextRack, LaneRack>;

// An arrow to the left of 8 rows and 8 columns, leftmost pixel in bit 0.
const ARROW: [u8; 8] = [0x08, 0x04, 0x02, 0xff, 0xff, 0x02, 0x04, 0x08];

// Two text signs of 12 and 20 characters, then a lane sign of 8 rows and 8 columns.
fn gantry() -> Result<Gantry, Refusal> {
    let mut texts = TextRack::new();
    texts.fit(12)?;
    texts.fit(20)?;
    let mut lanes = LaneRack::new();
    lanes.fit(8, 8)?;
    Ok(JoinedRack::join(texts, lanes))
}

fn text_look(columns: u8) -> Look {
    Look {
        kind: Kind::Text,
        rows: 1,
        columns,
        font: 1,
        colour: 2,
        conspicuity: 0,
    }
}

fn arrow_look() -> Look {
    Look {
        kind: Kind::Graphic,
        rows: 8,
        columns: 8,
        font: 0,
        colour: 0,
        conspicuity: 0,
    }
}

// Shows a text of up to 255 characters on a sign, and prints how it went.
fn show_text(rt: &HostRuntime, rack: &mut Gantry, sign: u8, text: &str) -> anyhow::Result<()> {
    let columns = u8::try_from(text.len()).context("the text is too long for any sign")?;
    match rack.show(sign, text_look(columns), text.as_bytes()) {
        Ok(()) => println!(rt; "sign {sign} shows {columns} characters")?,
        Err(ShowError::NotTaken) => println!(rt; "sign {sign} does not take {columns} characters")?,
    }
    print_signs(rt, rack)
}

fn show_arrow(rt: &HostRuntime, rack: &mut Gantry, sign: u8) -> anyhow::Result<()> {
    match rack.show(sign, arrow_look(), &ARROW) {
        Ok(()) => println!(rt; "sign {sign} shows the arrow")?,
        Err(ShowError::NotTaken) => println!(rt; "sign {sign} does not take the arrow")?,
    }
    print_signs(rt, rack)
}

// Prints one row of pixels.
fn print_row(rt: &HostRuntime, pixels: u8) -> anyhow::Result<()> {
    let row: String = (0..8u32)
        .map(|column| if (pixels >> column) & 1 == 1 {
            '#'
        } else {
            '.'
        })
        .collect(rt.alloc())?;
    println!(rt; "    {row}")?;
    Ok(())
}

// Prints a picture that is eight pixels wide.
fn print_picture(rt: &HostRuntime, picture: &[u8]) -> anyhow::Result<()> {
    for pixels in picture {
        print_row(rt, *pixels)?;
    }
    Ok(())
}

fn print_text(rt: &HostRuntime, sign: u8, picture: &[u8]) -> anyhow::Result<()> {
    let text: String = picture.iter().copied().map(char::from).collect(rt.alloc())?;
    println!(rt; "  sign {sign}: text {text}")?;
    Ok(())
}

fn print_signs(rt: &HostRuntime, rack: &Gantry) -> anyhow::Result<()> {
    for sign in 1..=rack.sign_count() {
        match rack.look(sign) {
            None => println!(rt; "  sign {sign}: dark")?,
            Some(look) => match look.kind {
                Kind::Text => print_text(rt, sign, rack.picture(sign))?,
                Kind::Graphic => {
                    println!(rt; "  sign {sign}: picture")?;
                    print_picture(rt, rack.picture(sign))?;
                }
            },
        }
    }
    Ok(())
}

fn main(rt: HostRuntime) -> anyhow::Result<()> {
    let mut rack = gantry().context("the gantry is refused")?;
    println!(rt; "fitted")?;
    print_signs(&rt, &rack)?;
    show_text(&rt, &mut rack, 1, "LANE CLOSED")?;
    show_arrow(&rt, &mut rack, 3)?;
    show_text(&rt, &mut rack, 1, "LANE CLOSED AHEAD")?;
    show_text(&rt, &mut rack, 2, "LANE CLOSED AHEAD")?;
    rack.darken(1);
    println!(rt; "sign 1 is darkened")?;
    print_signs(&rt, &rack)
}
