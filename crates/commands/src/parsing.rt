ghost use Rattle.std.specs.Prelude.{◌≡◌, ℕ, ◌+◌, ◌*◌, ◌≤◌, length};
ghost use Rattle.commands.specs.Sent.{seen, parsed, values_of, span_at, spans_at, line_at, lines_at, bodied, body_of, exactly, password_form, time_form, text_form, graphic_form, message_form, plan_form, ordered, record_form, list_form};

use crate::command::{Command, Header, Order};
use crate::lists::{Line, Span, Time};
use crate::rejection::Rejection;
use calendar::DateTime;
use std::array;

// What stands after `from` earlier bytes: a body of `size` bytes, a check word, and nothing more.
fn body<'a>(sent: &'a [u8], from: usize, size: usize) -> Option<(&'a [u8], u16)>
    requires { from + size ≤ 10000 }
    ensures { bodied result ≡ body_of sent.now from size }
{
    match sent {
        [head @ .., high, low] if head.len() == from + size => Some((
            &head[from..],
            u16::from_be_bytes([*high, *low]),
        )),
        _ => None,
    }
}

fn span(sent: &[u8], at: usize) -> Span
    requires { at + 2 ≤ length sent.now }
    ensures { result ≡ span_at sent.now at }
{
    Span {
        frame: sent[at],
        seconds: u16::from(sent[at + 1]),
    }
}

fn spans(sent: &[u8]) -> [Span; 6]
    requires { 15 ≤ length sent.now }
    ensures { result ≡ spans_at sent.now 3 }
{
    array::from_fn(|k| span(sent, 3 + 2 * k))
}

fn line(sent: &[u8], at: usize) -> Line
    requires { at + 6 ≤ length sent.now }
    ensures { result ≡ line_at sent.now at }
{
    Line {
        kind: sent[at],
        number: sent[at + 1],
        start: Time {
            hour: sent[at + 2],
            minute: sent[at + 3],
        },
        stop: Time {
            hour: sent[at + 4],
            minute: sent[at + 5],
        },
    }
}

fn lines(sent: &[u8]) -> [Line; 6]
    requires { 40 ≤ length sent.now }
    ensures { result ≡ lines_at sent.now 4 }
{
    array::from_fn(|k| line(sent, 4 + 6 * k))
}

fn bare<'a>(sent: &'a [u8], command: Command<'a>) -> Result<Command<'a>, Rejection>
    ensures { seen result ≡ exactly sent.now 1 (values_of command.entry) }
{
    match sent {
        [_] => Ok(command),
        _ => Err(Rejection::WrongLength),
    }
}

fn password<'a>(sent: &'a [u8]) -> Result<Command<'a>, Rejection>
    ensures { seen result ≡ password_form sent.now }
{
    match *sent {
        [_, high, low] => Ok(Command::Password(u16::from_be_bytes([high, low]))),
        _ => Err(Rejection::WrongLength),
    }
}

fn set_time<'a>(sent: &'a [u8]) -> Result<Command<'a>, Rejection>
    ensures { seen result ≡ time_form sent.now }
{
    match *sent {
        [_, day, month, high, low, hour, minute, second] => Ok(Command::SetTime(DateTime {
            day,
            month,
            year: u16::from_be_bytes([high, low]),
            hour,
            minute,
            second,
        })),
        _ => Err(Rejection::WrongLength),
    }
}

#[tactic(auto, using(crate::proofs::Ordering::ordered_none))]
fn group_order<'a>(sent: &'a [u8], code: u8) -> Result<Command<'a>, Rejection>
    ensures { seen result ≡ ordered code sent.now }
{
    let Ok(order) = Order::try_from(code) else {
        return Err(Rejection::UnknownCode);
    };
    match *sent {
        [_, group, operand] => Ok(Command::GroupOrder {
            order,
            group,
            operand,
        }),
        _ => Err(Rejection::WrongLength),
    }
}

fn stored_record<'a>(sent: &'a [u8]) -> Result<Command<'a>, Rejection>
    ensures { seen result ≡ record_form sent.now }
{
    match *sent {
        [_, kind, number] => Ok(Command::StoredRecord { kind, number }),
        _ => Err(Rejection::WrongLength),
    }
}

fn list_stored<'a>(sent: &'a [u8]) -> Result<Command<'a>, Rejection>
    ensures { seen result ≡ list_form sent.now }
{
    match *sent {
        [_, kind] => Ok(Command::ListStored { kind }),
        _ => Err(Rejection::WrongLength),
    }
}

#[tactic(auto, unfolding(crate::specs::Sent::text_form))]
fn set_text<'a>(sent: &'a [u8]) -> Result<Command<'a>, Rejection>
    ensures { seen result ≡ text_form sent.now }
{
    let [_, number, revision, font, colour, conspicuity, count, ..] = *sent else {
        return Err(Rejection::WrongLength);
    };
    let (text, check) = body(sent, 7, usize::from(count)).ok_or(Rejection::WrongLength)?;
    Ok(Command::SetText {
        header: Header {
            number,
            revision,
            check,
        },
        font,
        colour,
        conspicuity,
        text,
    })
}

#[tactic(auto, unfolding(crate::specs::Sent::graphic_form))]
fn set_graphic<'a>(sent: &'a [u8]) -> Result<Command<'a>, Rejection>
    ensures { seen result ≡ graphic_form sent.now }
{
    let [_, number, revision, rows, columns, conspicuity, ..] = *sent else {
        return Err(Rejection::WrongLength);
    };
    let size = usize::from(rows) * usize::from(columns).div_ceil(8);
    let (picture, check) = body(sent, 6, size).ok_or(Rejection::WrongLength)?;
    Ok(Command::SetGraphic {
        header: Header {
            number,
            revision,
            check,
        },
        rows,
        columns,
        conspicuity,
        picture,
    })
}

#[tactic(auto, unfolding(crate::specs::Sent::message_form))]
fn set_message<'a>(sent: &'a [u8]) -> Result<Command<'a>, Rejection>
    ensures { seen result ≡ message_form sent.now }
{
    let [_, number, revision, ..] = *sent else {
        return Err(Rejection::WrongLength);
    };
    let (_, check) = body(sent, 3, 12).ok_or(Rejection::WrongLength)?;
    Ok(Command::SetMessage {
        header: Header {
            number,
            revision,
            check,
        },
        spans: spans(sent),
    })
}

#[tactic(auto, unfolding(crate::specs::Sent::plan_form))]
fn set_plan<'a>(sent: &'a [u8]) -> Result<Command<'a>, Rejection>
    ensures { seen result ≡ plan_form sent.now }
{
    let [_, number, revision, days, ..] = *sent else {
        return Err(Rejection::WrongLength);
    };
    let (_, check) = body(sent, 4, 36).ok_or(Rejection::WrongLength)?;
    Ok(Command::SetPlan {
        header: Header {
            number,
            revision,
            check,
        },
        days,
        lines: lines(sent),
    })
}

// Reads a message as one of its forms.
#[tactic(auto, unfolding(crate::specs::Sent::parsed))]
pub fn parse<'a>(sent: &'a [u8]) -> Result<Command<'a>, Rejection>
    ensures { seen result ≡ parsed sent.now }
{
    match *sent {
        [] => Err(Rejection::UnknownCode),
        [0x02, ..] => bare(sent, Command::StartSession),
        [0x04, ..] => password(sent),
        [0x05, ..] => bare(sent, Command::Heartbeat),
        [0x07, ..] => bare(sent, Command::EndSession),
        [0x09, ..] => set_time(sent),
        [0x0A, ..] => set_text(sent),
        [0x0B, ..] => set_graphic(sent),
        [0x0C, ..] => set_message(sent),
        [0x0D, ..] => set_plan(sent),
        [0x12, ..] => bare(sent, Command::EnabledPlans),
        [0x17, ..] => stored_record(sent),
        [0x18, ..] => bare(sent, Command::FaultLog),
        [0x1A, ..] => bare(sent, Command::EmptyFaultLog),
        [0xF4, ..] => bare(sent, Command::OrderLog),
        [0xFB, ..] => bare(sent, Command::Readings),
        [0xFF, ..] => list_stored(sent),
        [code, ..] => group_order(sent, code),
    }
}
