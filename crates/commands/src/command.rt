ghost use Rattle.std.specs.Prelude.{◌≡◌};
ghost use Rattle.commands.specs.Orders.{code_of, Decodes};

use crate::lists::{Line, Span};
use calendar::DateTime;
use thiserror::Error;

// What is ordered of a group, by the code of the order's command.
#[derive(Clone, Copy, Debug, PartialEq, Eq)]
pub enum Order {
    Reset = 0x08,
    Frame = 0x0E,
    Message = 0x0F,
    EnablePlan = 0x10,
    DisablePlan = 0x11,
    Power = 0x15,
    Enable = 0x16,
}

// A code that is of no order.
#[derive(Clone, Copy, Debug, PartialEq, Eq, Error)]
#[error("no order has the code {0:02X}h")]
pub struct UnknownOrder(pub u8);

impl From<Order> for u8 {
    ghost from_gives = { λ order code. code ≡ code_of order };

    fn from(order: Order) -> u8 {
        order as u8
    }
}

impl TryFrom<u8> for Order {
    type Error = UnknownOrder;

    ghost try_from_gives = { Decodes };

    fn try_from(code: u8) -> Result<Order, UnknownOrder> {
        match code {
            0x08 => Ok(Order::Reset),
            0x0E => Ok(Order::Frame),
            0x0F => Ok(Order::Message),
            0x10 => Ok(Order::EnablePlan),
            0x11 => Ok(Order::DisablePlan),
            0x15 => Ok(Order::Power),
            0x16 => Ok(Order::Enable),
            _ => Err(UnknownOrder(code)),
        }
    }
}

// The number, the revision and the check word of a record, as its command gives them.
#[derive(Clone, Copy, Debug, PartialEq, Eq)]
pub struct Header {
    pub number: u8,
    pub revision: u8,
    pub check: u16,
}

// A message of the right form; whether its values fit is judged later.
#[derive(Clone, Copy, Debug, PartialEq, Eq)]
pub enum Command<'a> {
    StartSession,
    Password(u16),
    Heartbeat,
    EndSession,
    SetTime(DateTime),
    SetText {
        header: Header,
        font: u8,
        colour: u8,
        conspicuity: u8,
        text: &'a [u8],
    },
    SetGraphic {
        header: Header,
        rows: u8,
        columns: u8,
        conspicuity: u8,
        picture: &'a [u8],
    },
    SetMessage {
        header: Header,
        spans: [Span; 6],
    },
    SetPlan {
        header: Header,
        days: u8,
        lines: [Line; 6],
    },
    GroupOrder {
        order: Order,
        group: u8,
        operand: u8,
    },
    EnabledPlans,
    // the kinds are bytes here, since the rules refuse an unknown one only after session and check word
    StoredRecord {
        kind: u8,
        number: u8,
    },
    FaultLog,
    EmptyFaultLog,
    OrderLog,
    Readings,
    ListStored {
        kind: u8,
    },
}
