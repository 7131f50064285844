// The replies that list a log: faults, and accepted group orders. The newest entry comes first, as a log lists them.
ghost use Rattle.std.specs.Prelude.{◌≡◌, take};
ghost use Rattle.replies.specs.Logs.{event_number, fault_bytes, fault_log_reply, order_bytes, order_log_reply};
ghost use Rattle.replies.specs.Reply.{contents};

use crate::list::Entry;
use crate::reply::Reply;
use calendar::DateTime;

const FAULT_LOG: u8 = 0x19;

const ORDER_LOG: u8 = 0xF5;

const FAULTS_MOST: u8 = 20;

const ORDERS_MOST: u8 = 64;

// A fault begins or ends.
#[derive(Clone, Copy, Debug, PartialEq, Eq)]
pub enum FaultEvent {
    Onset = 1,
    Clearance = 0,
}

// A fault of a sign, with the number of its entry and the time of the report. The code is any byte, as the sign gave it.
#[derive(Clone, Copy, Debug, PartialEq, Eq)]
pub struct FaultEntry {
    pub sign: u8,
    pub entry: u8,
    pub at: DateTime,
    pub code: u8,
    pub event: FaultEvent,
}

// An accepted group order. Its code is a byte: an enum would ask more of who lists orders.
#[derive(Clone, Copy, Debug, PartialEq, Eq)]
pub struct OrderEntry {
    pub code: u8,
    pub group: u8,
    pub operand: u8,
}

impl From<FaultEvent> for u8 {
    ghost from_gives = { λ event n. n ≡ event_number event };

    fn from(event: FaultEvent) -> u8 {
        event as u8
    }
}

impl Entry for FaultEntry {
    ghost laid = { fault_bytes };

    fn lay(&self, reply: &mut Reply) {
        reply.extend(&[self.sign, self.entry]);
        reply.push_date_time(self.at);
        reply.extend(&[self.code, u8::from(self.event)]);
    }
}

impl Entry for OrderEntry {
    ghost laid = { order_bytes };

    fn lay(&self, reply: &mut Reply) {
        reply.extend(&[self.code, self.group, self.operand]);
    }
}

impl Reply {
    // The first 20 entries of a fault log.
    pub fn fault_log(entries: &[FaultEntry]) -> Reply
        ensures { contents result ≡ fault_log_reply (take 20 entries.now) }
    {
        Reply::listing(&[FAULT_LOG], entries, FAULTS_MOST)
    }

    // The first 64 entries of an order log.
    pub fn order_log(entries: &[OrderEntry]) -> Reply
        ensures { contents result ≡ order_log_reply (take 64 entries.now) }
    {
        Reply::listing(&[ORDER_LOG], entries, ORDERS_MOST)
    }
}
