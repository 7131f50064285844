// The status reply: the controller's state, and a row for each sign.
ghost use Rattle.std.specs.Prelude.{◌≡◌, take};
ghost use Rattle.replies.specs.Status.{named_bytes, row_bytes, status_reply};
ghost use Rattle.replies.specs.Reply.{contents};

use crate::list::Entry;
use crate::reply::Reply;
use calendar::DateTime;

const STATUS: u8 = 0x06;

const CONTROLLER_ERROR: u8 = 0;

const ROWS_MOST: u8 = 12;

// A record by its number and revision.
#[derive(Clone, Copy, Debug, Default, PartialEq, Eq)]
pub struct Named {
    pub number: u8,
    pub revision: u8,
}

// What is told of a sign: its error, whether its group is enabled, and what it shows and is due to its group.
#[derive(Clone, Copy, Debug, Default, PartialEq, Eq)]
pub struct Row {
    pub sign: u8,
    pub error_code: u8,
    pub enabled: bool,
    pub frame: Option<Named>,
    pub message: Option<Named>,
    pub plan: Option<Named>,
}

// What is told of the controller. The checksum is that of the store.
#[derive(Clone, Copy, Debug, PartialEq, Eq)]
pub struct Status {
    pub online: bool,
    pub application_error: u8,
    pub at: DateTime,
    pub checksum: u16,
}

// A record's number and revision; both are 0 where there is none.
fn named_bytes(named: Option<Named>) -> [u8; 2]
    ensures { result ≡ named_bytes named }
{
    match named {
        Some(named) => [named.number, named.revision],
        None => [0, 0],
    }
}

impl Entry for Row {
    ghost laid = { row_bytes };

    fn lay(&self, reply: &mut Reply) {
        reply.extend(&[self.sign, self.error_code, u8::from(self.enabled)]);
        reply.extend(&named_bytes(self.frame));
        reply.extend(&named_bytes(self.message));
        reply.extend(&named_bytes(self.plan));
    }
}

impl Reply {
    // The status, with the rows of at most 12 signs.
    pub fn status(status: Status, rows: &[Row]) -> Reply
        ensures { contents result ≡ status_reply status (take 12 rows.now) }
    {
        let mut reply = Reply::cut(&[STATUS, u8::from(status.online), status.application_error]);
        reply.push_date_time(status.at);
        reply.push_word(status.checksum);
        reply.push(CONTROLLER_ERROR);
        reply.push_list(rows, ROWS_MOST);
        reply
    }
}
