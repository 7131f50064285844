// The replies that tell what is stored: a record's command, a list of one kind, and a summary of all kinds.
ghost use Rattle.std.specs.Prelude.{◌≡◌, take};
ghost use Rattle.replies.specs.Stored.{listed_bytes, stored_list_reply, stored_summary_reply};
ghost use Rattle.replies.specs.Reply.{contents};

use crate::list::Entry;
use crate::reply::Reply;
use commands::kind::RecordKind;

const STORED: u8 = 0xFE;

const SUMMARY: u8 = 0;
// The list of as many fills a reply to its last byte.
const LISTED_MOST: u8 = 255;

// A stored record, by its number and check word.
#[derive(Clone, Copy, Debug, PartialEq, Eq)]
pub struct Listed {
    pub number: u8,
    pub check: u16,
}

impl Entry for Listed {
    ghost laid = { listed_bytes };

    fn lay(&self, reply: &mut Reply) {
        reply.push(self.number);
        reply.push_word(self.check);
    }
}

impl Reply {
    // The command of a stored record, as it was given; no command is longer than a reply.
    pub fn command(bytes: &[u8]) -> Reply
        ensures { contents result ≡ take 768 bytes.now }
    {
        Reply::cut(bytes)
    }

    // The first 255 of the stored records of a kind, in the order given.
    pub fn stored_list(kind: RecordKind, listed: &[Listed]) -> Reply
        ensures { contents result ≡ stored_list_reply kind (take 255 listed.now) }
    {
        Reply::listing(&[STORED, kind.listing_number()], listed, LISTED_MOST)
    }

    // A bit for each number: 32 bytes for frames, then for messages, then for plans.
    pub fn stored_summary(bits: &[u8; 96]) -> Reply
        ensures { contents result ≡ stored_summary_reply bits.now }
    {
        let mut reply = Reply::cut(&[STORED, SUMMARY]);
        reply.extend(bits);
        reply
    }
}
