// What a message comes to: accepted, rejected, or seeded.
ghost use Rattle.std.specs.Prelude.{◌≡◌};
ghost use Rattle.replies.specs.Verdict.{acknowledgement_reply, rejection_reply, seed_reply};
ghost use Rattle.replies.specs.Reply.{contents};

use crate::reply::Reply;

const REJECTION: u8 = 0x00;

const ACKNOWLEDGEMENT: u8 = 0x01;

const SEED: u8 = 0x03;

impl Reply {
    // The code was accepted.
    pub fn acknowledgement(code: u8) -> Reply
        ensures { contents result ≡ acknowledgement_reply code }
    {
        Reply::cut(&[ACKNOWLEDGEMENT, code])
    }

    // The code was rejected, with the number of the rejection: bytes, since messages have any code and two enums give numbers.
    pub fn rejection(code: u8, number: u8) -> Reply
        ensures { contents result ≡ rejection_reply code number }
    {
        Reply::cut(&[REJECTION, code, number])
    }

    // The seed of a session.
    pub fn seed(seed: u8) -> Reply
        ensures { contents result ≡ seed_reply seed }
    {
        Reply::cut(&[SEED, seed])
    }
}
