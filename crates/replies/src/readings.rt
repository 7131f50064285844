// The reply that tells the readings.
ghost use Rattle.std.specs.Prelude.{◌≡◌};
ghost use Rattle.replies.specs.Readings.{readings_reply};
ghost use Rattle.replies.specs.Reply.{contents};

use crate::reply::Reply;
use analog::Readings;

const READINGS: u8 = 0xFA;

const SLOTS: u8 = 3;

impl Reply {
    pub fn readings(readings: &Readings) -> Reply
        ensures { contents result ≡ readings_reply readings.now }
    {
        let mut reply = Reply::cut(&[READINGS, SLOTS]);
        reply.extend(&readings.bytes());
        reply.extend(&[0, 0]);
        reply
    }
}
