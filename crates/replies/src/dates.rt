// A date and a time of day in a reply.
ghost use Rattle.std.specs.Prelude.{◌≡◌, ◌++◌, take};
ghost use Rattle.replies.specs.Dates.{date_time_bytes};
ghost use Rattle.replies.specs.Reply.{contents};

use crate::reply::Reply;
use calendar::DateTime;

impl Reply {
    pub(crate) fn push_date_time(&mut self, at: DateTime)
        ensures { contents self.new ≡ take 768 (contents self.old ++ date_time_bytes at) }
    {
        let [high, low] = at.year.to_be_bytes();
        self.extend(&[at.day, at.month, high, low, at.hour, at.minute, at.second]);
    }
}
