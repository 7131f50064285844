// The reply that lists the enabled plans.
ghost use Rattle.std.specs.Prelude.{◌≡◌, take};
ghost use Rattle.replies.specs.Plans.{enabled_plan_bytes, enabled_plans_reply};
ghost use Rattle.replies.specs.Reply.{contents};

use crate::list::Entry;
use crate::reply::Reply;

const ENABLED_PLANS: u8 = 0x13;
// Eight plans of each of twelve groups.
const PLANS_MOST: u8 = 96;

// A plan that is enabled in a group.
#[derive(Clone, Copy, Debug, PartialEq, Eq)]
pub struct EnabledPlan {
    pub group: u8,
    pub plan: u8,
}

impl Entry for EnabledPlan {
    ghost laid = { enabled_plan_bytes };

    fn lay(&self, reply: &mut Reply) {
        reply.extend(&[self.group, self.plan]);
    }
}

impl Reply {
    // The first 96 of the plans, in the order given.
    pub fn enabled_plans(plans: &[EnabledPlan]) -> Reply
        ensures { contents result ≡ enabled_plans_reply (take 96 plans.now) }
    {
        Reply::listing(&[ENABLED_PLANS], plans, PLANS_MOST)
    }
}
