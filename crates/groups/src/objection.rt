ghost use Rattle.std.specs.Prelude.{◌≡◌, [], ◌∷◌};
ghost use Rattle.std.specs.Result.{result_err};
ghost use Rattle.groups.specs.Objections.{number_of, operand_fits, record_kept, crosses, crosses_any, overlaps, ninth, against, first_of, objection_to};

use crate::group::GroupRecord;
use crate::plans::EnabledPlans;
use commands::command::Order;
use records::plan::Plan;
use records::store::Store;
use thiserror::Error;

// Why a group cannot take an order, in the order in which the grounds are checked; each by the number that replies name.
#[derive(Clone, Copy, Debug, PartialEq, Eq, Error)]
pub enum Objection {
    #[error("the order cannot have this operand")]
    Unfit = 0x44,
    #[error("what is to be shown or enabled is not stored")]
    NotStored = 0x45,
    #[error("two enabled plans would share a minute")]
    Overlap = 0x46,
    #[error("eight plans are enabled")]
    NinthPlan = 0x47,
}

impl From<Objection> for u8 {
    ghost from_gives = { λ objection n. n ≡ number_of objection };

    fn from(objection: Objection) -> u8 {
        objection as u8
    }
}

// Whether an order can have such an operand; which levels a single group can have is judged elsewhere.
fn operand_fits(order: Order, operand: u8) -> bool
    ensures { result ≡ operand_fits order operand }
{
    match order {
        Order::Reset => operand <= 3,
        Order::EnablePlan => operand >= 1,
        Order::Power | Order::Enable => operand <= 1,
        Order::Frame | Order::Message | Order::DisablePlan => true,
    }
}

// Whether the frame, message or plan that an order wants shown or enabled is stored.
fn record_kept(store: &Store, order: Order, operand: u8) -> bool
    ensures { result ≡ record_kept store.now order operand }
{
    match order {
        Order::Frame => operand == 0 || store.frame(operand).is_some(),
        Order::Message => operand == 0 || store.message(operand).is_some(),
        Order::EnablePlan => store.plan(operand).is_some(),
        Order::Reset | Order::DisablePlan | Order::Power | Order::Enable => true,
    }
}

// Whether a plan shares a minute of a weekday with the stored plan of a slot.
fn crosses(store: &Store, plan: &Plan, slot: Option<u8>) -> bool
    ensures { result ≡ crosses store.now plan.now slot }
{
    slot.and_then(|number| store.plan(number))
        .is_some_and(|other| plan.shares_minute(other))
}

fn crosses_any(store: &Store, plan: &Plan, plans: &EnabledPlans) -> bool
    ensures { result ≡ crosses_any store.now plan.now plans.now.slots }
{
    plans.slots.iter().any(|slot| crosses(store, plan, *slot))
}

impl GroupRecord {
    // Whether enabling a plan would have two enabled plans share a minute.
    fn overlaps(&self, store: &Store, plan: u8) -> bool
        ensures { result ≡ overlaps store.now self.now plan }
    {
        !self.is_enabled(plan)
            && store
                .plan(plan)
                .is_some_and(|plan| crosses_any(store, plan, &self.plans))
    }

    // Whether eight other plans are enabled.
    fn has_eight_others(&self, plan: u8) -> bool
        ensures { result ≡ ninth self.now plan }
    {
        !self.is_enabled(plan) && self.plans.is_full()
    }

    // What stands against enabling a plan that is stored.
    fn object_to_plan(&self, store: &Store, plan: u8) -> Result<(), Objection>
        ensures { result_err result ≡ first_of (against store.now self.now Order.EnablePlan plan) (Objection.Overlap ∷ Objection.NinthPlan ∷ []) }
    {
        if self.overlaps(store, plan) {
            Err(Objection::Overlap)
        } else if self.has_eight_others(plan) {
            Err(Objection::NinthPlan)
        } else {
            Ok(())
        }
    }

    // The first ground that stands against an order, if there is one.
    pub fn object(&self, store: &Store, order: Order, operand: u8) -> Result<(), Objection>
        ensures { result_err result ≡ objection_to store.now self.now order operand }
    {
        if !operand_fits(order, operand) {
            return Err(Objection::Unfit);
        }
        if !record_kept(store, order, operand) {
            return Err(Objection::NotStored);
        }
        match order {
            Order::EnablePlan => self.object_to_plan(store, operand),
            _ => Ok(()),
        }
    }
}
