ghost use Rattle.std.specs.Prelude.{◌≡◌};
ghost use Rattle.groups.specs.Plans.{no_plans, includes, full, put, without, next_above};

// The plans that are enabled in a group: their numbers, in eight slots, in no order.
#[derive(Clone, Copy, Debug, PartialEq, Eq)]
pub struct EnabledPlans {
    pub slots: [Option<u8>; 8],
}

impl EnabledPlans {
    pub(crate) fn new() -> EnabledPlans
        ensures { result.slots ≡ no_plans }
    {
        EnabledPlans { slots: [None; 8] }
    }

    // Whether some slot has this plan.
    pub(crate) fn includes(&self, plan: u8) -> bool
        ensures { result ≡ includes self.now.slots plan }
    {
        self.slots.contains(&Some(plan))
    }

    pub(crate) fn is_full(&self) -> bool
        ensures { result ≡ full self.now.slots }
    {
        self.slots.iter().all(Option::is_some)
    }

    // Puts a plan into the first free slot, if there is one.
    pub(crate) fn put(&mut self, plan: u8)
        ensures { self.new.slots ≡ put self.old.slots plan }
    {
        if let Some(free) = self.slots.iter().position(Option::is_none) {
            self.slots[free] = Some(plan);
        }
    }

    // Frees each slot that has this plan.
    pub(crate) fn remove(&mut self, plan: u8)
        ensures { self.new.slots ≡ without self.old.slots plan }
    {
        self.slots = self.slots.map(|slot| slot.filter(|number| *number != plan));
    }

    // The least plan above a number.
    pub(crate) fn next_above(&self, number: u8) -> Option<u8>
        ensures { result ≡ next_above self.now.slots number }
    {
        let mut least: Option<u8> = None;
        for slot in &self.slots {
            if let Some(plan) = *slot
                && plan > number
            {
                least = Some(least.map_or(plan, |least| plan.min(least)));
            }
        }
        least
    }
}
