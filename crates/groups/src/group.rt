ghost use Rattle.std.specs.Prelude.{◌≡◌, Some, None};
ghost use Rattle.groups.specs.Groups.{opening, fresh, older, with_direct, with_plans, with_power, with_enabled};
ghost use Rattle.groups.specs.Plans.{no_plans, includes, including, without, next_above, Joins, Leaves, Follows};

use crate::plans::EnabledPlans;
use records::plan::Shows;

// What a direct order shows, and the ticks since it was accepted.
#[derive(Clone, Copy, Debug, PartialEq, Eq)]
pub struct Direct {
    pub shows: Shows,
    pub age: u32,
}

// What is ordered of one group.
#[derive(Clone, Copy, Debug, PartialEq, Eq)]
pub struct GroupRecord {
    pub direct: Option<Direct>,
    pub plans: EnabledPlans,
    pub powered: bool,
    pub enabled: bool,
}

impl GroupRecord {
    // A group with power, enabled, with nothing ordered.
    pub fn new() -> GroupRecord
        ensures { result ≡ opening }
    {
        GroupRecord {
            direct: None,
            plans: EnabledPlans::new(),
            powered: true,
            enabled: true,
        }
    }

    // A tick more in the age of a direct order, which stops at its greatest.
    pub fn tick(&mut self)
        ensures { self.new ≡ with_direct (older self.old.direct) self.old }
    {
        self.direct = self.direct.map(|direct| Direct {
            age: direct.age.saturating_add(1),
            ..direct
        });
    }

    // Takes a direct order in place of any other; its age starts anew.
    pub fn order(&mut self, shows: Shows)
        ensures { self.new ≡ with_direct (fresh shows) self.old }
    {
        self.direct = Some(Direct { shows, age: 0 });
    }

    pub fn withdraw(&mut self)
        ensures { self.new ≡ with_direct None self.old }
    {
        self.direct = None;
    }

    pub fn is_enabled(&self, plan: u8) -> bool
        ensures { result ≡ includes self.now.plans.slots plan }
    {
        self.plans.includes(plan)
    }

    // The least enabled plan above a number: from 0 on, these are all of them, rising.
    #[tactic(auto, using(crate::proofs::Enabling::next_follows))]
    pub fn next_plan(&self, above: u8) -> Option<u8>
        ensures value { result ≡ next_above self.now.plans.slots above }
        ensures meaning { Follows self.now.plans.slots above result }
    {
        self.plans.next_above(above)
    }

    // Enables a plan; one that is enabled already stays as it is.
    #[tactic(auto, using(crate::proofs::Enabling::put_joins))]
    pub fn enable_plan(&mut self, plan: u8)
        ensures after { self.new ≡ with_plans (including self.old.plans.slots plan) self.old }
        ensures meaning { Joins self.old.plans.slots plan self.new.plans.slots }
    {
        if !self.is_enabled(plan) {
            self.plans.put(plan);
        }
    }

    // Disables a plan, at an order or since it is set anew.
    #[tactic(auto, using(crate::proofs::Enabling::without_leaves))]
    pub fn disable_plan(&mut self, plan: u8)
        ensures after { self.new ≡ with_plans (without self.old.plans.slots plan) self.old }
        ensures meaning { Leaves self.old.plans.slots plan self.new.plans.slots }
    {
        self.plans.remove(plan);
    }

    pub fn disable_all_plans(&mut self)
        ensures { self.new ≡ with_plans no_plans self.old }
    {
        self.plans = EnabledPlans::new();
    }

    pub fn set_power(&mut self, powered: bool)
        ensures { self.new ≡ with_power powered self.old }
    {
        self.powered = powered;
    }

    pub fn set_enabled(&mut self, enabled: bool)
        ensures { self.new ≡ with_enabled enabled self.old }
    {
        self.enabled = enabled;
    }
}
