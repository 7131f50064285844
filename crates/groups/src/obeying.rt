ghost use Rattle.std.specs.Prelude.{◌≡◌};
ghost use Rattle.groups.specs.Objections.{StaysApart};
ghost use Rattle.groups.specs.Orders.{obeyed, reset};

use crate::group::GroupRecord;
use commands::command::Order;
use records::plan::Shows;

impl GroupRecord {
    // Level 0 withdraws the direct order and enables the group; any other also disables its plans.
    fn reset(&mut self, level: u8)
        ensures { self.new ≡ reset level self.old }
    {
        self.withdraw();
        self.set_enabled(true);
        if level >= 1 {
            self.disable_all_plans();
        }
    }

    // Does what an accepted order asks.
    #[tactic(auto, using(crate::proofs::Keeping::stays_apart))]
    pub fn obey(&mut self, order: Order, operand: u8)
        ensures after { self.new ≡ obeyed order operand self.old }
        ensures apart { StaysApart self.old order operand self.new }
    {
        match (order, operand) {
            (Order::Reset, level) => self.reset(level),
            (Order::Frame, 0) | (Order::Message, 0) => self.withdraw(),
            (Order::Frame, number) => self.order(Shows::Frame(number)),
            (Order::Message, number) => self.order(Shows::Message(number)),
            (Order::EnablePlan, plan) => self.enable_plan(plan),
            (Order::DisablePlan, 0) => self.disable_all_plans(),
            (Order::DisablePlan, plan) => self.disable_plan(plan),
            (Order::Power, on) => self.set_power(on == 1),
            (Order::Enable, on) => self.set_enabled(on == 1),
        }
    }
}
