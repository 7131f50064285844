ghost use Rattle.std.specs.Prelude.{◌≡◌, ℕ, List, length, is_ok, if◌then◌else◌};
ghost use Rattle.std.specs.Option.{option_map};
ghost use Rattle.controller.specs.Due.{view, frame_due, shown_by, shown_on, sign_group};
ghost use Rattle.controller.specs.Faces.{SameSigns, Settled};
ghost use Rattle.controller.specs.Run.{with_common, after_tick, with_report, with_reading, faults_after, report_answer, reading_answer};

use crate::call::CallRefusal;
use crate::common::Common;
use crate::faces;
use crate::group::GroupRecord;
use crate::site::Site;
use analog::Reading;
use journal::Journal;
use rack::interface::Rack;
use records::frame::Frame;
use replies::FaultEntry;
use session::Event;

// A controller in service.
#[derive(Drop)]
pub struct Controller {
    pub site: Site,
    pub common: Common,
    pub groups: [GroupRecord; 12],
}

impl Controller {
    // Takes a tick with its byte; faces follow.
    pub fn tick<R: Rack>(&mut self, rack: &mut R, byte: u8)
        ensures after { self.new ≡ with_common self.old (after_tick self.old.site byte self.old.common) }
        ensures settled { Settled self.new (R.takes rack.old) (R.face rack.old) (R.face rack.new) }
        ensures same { SameSigns (R.signs rack.old) (R.signs rack.new) (R.takes rack.old) (R.takes rack.new) }
    {
        self.common.tick_byte = byte;
        self.common.clock.tick();
        let limit = self.site.silence_limit;
        self.common.session = self.common.session.on(Event::Tick(limit));
        faces::settle(self, rack);
    }

    // Takes a sign's report of its error code, and logs a change; no face depends on it.
    pub fn report(
        &mut self,
        sign: u8,
        code: u8,
        faults: &mut [FaultEntry],
    ) -> Result<(), CallRefusal>
        ensures result { result ≡ report_answer self.old.site sign (length faults.old) }
        ensures after { self.new ≡ with_common self.old (if is_ok result then with_report sign code self.old.common else self.old.common) }
        ensures log { faults.new ≡ (if is_ok result then faults_after sign code self.old.common faults.old else faults.old) }
    {
        Journal::<20>::judge(faults)?;
        if self.site.group_of(sign).is_none() {
            return Err(CallRefusal::NotAttached);
        }
        let place = sign as usize - 1;
        let old = self.common.error_codes[place];
        let at = self.common.clock.date_time();
        self.common.faults.change(faults, sign, at, old, code);
        self.common.error_codes[place] = code;
        Ok(())
    }

    // Takes a reading for a slot, with its state; no face depends on it.
    pub fn read_in(&mut self, slot: u8, reading: Reading, state: u8) -> Result<(), CallRefusal>
        ensures result { result ≡ reading_answer slot reading state }
        ensures after { self.new ≡ with_common self.old (with_reading slot reading state self.old.common) }
    {
        Ok(self.common.readings.set(slot, reading, state)?)
    }

    // The frame that an attached sign shows.
    pub fn frame_shown<R: Rack>(&self, rack: &R, sign: u8) -> Option<&Frame>
        ensures { option_map (λ x. x.now) result ≡ shown_on self.now (R.takes rack.now) sign }
    {
        let group = self.site.group_of(sign)?;
        self.frame_due(group)
            .filter(|frame| rack.accepts(sign, frame.shape()))
    }
}
