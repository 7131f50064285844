ghost use Rattle.std.specs.Prelude.{◌≡◌, replicate};
ghost use Rattle.playback.specs.Sites.{TwoTextSigns, two_groups, unused};

use calendar::Clock;
use controller::commissioning::Commissioning;
use rack::text::TextRack;
use replies::{FaultEntry, FaultEvent};

// The rack of the programs' site: two text signs of 16 characters.
pub fn text_rack() -> TextRack
    ensures { TwoTextSigns result }
{
    let mut rack = TextRack::new();
    rack.fit(16).unwrap();
    rack.fit(16).unwrap();
    rack
}

// The programs' site: sign 1 in group 1, sign 2 in group 2.
pub fn commissioning() -> Commissioning
    ensures { result.site ≡ two_groups }
{
    let mut site = Commissioning::new();
    site.attach(1).unwrap();
    site.attach(2).unwrap();
    site
}

// Memory for the fault log, not used yet.
pub fn fault_memory() -> [FaultEntry; 20]
    ensures { result ≡ replicate 20 unused }
{
    let unused = FaultEntry {
        sign: 0,
        entry: 0,
        at: Clock::new().date_time(),
        code: 0,
        event: FaultEvent::Clearance,
    };
    [unused; 20]
}
