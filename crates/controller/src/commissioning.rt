ghost use Rattle.std.specs.Prelude.{◌≡◌, ℕ, ◌&&◌, [], ◌∷◌, ◌++◌, length, is_ok, if◌then◌else◌, nat_le};
ghost use Rattle.rack.specs.Bank.{fitting};
ghost use Rattle.rack.specs.Face.{dark};
ghost use Rattle.controller.specs.Faces.{SameSigns};
ghost use Rattle.controller.specs.Run.{opening, Reached};
ghost use Rattle.controller.specs.Site.{fresh, groups_of, with_address, with_seed_offset, with_password_offset, with_silence_limit, with_sign, is_group, setting};

use crate::common::Common;
use crate::faces;
use crate::group::GroupRecord;
use crate::service::Controller;
use crate::site::Site;
use octets::Octets;
use rack::interface::Rack;
use rack::refusal::Refusal;
use session::Offsets;

// A site that is being commissioned. Closing consumes it, so no sign can be attached in service.
#[derive(Drop)]
pub struct Commissioning {
    pub site: Site,
}

impl Commissioning {
    // Begins without signs, at address 1, without offsets, with a silence limit of 180 seconds.
    #[tactic(auto, using(octets::proofs::Alike::stretched))]
    pub fn new() -> Commissioning
        ensures site { result.site ≡ fresh }
        ensures groups { groups_of result.site ≡ [] }
    {
        Commissioning {
            site: Site {
                address: 1,
                offsets: Offsets {
                    seed: 0,
                    password: 0,
                },
                silence_limit: 180,
                sign_groups: Octets::new(),
            },
        }
    }

    // Attaches the next sign to a group, and gives the sign's number.
    #[tactic(auto, using(octets::proofs::Alike::stretched))]
    pub fn attach(&mut self, group: u8) -> Result<u8, Refusal>
        ensures result { result ≡ fitting (length (groups_of self.old.site)) (is_group group) }
        ensures after { self.new.site ≡ (if is_ok result then with_sign group self.old.site else self.old.site) }
        ensures groups { groups_of self.new.site ≡ (if is_ok result then groups_of self.old.site ++ group ∷ [] else groups_of self.old.site) }
    {
        let signs = self.site.signs();
        if signs >= 12 {
            return Err(Refusal::ThirteenthSign);
        }
        if group < 1 || group > 12 {
            return Err(Refusal::Unfit);
        }
        self.site.sign_groups.push(group);
        Ok(signs + 1)
    }

    // Sets the address on the line, 1 to 255.
    pub fn set_address(&mut self, address: u8) -> Result<(), Refusal>
        ensures result { result ≡ setting (nat_le 1 address) }
        ensures after { self.new.site ≡ (if is_ok result then with_address address self.old.site else self.old.site) }
    {
        if address == 0 {
            return Err(Refusal::Unfit);
        }
        self.site.address = address;
        Ok(())
    }

    pub fn set_seed_offset(&mut self, offset: u8)
        ensures { self.new.site ≡ with_seed_offset offset self.old.site }
    {
        self.site.offsets.seed = offset;
    }

    pub fn set_password_offset(&mut self, offset: u16)
        ensures { self.new.site ≡ with_password_offset offset self.old.site }
    {
        self.site.offsets.password = offset;
    }

    // Sets the seconds of silence that end a session, 1 to 3,600.
    pub fn set_silence_limit(&mut self, seconds: u16) -> Result<(), Refusal>
        ensures result { result ≡ setting (nat_le 1 seconds && nat_le seconds 3600) }
        ensures after { self.new.site ≡ (if is_ok result then with_silence_limit seconds self.old.site else self.old.site) }
    {
        if seconds < 1 || seconds > 3600 {
            return Err(Refusal::Unfit);
        }
        self.site.silence_limit = seconds;
        Ok(())
    }

    // Ends commissioning: darkens every sign and opens service.
    pub fn close<R: Rack>(self, rack: &mut R) -> Controller
        ensures opens { result ≡ opening self.site }
        ensures dark { (s : ℕ) → R.face rack.new s ≡ dark }
        ensures same { SameSigns (R.signs rack.old) (R.signs rack.new) (R.takes rack.old) (R.takes rack.new) }
        ensures reached { Reached self.site (R.takes rack.new) [] result (R.face rack.new) }
    {
        faces::darken_all(rack);
        Controller {
            site: self.site,
            common: Common::new(),
            groups: [GroupRecord::new(); 12],
        }
    }
}
