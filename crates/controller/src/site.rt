ghost use Rattle.std.specs.Prelude.{◌≡◌, ◌≤◌, length, IfSome};
ghost use Rattle.controller.specs.Groups.{group_in};
ghost use Rattle.controller.specs.Site.{groups_of};

use octets::Octets;
use session::Offsets;

// What commissioning fixes for the whole of service: plain numbers, and the group of each attached sign.
#[derive(Clone, Copy)]
pub struct Site {
    pub address: u8,
    pub offsets: Offsets,
    pub silence_limit: u16,
    pub sign_groups: Octets<12>,
}

impl Site {
    // How many signs are attached.
    pub fn signs(&self) -> u8
        ensures count { result ≡ length (groups_of self.now) }
        ensures few { result ≤ 12 }
    {
        self.sign_groups.as_slice().len() as u8
    }

    // The group of a sign, if the sign is attached.
    pub fn group_of(&self, sign: u8) -> Option<u8>
        ensures group { result ≡ group_in (groups_of self.now) sign }
        ensures few { IfSome result (λ _. (1 ≤ sign) × (sign ≤ 12)) }
    {
        let place = usize::from(sign).checked_sub(1)?;
        self.sign_groups.as_slice().get(place).copied()
    }
}
