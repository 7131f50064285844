// Racks of signs: the interface by its meaning, and text, lane and joined racks that keep it.
//
// Promised of every rack: showing succeeds exactly when the sign takes the picture, and then the face is what was given;
// darkening leaves the sign dark; both touch that one sign, and a refusal alters nothing. Questions answer by the
// meaning. A sign that the rack lacks is dark and takes nothing.
#![tactic(auto)]

pub mod bank;
pub mod interface;
pub mod joined;
pub mod lane;
pub mod look;
mod panel;
pub mod refusal;
pub mod sign;
pub mod text;
