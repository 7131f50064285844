ghost use Rattle.std.specs.Prelude.{◌≡◌, ℕ, ◌≤◌, length};
ghost use Rattle.rack.specs.Face.{dark, lit, look_of, picture_of};

use crate::look::Look;
use std::marker::Model;

// The face memory of one sign; it means the sign's face. A dark sign keeps its picture bytes; they are not shown.
#[derive(Drop)]
pub(crate) struct Panel {
    lit: Option<Look>,
    length: usize,
    bytes: [u8; 128],
}

impl Model for Panel {
    ghost use Rattle.std.specs.Prelude.{◌≤◌, take};
    ghost use Rattle.rack.specs.Face.{Face};
    ghost use Rattle.rack.specs.Panel.{face_with};

    ghost Value = { Face };

    ghost view = { λ p. face_with p.lit (take p.length p.bytes) };

    ghost invariant = { λ p. p.length ≤ 128 };
}

// A dark sign; by hand, since an array of 128 bytes has no default.
impl Default for Panel {
    ghost is_default = { λ f. f ≡ dark };

    fn default() -> Panel {
        Panel {
            lit: None,
            length: 0,
            bytes: [0; 128],
        }
    }
}

impl Panel {
    pub(crate) fn look(&self) -> Option<Look>
        ensures { result ≡ look_of self.now }
    {
        self.lit
    }

    pub(crate) fn picture(&self) -> &[u8]
        ensures { result.now ≡ picture_of self.now }
    {
        match self.lit {
            Some(_) => &self.bytes[..self.length],
            None => &[],
        }
    }

    // Writes as many bytes as the picture has; the others keep what they held.
    pub(crate) fn write(&mut self, look: Look, picture: &[u8])
        requires { length picture.now ≤ 128 }
        ensures { self.new ≡ lit look picture.now }
    {
        let length = picture.len();
        self.bytes[..length].copy_from_slice(picture);
        self.length = length;
        self.lit = Some(look);
    }

    // Marks the sign dark and leaves its picture bytes unwritten.
    pub(crate) fn blank(&mut self)
        ensures { self.new ≡ dark }
    {
        self.lit = None;
    }
}
