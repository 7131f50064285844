ghost use Rattle.std.specs.Prelude.{◌≡◌, ℕ, ◌-◌, ◌≤◌, List, [], ◌∷◌, ◌++◌, length, take, drop, replicate};
ghost use Rattle.octets.specs.Room.{room};

// As many bytes as a stretch holds at most, whatever its type.
const MOST_HELD: usize = 65535;

// At most MOST bytes; those behind them stay 0, so that equal stretches are equal all through.
#[derive(Clone, Copy)]
pub struct Octets<const MOST: usize> {
    bytes: [u8; MOST],
    used: usize,
    pub ghost long: { length bytes ≡ MOST },
    pub ghost fits: { used ≤ room MOST },
    pub ghost blank: { drop used bytes ≡ replicate (MOST - used) 0 },
}

impl<const MOST: usize> Octets<MOST> {
    ghost use Rattle.octets.specs.Held.{held, Alike};

    // No bytes.
    pub fn new() -> Octets<MOST>
        ensures bytes { held result ≡ [] }
        ensures alike { Alike MOST }
    {
        Octets {
            bytes: [0; MOST],
            used: 0,
        }
    }

    // The bytes, in place.
    pub fn as_slice(&self) -> &[u8]
        ensures bytes { result.now ≡ held self.now }
        ensures most { length (held self.now) ≤ room MOST }
    {
        let all = &self.bytes[..];
        &all[..self.used]
    }

    // One byte more, where it fits.
    pub fn push(&mut self, byte: u8)
        ensures { held self.new ≡ take (room MOST) (held self.old ++ byte ∷ []) }
    {
        // counted on from a copy: the count in memory would be read again behind each byte
        let used = self.used;
        if used < MOST && used < MOST_HELD {
            self.bytes[used] = byte;
            self.used = used + 1;
        }
    }

    // More bytes, as many as fit.
    pub fn extend(&mut self, bytes: &[u8])
        ensures { held self.new ≡ take (room MOST) (held self.old ++ bytes.now) }
    {
        for byte in bytes {
            self.push(*byte);
        }
    }

    // More bytes, as many as fit, in one copy: for long ones, where `extend` is for a few.
    fn paste(&mut self, bytes: &[u8])
        ensures { held self.new ≡ take (room MOST) (held self.old ++ bytes.now) }
    {
        let used = self.used;
        let room = MOST.min(MOST_HELD) - used;
        let more = &bytes[..bytes.len().min(room)];
        let all = &mut self.bytes[..];
        all[used..used + more.len()].copy_from_slice(more);
        self.used = used + more.len();
    }

    // The first of the bytes, as many as fit.
    pub fn cut(bytes: &[u8]) -> Octets<MOST>
        ensures { held result ≡ take (room MOST) bytes.now }
    {
        let mut all = Octets::new();
        all.paste(bytes);
        all
    }
}
