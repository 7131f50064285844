ghost use Rattle.std.specs.Prelude.{◌≡◌, ◌≤◌, [], ◌∷◌, ◌++◌, length, take};
ghost use Rattle.replies.specs.Reply.{contents, Alike, word};

use octets::Octets;

// The message of a reply, as it is filled: at most 768 bytes.
#[derive(Clone, Copy)]
pub struct Reply {
    message: Octets<768>,
}

impl Reply {
    // A reply of no bytes.
    #[tactic(auto, using(crate::proofs::Filling::alike), unfolding(crate::specs::Reply::contents))]
    pub fn new() -> Reply
        ensures bytes { contents result ≡ [] }
        ensures alike { Alike }
    {
        Reply {
            message: Octets::new(),
        }
    }

    // The first bytes, as many as fit.
    #[tactic(auto, unfolding(crate::specs::Reply::contents))]
    pub(crate) fn cut(bytes: &[u8]) -> Reply
        ensures { contents result ≡ take 768 bytes.now }
    {
        Reply {
            message: Octets::cut(bytes),
        }
    }

    // The message.
    #[tactic(auto, unfolding(crate::specs::Reply::contents))]
    pub fn bytes(&self) -> &[u8]
        ensures value { result.now ≡ contents self.now }
        ensures most { length result.now ≤ 768 }
    {
        self.message.as_slice()
    }

    // One byte more, where it fits.
    #[tactic(auto, unfolding(crate::specs::Reply::contents))]
    pub fn push(&mut self, byte: u8)
        ensures { contents self.new ≡ take 768 (contents self.old ++ byte ∷ []) }
    {
        self.message.push(byte);
    }

    // More bytes, as many as fit.
    #[tactic(auto, unfolding(crate::specs::Reply::contents))]
    pub fn extend(&mut self, bytes: &[u8])
        ensures { contents self.new ≡ take 768 (contents self.old ++ bytes.now) }
    {
        self.message.extend(bytes);
    }

    // A word more, high byte first.
    pub fn push_word(&mut self, number: u16)
        ensures { contents self.new ≡ take 768 (contents self.old ++ word number) }
    {
        self.extend(&number.to_be_bytes());
    }
}
