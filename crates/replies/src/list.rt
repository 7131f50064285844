// A list in a reply: how many entries it has, and then each of them.
ghost use Rattle.std.specs.Prelude.{◌≡◌, ℕ, List, ◌++◌, take};
ghost use Rattle.replies.specs.List.{list_bytes};
ghost use Rattle.replies.specs.Reply.{contents};

use crate::reply::Reply;

// What a list is made of: an entry puts its bytes behind a reply.
pub(crate) trait Entry {
    ghost laid: { Self → List ℕ };

    fn lay(&self, reply: &mut Reply)
        ensures { contents reply.new ≡ take 768 (contents reply.old ++ laid self.now) };
}

impl Reply {
    // The list of the first entries, at most so many.
    #[tactic(auto, unfolding(crate::specs::List::list_bytes))]
    pub(crate) fn push_list<T: Entry>(&mut self, entries: &[T], most: u8)
        ensures { contents self.new ≡ take 768 (contents self.old ++ list_bytes T.laid (take most entries.now)) }
    {
        let listed = &entries[..entries.len().min(most as usize)];
        self.push(listed.len() as u8);
        for each in listed {
            each.lay(self);
        }
    }

    // What stands before a list, and the list of the first entries, at most so many.
    pub(crate) fn listing<T: Entry>(head: &[u8], entries: &[T], most: u8) -> Reply
        ensures { contents result ≡ take 768 (head.now ++ list_bytes T.laid (take most entries.now)) }
    {
        let mut reply = Reply::cut(head);
        reply.push_list(entries, most);
        reply
    }
}
