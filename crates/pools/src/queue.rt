// A queue of at most sixteen numbers. Every content is some queue (SPEC 12.1): a count over sixteen is read as sixteen.

ghost use Rattle.std.specs.Prelude.{◌≡◌, ◌≤◌, [], length, drop};
ghost use Rattle.arithmetic.specs.Answers.{optional};
ghost use Rattle.channels.specs.Lists.{first, member, upward, without};
ghost use Rattle.pools.specs.View.{queue_of};
ghost use Rattle.pools.specs.Pool.{enqueue};

use std::array;

const MOST_ITEMS: usize = 16;

// How many items there are, then the items, the front first: so it lies in the memory of programs in C.
#[repr(C)]
#[derive(Clone, Copy)]
pub struct Queue {
    pub count: u16,
    pub items: [u16; MOST_ITEMS],
}

impl Queue {
    // The queue without items.
    #[tactic(auto, unfolding(crate::specs::View::queue_of))]
    pub(crate) fn new() -> Queue
        ensures { queue_of result ≡ [] }
    {
        Queue {
            count: 0,
            items: [0; MOST_ITEMS],
        }
    }

    // The numbers from 0 upward.
    pub(crate) fn count_up(count: u8) -> Queue
        requires { count ≤ 16 }
        ensures { queue_of result ≡ upward 0 count }
    {
        Queue {
            count: count as u16,
            items: array::from_fn(|i| i as u16),
        }
    }

    // How many items there are.
    #[tactic(auto, unfolding(crate::specs::View::queue_of))]
    pub(crate) fn len(&self) -> usize
        ensures count { result ≡ length (queue_of self.now) }
        ensures few { result ≤ 16 }
    {
        (self.count as usize).min(MOST_ITEMS)
    }

    // The front, if there is one.
    #[tactic(auto, using(crate::proofs::Queues::front_is), unfolding(crate::specs::View::queue_of))]
    pub(crate) fn front(&self) -> Option<u16>
        ensures { optional result ≡ first (queue_of self.now) }
    {
        let has_items = 0 < self.count;
        has_items.then_some(self.items[0])
    }

    // One item more at the back; a full queue stays as it is.
    #[tactic(auto, using(crate::proofs::Queues::enqueued), unfolding(crate::specs::View::queue_of))]
    pub(crate) fn push_back(&mut self, x: u16)
        ensures { queue_of self.new ≡ enqueue (queue_of self.old) x }
    {
        let n = self.len();
        if n < MOST_ITEMS {
            self.items[n] = x;
            self.count = n as u16 + 1;
        }
    }

    // The queue without its front.
    #[tactic(auto, using(crate::proofs::Queues::rest_moved, crate::proofs::Queues::counted), unfolding(crate::specs::View::queue_of))]
    pub(crate) fn pop_front(&mut self)
        ensures { queue_of self.new ≡ drop 1 (queue_of self.old) }
    {
        let n = self.len();
        if 0 < n {
            // All fifteen, so that nothing branches on how many there are.
            self.items.copy_within(1.., 0);
            self.count = n as u16 - 1;
        }
    }

    // The queue without a number; whether it was there.
    #[tactic(auto, unfolding(crate::specs::View::queue_of, channels::specs::Lists::without))]
    pub(crate) fn remove(&mut self, x: u16) -> bool
        ensures found { result ≡ member x (queue_of self.old) }
        ensures left { queue_of self.new ≡ without x (queue_of self.old) }
    {
        let n = self.len();
        // One pass, since a slice has no `retain`.
        let mut kept: usize = 0;
        for i in 0..n {
            let y = self.items[i];
            self.items[kept] = y;
            if y != x {
                kept += 1;
            }
        }
        self.count = kept as u16;
        kept < n
    }
}
