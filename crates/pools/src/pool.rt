// A pool (SPEC 7.1): the queue of its free channels, then that of its keys in press order.

ghost use Rattle.std.specs.Prelude.{◌≡◌, ◌≤◌};
ghost use Rattle.channels.specs.ChannelList.{entry_number};
ghost use Rattle.channels.specs.Lists.{first};
ghost use Rattle.pools.specs.View.{pool_in};
ghost use Rattle.pools.specs.Pool.{fresh_pool, taken_in, freed_in};

use crate::queue::Queue;
use channels::channel::Channel;

#[repr(C)]
#[derive(Clone, Copy)]
pub struct Pool {
    pub free: Queue,
    pub order: Queue,
}

impl Pool {
    // The pool with its first channels free.
    #[tactic(auto, using(crate::proofs::Queues::channels_same), unfolding(crate::specs::View::pool_in))]
    pub(crate) fn new(count: u8) -> Pool
        requires { count ≤ 16 }
        ensures { pool_in result ≡ fresh_pool count }
    {
        Pool {
            free: Queue::count_up(count),
            order: Queue::new(),
        }
    }

    // The next free channel, if there is one. A number in the memory of a program in C is read by its remainder by 16, and so by that by 256.
    #[tactic(auto, using(crate::proofs::Queues::first_map, crate::proofs::Queues::first_map_none), unfolding(crate::specs::View::pool_in))]
    pub(crate) fn next_free(&self) -> Option<Channel>
        ensures { entry_number result ≡ first (pool_in self.now).free }
    {
        let number = self.free.front()?;
        Some(Channel::by_remainder((number % 256) as u8))
    }

    // The front goes to the key (SPEC 7.2c).
    #[tactic(auto, unfolding(crate::specs::View::pool_in, crate::specs::Pool::taken_in))]
    pub(crate) fn taken_by(&mut self, key: u8)
        ensures { pool_in self.new ≡ taken_in (pool_in self.old) key }
    {
        self.free.pop_front();
        self.order.push_back(key as u16);
    }

    // The channel goes to the back, unless the key has lost it (SPEC 7.4).
    #[tactic(auto, using(crate::proofs::Queues::put_back), unfolding(crate::specs::View::pool_in, crate::specs::Pool::freed_in))]
    pub(crate) fn freed_by(&mut self, key: u8, channel: Channel)
        ensures { pool_in self.new ≡ freed_in (pool_in self.old) key channel.number }
    {
        if self.order.remove(key as u16) {
            self.free.push_back(channel.number() as u16);
        }
    }
}
