// The list of MIDI channels that a tuner or a model is opened with. Channel i of a plan or a pool is entry i (SPEC 1.6a).

ghost use Rattle.std.specs.Prelude.{◌≡◌, ◌==◌, [], length};
ghost use Rattle.std.proofs.Math.ListN.{get_elem?};
ghost use Rattle.arithmetic.specs.Answers.{outcome_by};
ghost use Rattle.channels.specs.ChannelList.{entries, entry_number, list_rule};
ghost use Rattle.channels.specs.Lists.{member};

use crate::channel::{CHANNELS, Channel};
use arithmetic::refusal::Refusal;

// How many entries there can be: each is another channel.
const MOST_ENTRIES: usize = CHANNELS as usize;

// Entries, the first `count` places. Every content is some list: a count over sixteen is read as sixteen, a channel by its remainder by 16. It lies in the
// memory of programs in C, among numbers of two bytes, so its count has two. Its fields are public, for whoever has it in numbers.
#[repr(C)]
#[derive(Clone, Copy)]
pub struct ChannelList {
    pub channels: [u8; MOST_ENTRIES],
    pub count: u16,
}

impl ChannelList {
    // The list without entries.
    pub fn none() -> ChannelList
        ensures { entries result ≡ [] }
    {
        ChannelList {
            channels: [0; MOST_ENTRIES],
            count: 0,
        }
    }

    // The list of these entries. Refuses, entry by entry, 6 a channel over 15 and 7 one that came before (SPEC 1.6).
    // Example: ChannelList::of([0, 1, 0]) is refused (7)
    pub fn of(channels: &[u8]) -> Result<ChannelList, Refusal>
        ensures { outcome_by entries result ≡ list_rule channels.now }
    {
        let mut list = ChannelList::none();
        for &number in channels {
            let channel = Channel::try_from(number)?;
            if list.is_member(channel) {
                return Err(Refusal::ChannelTwice);
            }
            list.channels[list.count as usize] = channel.number();
            list.count += 1;
        }
        Ok(list)
    }

    // How many entries there are.
    pub fn len(self) -> u8
        ensures { result ≡ length (entries self) }
    {
        self.count.min(MOST_ENTRIES as u16) as u8
    }

    // Whether there are none.
    pub fn is_empty(self) -> bool
        ensures { result ≡ (length (entries self) == 0) }
    {
        self.len() == 0
    }

    // The MIDI channel of channel i (SPEC 1.6a).
    pub fn entry(self, i: u8) -> Option<Channel>
        ensures { entry_number result ≡ get_elem? (entries self) i }
    {
        if i < self.len() {
            return Some(Channel::by_remainder(self.channels[i as usize]));
        }
        None
    }

    // Whether a channel is an entry.
    fn is_member(&self, channel: Channel) -> bool
        ensures { result ≡ member channel.number (entries self.now) }
    {
        let entries = &self.channels[..self.len() as usize];
        let number = channel.number();
        entries.iter().any(|entry| entry % CHANNELS == number)
    }
}
