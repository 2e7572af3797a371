// Pools of channels, handed out while somebody plays ("just in time", SPEC 7).

ghost use Rattle.std.specs.Prelude.{◌≡◌, ◌≤◌, length};
ghost use Rattle.arithmetic.specs.Answers.{outcome_by};
ghost use Rattle.channels.specs.Lists.{first};
ghost use Rattle.channels.specs.ChannelList.{entries};
ghost use Rattle.channels.specs.Places.{place};
ghost use Rattle.pools.specs.Pool.{key_count, fresh, found, released, held_keys, stopped, outcome_and_state, register_rule, repitch_rule, open_rule};
ghost use Rattle.std.specs.Iterator.{YieldsFirstBy, item_count};
ghost use Rattle.pools.specs.PoolAnswers.{held_view, remaining, next_held, press_outcome, repitch_outcome};
ghost use Rattle.pools.specs.View.{view, StateMeets, register_note_rule};

mod allocation;

pub use crate::pool::Pool;
pub use crate::queue::Queue;
pub use crate::settings::{PoolGroupBy, PoolingMode, Retrigger};
use arithmetic::note::Note;
use arithmetic::pitch::Pitch;
use arithmetic::refusal::Refusal;
use arithmetic::tuning::{detuning_from, find_by_pitch};
use channels::keys::{HeldKey, KEYS, Place, is_found, place_of};
use channels::list::ChannelList;

// An accepted press: its channel, the note that was stopped for it, if any, its own note, and that note's detuning.
#[derive(Clone, Copy)]
pub struct Registered {
    pub channel: u8,
    pub stopped_note: Option<Note>,
    pub started_note: Note,
    pub detuning: f64,
}

// What a press answers: where the key was held and released first, if it was, and the press itself, or nothing where no channel is free (SPEC 7.2d).
#[derive(Clone, Copy)]
pub struct Pressing {
    pub released: Option<Place>,
    pub registered: Option<Registered>,
}

// Where a key is found, and a pitch's detuning for its note.
#[derive(Clone, Copy)]
pub struct Repitched {
    pub place: Place,
    pub detuning: f64,
}

// A model of channels that are handed out. Every content is some model (SPEC 12.1), since it lies in the memory of programs in C. Its fields are public, for
// whoever has it in numbers.
#[repr(C)]
#[derive(Clone, Copy)]
pub struct JitTuningModel {
    // By key, where it is found.
    pub records: [u16; KEYS],
    pub pools: [Pool; 12],
    pub channels: ChannelList,
    pub group_by: u16,
    pub pooling_mode: u16,
    pub retrigger: u16,
}

impl JitTuningModel {
    // A model in which no key is found, with the channels listed (SPEC 7.1).
    #[tactic(auto, using(channels::proofs::ChannelLists::entries_few, crate::proofs::Models::FreshViews::state_fresh))]
    pub fn new(
        channels: ChannelList,
        group_by: PoolGroupBy,
        pooling_mode: PoolingMode,
        retrigger: Retrigger,
    ) -> JitTuningModel
        ensures { view result ≡ fresh (entries channels) group_by pooling_mode retrigger }
    {
        let pool = Pool::new(channels.len());
        JitTuningModel {
            records: [0; KEYS],
            pools: [pool; 12],
            channels,
            group_by: u16::from(group_by),
            pooling_mode: u16::from(pooling_mode),
            retrigger: u16::from(retrigger),
        }
    }

    // A model in which no key is found, with the channels of a list. Refuses 6 or 7 as the channel list does; the model has no channels then (SPEC 7.1).
    // Example: JitTuningModel::open([0, 16], Channel, Stop, Off) is refused (6)
    #[tactic(auto, using(crate::proofs::Models::FreshViews::entries_listed), unfolding(crate::specs::Pool::open_rule))]
    pub fn open(
        channels: &[u8],
        group_by: PoolGroupBy,
        pooling_mode: PoolingMode,
        retrigger: Retrigger,
    ) -> (JitTuningModel, Result<ChannelList, Refusal>)
        ensures { (outcome_by entries result.1, view result.0) ≡ open_rule channels.now group_by pooling_mode retrigger }
    {
        let answer = ChannelList::of(channels);
        let list = answer.unwrap_or(ChannelList::none());
        (
            JitTuningModel::new(list, group_by, pooling_mode, retrigger),
            answer,
        )
    }

    // What a press would answer: where the key would be released first, its channel, and the note that would be stopped for it; nothing where no channel is
    // free. Refuses 1, then 11 a key that is held, unless the model has retrigger (SPEC 7.2, 7.2d).
    // Example: open([0, 1], Channel, Stop, Off); allocate_key(1, 445 Hz) is channel 0, note 69, detuning 1.011363...
    #[tactic(auto, using(crate::proofs::Pools::Presses::register_found, crate::proofs::Pools::Presses::register_refused), unfolding(crate::specs::Pool::outcome_and_state))]
    pub fn allocate_key(&self, key: u8, pitch: Pitch) -> Result<Pressing, Refusal>
        ensures { press_outcome result ≡ (outcome_and_state (view self.now) (register_rule (view self.now) key pitch.hz)).0 }
    {
        let nearest = find_by_pitch(pitch)?;
        if is_found(self.records[key as usize]) {
            // The key is released on a copy, which presses of other keys do without.
            let mut model = *self;
            return model.press(key, nearest.note, nearest.detuning);
        }
        let allocation = self.channel_for(nearest.note);
        Ok(Pressing {
            released: None,
            registered: allocation.map(|allocation| allocation.registered(
                nearest.note,
                nearest.detuning,
            )),
        })
    }

    // A press: the nearest note, on a channel of its pool; nothing where no channel is free. Refuses 1, then 11 a key that is held, unless the model has
    // retrigger: then the key is released first (SPEC 7.2, 7.2d, 7.3).
    // Example: open([0], Channel, Stop, Off); register_key(1, 445 Hz) is channel 0, note 69, detuning 1.011363...
    // Example: open([0], Channel, Stop, Off); register_key(1, 440 Hz); register_key(1, 440 Hz) is refused (11)
    // Example: open([0], Channel, Stop, On); register_key(1, 55 Hz); register_key(1, 55 Hz) is released from channel 0, note 33; channel 0, note 33, detuning 1
    // Example: open([0], Channel, Stop, Off); register_key(1, 440 Hz); register_key(2, 880 Hz) is channel 0, note 81, detuning 1, stopped note 69
    // Example: open([0], Channel, Block, Off); register_key(1, 440 Hz); register_key(2, 880 Hz) is rejected
    // Example: open([0, 1], Channel, Stop, Off); register_key(1, 445 Hz) is channel 0, note 69, detuning 1.011363...
    #[tactic(auto, using(crate::proofs::Pools::Presses::register_found, crate::proofs::Pools::Presses::register_refused), unfolding(crate::specs::Pool::outcome_and_state))]
    pub fn register_key(&mut self, key: u8, pitch: Pitch) -> Result<Pressing, Refusal>
        ensures answer { press_outcome result ≡ (outcome_and_state (view self.old) (register_rule (view self.old) key pitch.hz)).0 }
        ensures state { StateMeets (register_rule (view self.old) key pitch.hz) self.old self.new }
    {
        let nearest = find_by_pitch(pitch)?;
        self.press(key, nearest.note, nearest.detuning)
    }

    // A press for a note and a detuning: with those that `allocate_key` answers it is the press that was asked about. Refuses 4, then 11 a key that is held,
    // unless the model has retrigger (SPEC 7.2a, 7.2d).
    #[tactic(auto, using(crate::proofs::Pools::Presses::not_noted), unfolding(crate::specs::View::register_note_rule, crate::specs::Pool::outcome_and_state))]
    pub fn register_note(&mut self, key: u8, note: i32, detuning: f64) -> Result<Pressing, Refusal>
        ensures answer { press_outcome result ≡ (outcome_and_state (view self.old) (register_note_rule (view self.old) key note detuning)).0 }
        ensures state { StateMeets (register_note_rule (view self.old) key note detuning) self.old self.new }
    {
        let note = Note::try_from(note)?;
        self.press(key, note, detuning)
    }

    // A release: where the key was found (SPEC 7.4).
    // Example: open([0], Channel, Stop, Off); register_key(1, 440 Hz); deregister_key(1) is channel 0, note 69
    #[tactic(auto, using(crate::proofs::Pools::Releases::releases), unfolding(channels::specs::Places::place, crate::specs::PoolInternal::held_by))]
    pub fn deregister_key(&mut self, key: u8) -> Option<Place>
        ensures answer { place result ≡ found (view self.old) key }
        ensures state { view self.new ≡ released (view self.old) key }
    {
        let held = self.holder(key)?;
        self.release(&held);
        Some(held.place())
    }

    // A lookup: where the key is found (SPEC 7.2).
    // Example: open([0], Channel, Stop, Off); register_key(1, 440 Hz); access_key(1) is channel 0, note 69
    #[tactic(auto, using(crate::proofs::Models::Views::key_here))]
    pub fn access_key(&self, key: u8) -> Option<Place>
        ensures { place result ≡ found (view self.now) key }
    {
        place_of(self.records[key as usize])
    }

    // The detuning of a pitch for the note of a found key. Refuses 1, for unknown keys too (SPEC 7.5).
    // Example: open([0], Channel, Stop, Off); register_key(1, 440 Hz); repitch_key(1, 445 Hz) is channel 0, note 69, detuning 1.011363...
    #[tactic(auto, unfolding(crate::specs::Pool::repitch_rule, crate::specs::Pool::tuning, channels::specs::Places::place))]
    pub fn repitch_key(&self, key: u8, pitch: Pitch) -> Result<Option<Repitched>, Refusal>
        ensures { repitch_outcome result ≡ repitch_rule (view self.now) key pitch.hz }
    {
        if !pitch.is_in_range() {
            return Err(Refusal::PitchOutOfRange);
        }
        let found = self.access_key(key);
        Ok(found.map(|place| Repitched {
            place,
            detuning: detuning_from(pitch, place.note),
        }))
    }

    // The first found key from a number on. All found keys by rising key: from 0, and then each time from one above the last (SPEC 7.7).
    // Example: open([0], Channel, Stop, Off); register_key(1, 440 Hz); next_key(0) is key 1, channel 0, note 69
    #[tactic(auto, using(crate::proofs::Models::Views::next_keys), unfolding(crate::specs::PoolAnswers::next_held, channels::specs::Places::place, channels::specs::Lists::first))]
    pub fn next_key(&self, from: usize) -> Option<HeldKey>
        ensures { next_held result ≡ first (held_keys (view self.now) from) }
    {
        for key in from..KEYS {
            if let Some(place) = place_of(self.records[key]) {
                return Some(HeldKey {
                    key: key as u16,
                    place,
                });
            }
        }
        None
    }

    // All found keys, by rising key (SPEC 7.7).
    #[tactic(auto, using(crate::proofs::Pools::HeldKeys::held_few, crate::proofs::Models::Views::keys_many))]
    pub fn held_keys(&self) -> HeldKeys<'_>
        ensures all { remaining result ≡ held_keys (view self.now) 0 }
        ensures few { length (remaining result) ≤ key_count }
    {
        HeldKeys {
            model: self,
            from: 0,
        }
    }

    // Every found key is released, by rising key (SPEC 7.6).
    // Example: open([0], Channel, Stop, Off); register_key(1, 440 Hz); stop(); access_key(1) is not found
    #[tactic(auto, using(crate::proofs::Models::Views::stops), unfolding(crate::specs::Pool::stopped, crate::specs::Pool::released_all))]
    pub fn stop(&mut self)
        ensures { view self.new ≡ stopped (view self.old) }
    {
        for key in 0..KEYS {
            self.deregister_key(key as u8);
        }
    }

    // The channel list that the model was opened with.
    #[tactic(auto, unfolding(crate::specs::View::view, crate::specs::View::state_with))]
    pub fn channels(&self) -> ChannelList
        ensures { entries result ≡ (view self.now).channels }
    {
        self.channels
    }

    // How many channels each pool has.
    #[tactic(auto, unfolding(crate::specs::View::view, crate::specs::View::state_with))]
    pub fn num_channels(&self) -> u8
        ensures { result ≡ length (view self.now).channels }
    {
        self.channels.len()
    }
}

// The found keys from a number on, by rising key.
#[derive(Clone, Copy)]
pub struct HeldKeys<'a> {
    model: &'a JitTuningModel,
    from: usize,
}

impl<'a> Iterator for HeldKeys<'a> {
    type Item = HeldKey;

    ghost next_gives = { YieldsFirstBy held_view remaining };

    ghost remaining = { item_count remaining };

    #[tactic(auto, using(crate::proofs::Pools::HeldKeys::next_none), unfolding(crate::specs::PoolAnswers::next_held))]
    fn next(&mut self) -> Option<HeldKey> {
        let held = self.model.next_key(self.from)?;
        self.from = held.key as usize + 1;
        Some(held)
    }
}

// By value: the model goes in and is handed back (SPEC 9.7).
impl JitTuningModel {
    // A press.
    #[tactic(auto, using(crate::proofs::Models::Views::moves_state))]
    pub fn pressed(mut self, key: u8, pitch: Pitch) -> (JitTuningModel, Result<Pressing, Refusal>)
        ensures { (press_outcome result.1, view result.0) ≡ outcome_and_state (view self) (register_rule (view self) key pitch.hz) }
    {
        let answer = self.register_key(key, pitch);
        (self, answer)
    }

    // A release.
    pub fn released(mut self, key: u8) -> (JitTuningModel, Option<Place>)
        ensures answer { place result.1 ≡ found (view self) key }
        ensures state { view result.0 ≡ released (view self) key }
    {
        let place = self.deregister_key(key);
        (self, place)
    }

    // A lookup.
    pub fn looked_up(self, key: u8) -> Option<Place>
        ensures { place result ≡ found (view self) key }
    {
        self.access_key(key)
    }

    // The release of every found key.
    pub fn stopped(mut self) -> JitTuningModel
        ensures { view result ≡ stopped (view self) }
    {
        self.stop();
        self
    }
}

#[cfg(test)]
mod tests {
    use super::*;

    // A model of no sense, as the memory of a program in C may hold one, is some model.
    #[test]
    fn model_of_no_sense(rt: HostRuntime) {
        let queue = Queue {
            count: u16::MAX,
            items: [u16::MAX; 16],
        };
        let pool = Pool {
            free: queue,
            order: queue,
        };
        let mut model = JitTuningModel {
            records: [u16::MAX; KEYS],
            pools: [pool; 12],
            channels: ChannelList::none(),
            group_by: u16::MAX,
            pooling_mode: u16::MAX,
            retrigger: u16::MAX,
        };
        assert!(rt; model.access_key(255).is_none());
        let Ok(
            Pressing {
                released: None,
                registered: Some(press),
            },
        ) = model.register_key(255, Pitch::from_hz(440.0))
        else {
            panic!(rt; "the press is accepted");
        };
        assert_eq!(rt; press.channel, 15);
        assert_eq!(rt; press.started_note.number(), 69);
        assert!(rt; press.stopped_note.is_none());
        assert!(rt; press.detuning == 1.0);
        model.stop();
        assert!(rt; model.access_key(255).is_none());
    }
}
