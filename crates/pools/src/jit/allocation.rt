// Which channel a press gets, and how a press takes it and a release gives it back (SPEC 7.2c, 7.3, 7.4).

ghost use Rattle.std.specs.Prelude.{◌≡◌, ◌<◌, ℕ, Float};
ghost use Rattle.arithmetic.specs.Answers.{outcome_by};
ghost use Rattle.channels.specs.Places.{place, place_in};
ghost use Rattle.pools.specs.Pool.{pool, found, held_at, oldest, freed, without_key, taken, outcome_and_state, pressed, unless_held};
ghost use Rattle.pools.specs.PoolAnswers.{press_outcome, registered_view};
ghost use Rattle.pools.specs.PoolInternal.{held_place, held_by, press_of, press_and_state, allocated_channel, with_channel_free, release_rule};
ghost use Rattle.pools.specs.View.{pool_in, view, StateMeets};

use super::{JitTuningModel, Pressing, Registered};
use crate::pool::Pool;
use crate::settings::{PoolGroupBy, PoolingMode, Retrigger};
use arithmetic::note::Note;
use arithmetic::refusal::Refusal;
use channels::channel::Channel;
use channels::keys::Place;

// A key on a channel of its note's pool. That is channel i of the model, a place in the channel list, which has at most sixteen, so that i is a `Channel` too.
// It is lent: the steps of a press and of a release that take it by value take a ninth more instructions.
#[derive(Clone, Copy)]
pub(super) struct Holder {
    key: u8,
    channel: Channel,
    note: Note,
}

impl Holder {
    pub(super) fn place(self) -> Place
        ensures { place_in result ≡ held_place self }
    {
        Place {
            channel: self.channel.number(),
            note: self.note,
        }
    }
}

// The channel for a press of a key that is not held.
#[derive(Clone, Copy)]
pub(super) enum Allocation {
    // The front of the free ones.
    Free(Channel),
    // That of the longest-held key, which is released.
    Stopped(Holder),
    // That of the longest-held key, which stays found.
    Ignored(Holder),
}

impl Allocation {
    fn channel(self) -> Channel
        ensures { result ≡ allocated_channel self }
    {
        match self {
            Allocation::Free(channel) => channel,
            Allocation::Stopped(old) => old.channel,
            Allocation::Ignored(old) => old.channel,
        }
    }

    // What the press answers that gets the channel.
    pub(super) fn registered(self, note: Note, detuning: f64) -> Registered
        ensures { registered_view (Some result) ≡ press_of (Some self) note.number detuning }
    {
        let stopped_note = match self {
            Allocation::Stopped(old) => Some(old.note),
            _ => None,
        };
        Registered {
            channel: self.channel().number(),
            stopped_note,
            started_note: note,
            detuning,
        }
    }
}

// The steps of a press and of a release.
impl JitTuningModel {
    // The key on its channel, if it is found.
    #[tactic(auto, unfolding(channels::specs::Places::place, crate::specs::PoolInternal::held_by, crate::specs::Pool::held_at))]
    pub(super) fn holder(&self, key: u8) -> Option<Holder>
        ensures { held_by result ≡ held_at key (found (view self.now) key) }
    {
        let place = self.access_key(key)?;
        Some(Holder {
            key,
            channel: Channel::by_remainder(place.channel),
            note: place.note,
        })
    }

    // A key that is held is released for its next press; where it was. Refuses 11 a held key of a model without retrigger (SPEC 7.2b, 7.2d).
    fn release_for_press(&mut self, key: u8) -> Result<Option<Place>, Refusal>
        ensures answer { outcome_by place result ≡ (outcome_and_state (view self.old) (release_rule (view self.old) key)).0 }
        ensures state { StateMeets (release_rule (view self.old) key) self.old self.new }
    {
        let Some(held) = self.holder(key) else {
            return Ok(None);
        };
        match Retrigger::from(self.retrigger) {
            Retrigger::Off => Err(Refusal::KeyHeld),
            Retrigger::On => {
                self.release(&held);
                Ok(Some(held.place()))
            }
        }
    }

    // The channel for a press of a key that is not held (SPEC 7.2c, 7.3).
    #[tactic(auto, using(crate::proofs::Models::Allocations::allocations), unfolding(crate::specs::PoolInternal::held_by))]
    pub(super) fn channel_for(&self, note: Note) -> Option<Allocation>
        ensures { (key : ℕ) (d : Float) → pressed (view self.now) key note.number d ≡ press_and_state (view self.now) key note.number d result }
    {
        if let Some(channel) = self.pool_for(note).next_free() {
            return Some(Allocation::Free(channel));
        }
        let old = self.longest_held(note)?;
        let group = PoolGroupBy::from(self.group_by);
        let old_at = group.pool_of(old.note);
        if old_at != group.pool_of(note) {
            return None;
        }
        match PoolingMode::from(self.pooling_mode) {
            PoolingMode::Block => None,
            PoolingMode::Stop => Some(Allocation::Stopped(old)),
            PoolingMode::Ignore => Some(Allocation::Ignored(old)),
        }
    }

    // The pool of a note.
    #[tactic(auto, using(crate::proofs::Models::Views::pool_here))]
    fn pool_for(&self, note: Note) -> &Pool
        ensures { pool_in result.now ≡ pool (view self.now) note.number }
    {
        &self.pools[PoolGroupBy::from(self.group_by).pool_of(note)]
    }

    // The longest-held key that has its channel, in the pool of a note, if it is found; a number that is no key's is not.
    #[tactic(auto, using(crate::proofs::Models::Views::key_past), unfolding(crate::specs::View::pool_in, crate::specs::PoolInternal::held_by, crate::specs::Pool::oldest, crate::specs::Pool::oldest_of, crate::specs::Pool::held_at))]
    fn longest_held(&self, note: Note) -> Option<Holder>
        ensures { held_by result ≡ oldest (view self.now) note.number }
    {
        let key = self.pool_for(note).order.front()?;
        self.holder(u8::try_from(key).ok()?)
    }

    // A press for a note; nothing where no channel is free. Refuses 11 a held key of a model without retrigger.
    #[tactic(auto, unfolding(crate::specs::Pool::outcome_and_state))]
    pub(super) fn press(&mut self, key: u8, note: Note, detuning: f64) -> Result<Pressing, Refusal>
        ensures answer { press_outcome result ≡ (outcome_and_state (view self.old) (unless_held (view self.old) key note.number detuning)).0 }
        ensures state { StateMeets (unless_held (view self.old) key note.number detuning) self.old self.new }
    {
        let released = self.release_for_press(key)?;
        let registered = self.press_released(key, note, detuning);
        Ok(Pressing {
            released,
            registered,
        })
    }

    // A press of a key that is not held; nothing where no channel is free (SPEC 7.2c, 7.3).
    fn press_released(&mut self, key: u8, note: Note, detuning: f64) -> Option<Registered>
        ensures { (registered_view result, view self.new) ≡ pressed (view self.old) key note.number detuning }
    {
        let allocation = self.channel_for(note)?;
        self.make_room(allocation);
        self.take(&Holder {
            key,
            channel: allocation.channel(),
            note,
        });
        Some(allocation.registered(note, detuning))
    }

    // The channel is free, if it was the longest-held key's.
    fn make_room(&mut self, allocation: Allocation)
        ensures { view self.new ≡ with_channel_free (view self.old) allocation }
    {
        match allocation {
            Allocation::Free(_) => {}
            Allocation::Stopped(old) => self.release(&old),
            Allocation::Ignored(old) => self.free(&old),
        }
    }

    // The front of its note's pool goes to the key, which is held from then on (SPEC 7.2c).
    #[tactic(auto, using(crate::proofs::Models::Views::view_taken, channels::proofs::Records::place_record_low))]
    fn take(&mut self, holder: &Holder)
        ensures { view self.new ≡ taken (view self.old) holder.now.key holder.now.note.number holder.now.channel.number }
    {
        let at = PoolGroupBy::from(self.group_by).pool_of(holder.note);
        self.pools[at].taken_by(holder.key);
        self.records[holder.key as usize] = holder.place().record();
    }

    // The channel of a key goes back to the pool of its note, unless the key has lost it (SPEC 7.4).
    #[tactic(auto, using(crate::proofs::Models::Views::view_freed))]
    fn free(&mut self, holder: &Holder)
        ensures { view self.new ≡ freed (view self.old) holder.now.key (held_place holder.now) }
    {
        let at = PoolGroupBy::from(self.group_by).pool_of(holder.note);
        self.pools[at].freed_by(holder.key, holder.channel);
    }

    // The same, and the key is not found any more.
    #[tactic(auto, using(crate::proofs::Models::Views::key_forgotten))]
    pub(super) fn release(&mut self, holder: &Holder)
        ensures { view self.new ≡ without_key (freed (view self.old) holder.now.key (held_place holder.now)) holder.now.key }
    {
        self.free(holder);
        self.records[holder.key as usize] = 0;
    }
}
