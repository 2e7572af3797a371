// Plans ("ahead of time"): every key gets a channel and a note before anyone plays (SPEC 6).

ghost use Rattle.std.specs.Prelude.{◌≡◌, OnOk, from_bits};
ghost use Rattle.std.specs.Float.{binary64};
ghost use Rattle.arithmetic.specs.Answers.{optional, outcome_by};
ghost use Rattle.channels.specs.ChannelList.{entries};
ghost use Rattle.plans.specs.PlanNumbers.{detuning_of, floats, group_by_of};
ghost use Rattle.plans.specs.Plan.{Measurable, PlanOptimal, TuningMeets, access_answer, empty, next_rule, open_rule, plan_answer, view, planned};
ghost use Rattle.plans.specs.PlanInternal.{IsLeast, group_up_to, groups_from, raised};

use crate::lists::TuningLists;
use crate::placing::{group_of, place_keys};
use crate::sorted_keys::SortedKeys;
use arithmetic::refusal::Refusal;
use channels::keys::{KEYS, Place, place_of};
use channels::list::ChannelList;
use std::num::{f64_from_bits_with_nan, f64_to_bits_with_nan};

// What a sound module retunes together: one note, one note letter, or a whole channel (SPEC 1.7).
#[derive(Clone, Copy, Debug, PartialEq, Eq)]
pub enum GroupBy {
    Note = 0,
    NoteLetter = 1,
    Channel = 2,
}

// A number that names none is read as 0 (SPEC 12.2).
impl From<u16> for GroupBy {
    ghost from_gives = { λ number group. group ≡ group_by_of number };

    #[tactic(auto, unfolding(crate::specs::PlanNumbers::group_by_of))]
    fn from(number: u16) -> GroupBy {
        match number {
            1 => GroupBy::NoteLetter,
            2 => GroupBy::Channel,
            _ => GroupBy::Note,
        }
    }
}

// What a tuning that is not refused comes to (SPEC 6.4). It is no Result, since a plan that needs more channels than there are is no error but an answer.
#[derive(Clone, Copy, Debug, PartialEq, Eq)]
pub enum Planned {
    // How many channels the plan uses.
    Tuned(u16),
    // How many it would need; there are fewer.
    Untuned(u16),
}

// A model of tunings that are planned. Every content is some model (SPEC 12.1), since it lies in the memory of programs in C. Its fields are public, for
// whoever has it in numbers.
#[repr(C)]
#[derive(Clone, Copy)]
pub struct AotTuningModel {
    // By key, where it is in the plan, and the bits of its detuning: f64s that are NaN are one value to the prover, and a model that a refusal leaves is the
    // same to the bit. They are two arrays, since they lie so in C's memory, without padding.
    pub records: [u16; KEYS],
    pub detunings: [u64; KEYS],
    pub channels: ChannelList,
    pub group_by: u16,
    pub num_channels: u16,
    pub tuned: u16,
}

impl AotTuningModel {
    // A model without a plan, for the channels listed (SPEC 6.2).
    pub fn new(channels: ChannelList, group_by: GroupBy) -> AotTuningModel
        ensures { view result ≡ empty (entries channels) group_by }
    {
        AotTuningModel {
            records: [0; KEYS],
            detunings: [0; KEYS],
            channels,
            group_by: group_by as u16,
            num_channels: channels.len() as u16,
            tuned: 0,
        }
    }

    // The same in place, where the model lies: it becomes one without a plan. Detunings are left as they lie, since no key is in the plan.
    pub fn reset(&mut self, channels: ChannelList, group_by: GroupBy)
        ensures { view self.new ≡ empty (entries channels) group_by }
    {
        self.records = [0; KEYS];
        self.channels = channels;
        self.group_by = group_by as u16;
        self.num_channels = channels.len() as u16;
        self.tuned = 0;
    }

    // A model without a plan, for the channels of a list. Refuses, entry by entry, 6 a channel over 15 and 7 one that came before;
    // the model has no channels then (SPEC 6.2a).
    // (A pool model has an `open` of its own, with other settings: what both share is `ChannelList::of`, and a trait over both would be no plainer.)
    // Example: AotTuningModel::open([0, 1], Channel) is channels listed 2
    #[tactic(auto, unfolding(crate::specs::Plan::open_rule))]
    pub fn open(
        channels: &[u8],
        group_by: GroupBy,
    ) -> (AotTuningModel, Result<ChannelList, Refusal>)
        ensures { (outcome_by entries result.1, view result.0) ≡ open_rule channels.now group_by }
    {
        let answer = ChannelList::of(channels);
        let list = answer.unwrap_or(ChannelList::none());
        (AotTuningModel::new(list, group_by), answer)
    }

    // Plans the keys of lists: of notes and detunings, or of pitches, where each key has the nearest note. Refuses 12, then line by line
    // 4, 3, 5 of notes and 1, 5 of pitches (SPEC 6.1b). A plan that needs more channels than there are leaves none (SPEC 6.4a).
    // Example: open([0, 1], Channel); set_tuning([1, 2], [69, 69], [1, 33/32]) is tuned, channels used 2
    // Example: open([0, 1], Channel); set_tuning([1, 2, 3], [69, 69, 69], [1, 33/32, 31/32]) is untuned, channels needed 3
    // Example: open([0, 1], Channel); set_tuning([1, 1], [69, 69], [1, 1]) is refused (5)
    // Example: open([0, 1], Channel); set_tuning(pitches [1, 2, 3], [440, 445, 880]) is tuned, channels used 2
    // Example: open([0, 1], Channel); set_tuning(pitches [1, 2], [440, 445]) is tuned, channels used 2
    pub fn set_tuning<L: TuningLists>(&mut self, lists: &L) -> Result<Planned, Refusal>
        ensures meets { TuningMeets (planned (view self.old) (L.lines lists.now)) self.old self.new (plan_answer result) }
        ensures optimal { PlanOptimal (view self.old) (L.lines lists.now) (view self.new, plan_answer result) }
        ensures measurable { OnOk result (Measurable (view self.new)) }
    {
        let channels = self.channels();
        let by = self.group_by();
        let mut keys = SortedKeys::of(lists)?;
        let count = place_keys(&mut keys, by);
        let present = channels.len() as u16;
        let few = present < count;
        if few {
            self.reset(channels, by);
            return Ok(Planned::Untuned(count));
        }
        self.records = keys.records;
        put_bits(&keys.detunings, &mut self.detunings);
        self.num_channels = count;
        self.tuned = 1;
        Ok(Planned::Tuned(count))
    }

    // A lookup: the channel and the note of a key of the plan (SPEC 6.5).
    // Example: open([0, 1], Channel); set_tuning([1, 2], [69, 69], [1, 33/32]); access_key(2) is channel 1, note 69
    // Example: open([0, 1], Channel); set_tuning([1, 2], [69, 69], [1, 33/32]); access_key(3) is not found
    pub fn access_key(&self, key: u8) -> Option<Place>
        ensures { access_answer result ≡ (view self.now).keys key }
    {
        place_of(self.records[key as usize])
    }

    // How many channels the plan uses, and without a plan how many there are (SPEC 6.4b).
    #[tactic(auto, unfolding(crate::specs::Plan::view))]
    pub fn num_channels(&self) -> u16
        ensures { result ≡ (view self.now).num_channels }
    {
        self.num_channels
    }

    // Whether there is a plan (SPEC 6.4b).
    #[tactic(auto, unfolding(crate::specs::Plan::view))]
    pub fn tuned(&self) -> bool
        ensures { result ≡ (view self.now).tuned }
    {
        self.tuned == 1
    }

    // The channel list that the model was opened with.
    #[tactic(auto, unfolding(crate::specs::Plan::view))]
    pub fn channels(&self) -> ChannelList
        ensures { entries result ≡ (view self.now).channels }
    {
        self.channels
    }

    // What the plan retunes together.
    #[tactic(auto, unfolding(crate::specs::Plan::view))]
    pub fn group_by(&self) -> GroupBy
        ensures { result ≡ (view self.now).group_by }
    {
        GroupBy::from(self.group_by)
    }

    // The detuning of a group on a channel of the plan, carried over from the channels before where it was not replaced. A note is its own group's number,
    // a letter's is 0 to 11, a whole channel's 0 (SPEC 6.5a).
    // Example: open([0, 1], Channel); set_tuning([1, 2], [69, 69], [1, 33/32]); detuning(1, 0) is 1.03125
    #[tactic(auto, unfolding(crate::specs::Plan::view, crate::specs::Plan::detuning_in, crate::specs::Plan::highest))]
    pub fn detuning(&self, channel: u16, group: i32) -> Option<f64>
        ensures { optional result ≡ (view self.now).detunings channel group }
    {
        if self.num_channels <= channel {
            return None;
        }
        let by = self.group_by();
        let mut largest: Option<f64> = None;
        for (&raw, &bits) in self.records.iter().zip(&self.detunings) {
            if group_up_to(raw, by, channel) == Some(group) {
                largest = raised(largest, detuning_of(bits));
            }
        }
        largest
    }

    // The first of a channel's detunings whose group is `from` or higher, with its group: they are listed by rising group (SPEC 6.5b).
    // Example: open([0, 1], Channel); set_tuning([1, 2], [69, 69], [1, 33/32]); next_detuning(1, -300) is group 0, detuning 1.03125
    pub fn next_detuning(&self, channel: u16, from: i32) -> Option<(i32, f64)>
        ensures { optional result ≡ next_rule (view self.now) channel from }
    {
        let by = self.group_by();
        let group = least_group(&self.records, by, channel, from)?;
        let detuning = self.detuning(channel, group)?;
        Some((group, detuning))
    }
}

// The least group, not below `from`, of the keys in the plan on a channel or one before it.
fn least_group(records: &[u16], by: GroupBy, channel: u16, from: i32) -> Option<i32>
    ensures { IsLeast (groups_from by channel from records.now) result }
{
    records
        .iter()
        .filter_map(|&raw| group_up_to(raw, by, channel))
        .filter(|&group| from <= group)
        .min()
}

// The group of a record's key, if that is in the plan on a channel or one before it.
#[tactic(auto, using(crate::proofs::Model::Records::up_to_none, crate::proofs::Model::Records::up_to_over, crate::proofs::Model::Records::up_to_own))]
fn group_up_to(raw: u16, by: GroupBy, channel: u16) -> Option<i32>
    ensures { result ≡ group_up_to by channel raw }
{
    let place = place_of(raw)?;
    if channel < place.channel as u16 {
        return None;
    }
    Some(group_of(by, place.note))
}

// The bits of detunings are put where they lie. (A loop by number: with an array's `map` a plan of one key took twice as long.)
fn put_bits(detunings: &[f64; KEYS], bits: &mut [u64; KEYS])
    ensures { floats bits.new ≡ detunings.now }
{
    for i in 0..KEYS {
        bits[i] = bits_of(detunings[i]);
    }
}

fn bits_of(detuning: f64) -> u64
    ensures { from_bits binary64 result ≡ detuning }
{
    f64_to_bits_with_nan(detuning)
}

// A detuning of its bits: programs in C may have put those of a NaN there, which are read as zero (SPEC 12.1).
#[tactic(auto, unfolding(crate::specs::PlanNumbers::detuning_of))]
fn detuning_of(bits: u64) -> f64
    ensures { result ≡ detuning_of (from_bits binary64 bits) }
{
    let detuning = f64_from_bits_with_nan(bits);
    if detuning.is_nan() { 0.0 } else { detuning }
}

// The larger of the largest so far, if there is one, and one more; of two that are equal the new one.
fn raised(largest: Option<f64>, detuning: f64) -> Option<f64>
    ensures { optional result ≡ raised (optional largest) detuning }
{
    match largest {
        Some(other) if detuning < other => largest,
        _ => Some(detuning),
    }
}
