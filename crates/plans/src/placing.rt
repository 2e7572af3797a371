// Planning (SPEC 6.3): one pass over the keys in order, each to its channel.

ghost use Rattle.std.specs.Prelude.{◌≡◌, ◌<◌};
ghost use Rattle.plans.specs.PlanLine.{group, joins};
ghost use Rattle.plans.specs.Plan.{records_in};
ghost use Rattle.plans.specs.PlanInternal.{Filled, Assignments, channels_with, lines_of, slot_of};

use crate::aot::GroupBy;
use crate::sorted_keys::SortedKeys;
use arithmetic::note::{LOWEST_NOTE, Note};
use arithmetic::pitch::Ratio;
use channels::keys::{Place, place_of};

// There are so many notes, and no more groups of any kind.
const GROUPS: usize = 801;

// A group so far: how many channels it uses, and which key came last, in four bytes, since all groups are cleared for each plan. Where `used` is 0,
// `last` is 0 and says nothing: `channels_with` then sets its detuning aside. An Option<u8> is no plainer: None would say `used == 0` a second time.
#[derive(Clone, Copy)]
struct Run {
    used: u16,
    last: u8,
}

const NO_KEYS: Run = Run { used: 0, last: 0 };

// Places each key on its channel. Answers how many channels that takes (SPEC 6.4).
pub(crate) fn place_keys(keys: &mut SortedKeys, by: GroupBy) -> u16
    requires { Filled keys.old }
    ensures { Assignments by (lines_of keys.old) (records_in keys.new.records keys.new.detunings) result }
{
    let SortedKeys {
        order,
        records,
        detunings,
    } = keys;
    let mut runs = [NO_KEYS; GROUPS];
    let mut count: u16 = 0;
    for &key in order.as_slice() {
        let Place { note, .. } = place_of(records[key as usize]).unwrap();
        let at = slot(by, note);
        let run = runs[at];
        let before = detunings[run.last as usize];
        let used = channels_with(run.used, before, detunings[key as usize]);
        // The next key of the group is compared with this one, not with the channel's first.
        let last = key;
        runs[at] = Run { used, last };
        count = count.max(used);
        let channel = (used - 1) as u8;
        records[key as usize] = Place { channel, note }.record();
    }
    count
}

// How many channels a group uses with one key more, where it used so many and the detuning of its last key is `before`.
fn channels_with(used: u16, before: f64, detuning: f64) -> u16
    requires { used < 65535 }
    ensures { result ≡ channels_with used before detuning }
{
    let joined = 0 < used && joins(before, detuning);
    if joined { used } else { used + 1 }
}

// Whether a key may stand behind the last one of its group on that one's channel (SPEC 6.3a).
#[tactic(auto, unfolding(crate::specs::PlanLine::joins))]
fn joins(before: f64, detuning: f64) -> bool
    ensures { result ≡ joins before detuning }
{
    Ratio::from_float(detuning)
        .deviation_from(Ratio::from_float(before))
        .is_negligible()
}

// The place of a note's group in a table of all groups.
#[tactic(auto, using(crate::proofs::Walk::Slots::group_note, crate::proofs::Walk::Slots::slot_is, crate::proofs::Walk::Slots::slot_fits, crate::proofs::Walk::Slots::slot_below, arithmetic::proofs::Notes::Bounds::note_fits))]
fn slot(by: GroupBy, note: Note) -> usize
    ensures place { result ≡ slot_of (group by note.number) }
    ensures in_table { result < 801 }
{
    (group_of(by, note) - LOWEST_NOTE) as usize
}

// The number of a note's group (SPEC 1.7a).
#[tactic(auto, using(arithmetic::proofs::Notes::Bounds::note_fits, arithmetic::proofs::Notes::Bounds::letter_below), unfolding(crate::specs::PlanLine::group))]
pub(crate) fn group_of(by: GroupBy, note: Note) -> i32
    ensures { result ≡ group by note.number }
{
    match by {
        GroupBy::Note => note.number(),
        GroupBy::NoteLetter => note.letter() as i32,
        GroupBy::Channel => 0,
    }
}
