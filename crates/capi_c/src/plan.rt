// The plan tuner and the plan model in a block of the caller's memory. A function that differs from the pool's in its block alone stands here too: in C each
// has a name of its own.

ghost use Rattle.std.specs.Prelude.{◌≡◌};
ghost use Rattle.plans.specs.PlanLists.{note_lists, pitch_lists};
ghost use Rattle.plans.specs.PlanNumbers.{group_by_of};
ghost use Rattle.plans.specs.Plan.{open_rule, set_tuning, set_tuning_of_pitches, next_rule, view as plan_view, TuningMeets};
ghost use Rattle.plans.specs.Plan as Model;
ghost use Rattle.channels.specs.TuningValue.{tuning_kind_of};
ghost use Rattle.channels.specs.declared.tuning_value.TuningKind.TheVariants.{FineTuning};
ghost use Rattle.plan_tuner.specs.Aot.{view, start_rule, StartMeets, set_tuning_rule, set_tuning_of_pitches_rule, PlanOptimal, found};
ghost use Rattle.plan_tuner.specs.Aot.{note_on_rule, note_off_rule, note_attr_rule, global_attr_rule, stop_rule};
ghost use Rattle.capi.specs.Answers.{of_list, of_plan, of_plan_sent, plan_in, plan_sent_in, of_place, of_detuning, of_entry};
ghost use Rattle.capi.specs.Message.{message_of};
ghost use Rattle.capi.specs.Entry.{EntryMeets, EntryWrites};

use capi::answer::{Answer, Note};
use capi::block::Plan;
use capi::message::Message;
use channels::list::ChannelList;
use channels::tuning_value::TuningKind;
use plan_tuner::aot::AotTuner;
use plans::aot::GroupBy;
use plans::lists::{NoteLists, PitchLists};
use senders::midi::ChannelMessageType;

// A tuner of the channels listed, without a plan. Refuses 6, 7 (SPEC 9.1a).
#[unsafe(no_mangle)]
pub extern "C" fn tarvoued_plan_open(plan: &mut Plan, channels: &[u8], tuning_kind: u8) -> Answer
    ensures answer { result ≡ of_list (start_rule channels.now (tuning_kind_of tuning_kind)).0 }
    ensures started { let rule = start_rule channels.now (tuning_kind_of tuning_kind) in StartMeets rule.0 rule.1 plan.old plan.new }
{
    Answer::from(plan.restart(channels, TuningKind::from(u16::from(tuning_kind))))
}

// Plans keys with their notes and detunings, and tunes each channel used, in order. Refuses 12, then line by line 4, 3, 5; then 10 (SPEC 9.3).
#[unsafe(no_mangle)]
pub extern "C" fn tarvoued_plan_set_tuning(
    plan: &mut Plan,
    keys: &[u8],
    notes: &[i32],
    detunings: &[f64],
    out: &mut [u8],
) -> Answer
    ensures entry_meets { EntryMeets view of_plan_sent (set_tuning_rule (view plan.old) keys.now notes.now detunings.now)
        plan.old out.old result plan.new out.new }
    ensures optimal { PlanOptimal (view plan.old) (note_lists keys.now notes.now detunings.now)
        (plan_sent_in result) (view plan.new) }
{
    let lists = NoteLists {
        keys,
        notes,
        detunings,
    };
    Answer::from(plan.set_tuning(&lists, out))
}

// Plans keys with their pitches in Hz, and tunes each channel used, in order. Refuses 12, then line by line 1, 5; then 10 (SPEC 9.3).
// C has no generics, so each kind of list has a function.
#[unsafe(no_mangle)]
pub extern "C" fn tarvoued_plan_set_tuning_of_pitches(
    plan: &mut Plan,
    keys: &[u8],
    pitches: &[f64],
    out: &mut [u8],
) -> Answer
    ensures entry_meets { EntryMeets view of_plan_sent (set_tuning_of_pitches_rule (view plan.old) keys.now pitches.now)
        plan.old out.old result plan.new out.new }
    ensures optimal { PlanOptimal (view plan.old) (pitch_lists keys.now pitches.now) (plan_sent_in result) (view plan.new) }
{
    Answer::from(plan.set_tuning(&PitchLists { keys, pitches }, out))
}

// A press: the note-on of a key of the plan. Refuses 8, 10 (SPEC 9.3a).
#[unsafe(no_mangle)]
pub extern "C" fn tarvoued_plan_note_on(
    plan: &Plan,
    key: u8,
    velocity: u8,
    out: &mut [u8],
) -> Answer
    ensures { EntryWrites (note_on_rule (view plan.now) key velocity) out.old result out.new }
{
    Answer::from(plan.note_on(key, velocity, out))
}

// A release: the note-off of a key of the plan. Refuses 8, 10 (SPEC 9.3a).
#[unsafe(no_mangle)]
pub extern "C" fn tarvoued_plan_note_off(
    plan: &Plan,
    key: u8,
    velocity: u8,
    out: &mut [u8],
) -> Answer
    ensures { EntryWrites (note_off_rule (view plan.now) key velocity) out.old result out.new }
{
    Answer::from(plan.note_off(key, velocity, out))
}

// The pressure of a key of the plan. Refuses 8, 10 (SPEC 9.3a).
#[unsafe(no_mangle)]
pub extern "C" fn tarvoued_plan_note_attr(
    plan: &Plan,
    key: u8,
    pressure: u8,
    out: &mut [u8],
) -> Answer
    ensures { EntryWrites (note_attr_rule (view plan.now) key pressure) out.old result out.new }
{
    Answer::from(plan.note_attr(key, pressure, out))
}

// A message to every channel, except bends of a tuner that tunes by bends. Refuses 8 from the left, 9, 10 (SPEC 9.4).
#[unsafe(no_mangle)]
pub extern "C" fn tarvoued_plan_global_attr(plan: &Plan, message: Message, out: &mut [u8]) -> Answer
    ensures { EntryWrites (global_attr_rule (view plan.now) (message_of message)) out.old result out.new }
{
    Answer::from(plan.global_attr(ChannelMessageType::from(message), out))
}

// Sends nothing: a plan tuner does not know which keys are pressed (SPEC 9.3b).
#[unsafe(no_mangle)]
pub extern "C" fn tarvoued_plan_stop(plan: &Plan, out: &mut [u8]) -> Answer
    ensures { EntryWrites (stop_rule (view plan.now)) out.old result out.new }
{
    Answer::from(plan.stop(out))
}

// The channel and the note of a key of the plan (SPEC 9.6).
#[tactic(auto, unfolding(channels::specs::Places::place))]
#[unsafe(no_mangle)]
pub extern "C" fn tarvoued_plan_lookup(plan: &Plan, key: u8) -> Note
    ensures { result ≡ of_place (found (view plan.now) key) }
{
    Note::from(plan.access_key(key))
}

// The detuning of a group on a channel of the plan (SPEC 6.5a).
#[unsafe(no_mangle)]
pub extern "C" fn tarvoued_plan_detuning(plan: &Plan, channel: u16, group: i32) -> Note
    ensures { result ≡ of_detuning channel group ((plan_view plan.now.model).detunings channel group) }
{
    Note::of_detuning(channel, group, plan.model.detuning(channel, group))
}

// The first of a channel's detunings whose group is `from` or higher (SPEC 6.5b).
#[unsafe(no_mangle)]
pub extern "C" fn tarvoued_plan_next_detuning(plan: &Plan, channel: u16, from: i32) -> Note
    ensures { result ≡ of_entry channel (next_rule (plan_view plan.now.model) channel from) }
{
    Note::of_entry(channel, plan.model.next_detuning(channel, from))
}

// A plan model, which sends nothing, of the channels listed, without a plan. Refuses 6, 7 (SPEC 6.2).
#[tactic(auto, unfolding(plans::specs::Plan::open_rule))]
#[unsafe(no_mangle)]
pub extern "C" fn tarvoued_plan_model_open(plan: &mut Plan, channels: &[u8], group_by: u8) -> Answer
    ensures answer { result ≡ of_list (open_rule channels.now (group_by_of group_by)).0 }
    ensures started { let rule = open_rule channels.now (group_by_of group_by) in
        StartMeets rule.0 (record { plan = rule.1; tuning_kind = FineTuning }) plan.old plan.new }
{
    let listed = ChannelList::of(channels);
    let answer = Answer::from(listed);
    if let Ok(list) = listed {
        plan.reset(
            list,
            GroupBy::from(u16::from(group_by)),
            TuningKind::FineTuning,
        );
    }
    answer
}

// Plans keys with their notes and detunings. Refuses 12, then line by line 4, 3, 5 (SPEC 6.1b).
#[unsafe(no_mangle)]
pub extern "C" fn tarvoued_plan_model_set_tuning(
    plan: &mut Plan,
    keys: &[u8],
    notes: &[i32],
    detunings: &[f64],
) -> Answer
    ensures answer { result ≡ of_plan (set_tuning (plan_view plan.old.model) keys.now notes.now detunings.now).1 }
    ensures meets { let rule = set_tuning (plan_view plan.old.model) keys.now notes.now detunings.now in
        TuningMeets rule plan.old.model plan.new.model rule.1 }
    ensures kept { plan.new.tuning_kind ≡ plan.old.tuning_kind }
    ensures optimal { Model.PlanOptimal (plan_view plan.old.model) (note_lists keys.now notes.now detunings.now)
        (plan_view plan.new.model, plan_in result) }
{
    let lists = NoteLists {
        keys,
        notes,
        detunings,
    };
    Answer::from(plan.model.set_tuning(&lists))
}

// Plans keys with their pitches in Hz. Refuses 12, then line by line 1, 5 (SPEC 6.1b).
// C has no generics, so each kind of list has a function.
#[unsafe(no_mangle)]
pub extern "C" fn tarvoued_plan_model_set_tuning_of_pitches(
    plan: &mut Plan,
    keys: &[u8],
    pitches: &[f64],
) -> Answer
    ensures answer { result ≡ of_plan (set_tuning_of_pitches (plan_view plan.old.model) keys.now pitches.now).1 }
    ensures meets { let rule = set_tuning_of_pitches (plan_view plan.old.model) keys.now pitches.now in
        TuningMeets rule plan.old.model plan.new.model rule.1 }
    ensures kept { plan.new.tuning_kind ≡ plan.old.tuning_kind }
    ensures optimal { Model.PlanOptimal (plan_view plan.old.model) (pitch_lists keys.now pitches.now)
        (plan_view plan.new.model, plan_in result) }
{
    Answer::from(plan.model.set_tuning(&PitchLists { keys, pitches }))
}
