// The pool tuner and the pool model in a block of the caller's memory. A function that differs from the plan's in its block alone stands here too: in C each
// has a name of its own.

ghost use Rattle.std.specs.Prelude.{◌≡◌};
ghost use Rattle.pools.specs.Pool.{open_rule, found, released, outcome_and_state, register_rule, repitch_rule};
ghost use Rattle.pools.specs.View.{view as pool_view, group_by_of, pooling_mode_of, retrigger_of, StateMeets};
ghost use Rattle.channels.specs.TuningValue.{tuning_kind_of};
ghost use Rattle.channels.specs.declared.tuning_value.TuningKind.TheVariants.{FineTuning};
ghost use Rattle.senders.specs.Jit.{view, start_rule, StartMeets, note_on_rule, note_off_rule, note_pitch_rule, note_attr_rule, global_attr_rule, stop_rule};
ghost use Rattle.capi.specs.Answers.{of_sent, of_press, of_list, of_place, of_registered, of_repitched};
ghost use Rattle.capi.specs.Message.{message_of};
ghost use Rattle.capi.specs.Entry.{EntryMeets, EntryWrites};

use capi::answer::{Answer, Note, RegisteredKey};
use capi::block::Pool;
use capi::message::Message;
use channels::Pitch;
use channels::list::ChannelList;
use channels::tuning_value::TuningKind;
use pools::jit::{JitTuningModel, PoolGroupBy, PoolingMode, Retrigger};
use senders::jit::JitTuner;
use senders::midi::ChannelMessageType;

// A tuner of the channels listed, in which no key is found. Refuses 6, 7 (SPEC 9.1a).
#[unsafe(no_mangle)]
pub extern "C" fn tarvoued_pool_open(
    pool: &mut Pool,
    channels: &[u8],
    tuning_kind: u8,
    pooling_mode: u8,
    retrigger: u8,
) -> Answer
    ensures answer { result ≡ of_list (start_rule channels.now (tuning_kind_of tuning_kind) (pooling_mode_of pooling_mode) (retrigger_of retrigger)).0 }
    ensures started { let rule = start_rule channels.now (tuning_kind_of tuning_kind) (pooling_mode_of pooling_mode) (retrigger_of retrigger) in
        StartMeets rule.0 rule.1 pool.old pool.new }
{
    Answer::from(pool.restart(
        channels,
        TuningKind::from(u16::from(tuning_kind)),
        PoolingMode::from(u16::from(pooling_mode)),
        Retrigger::from(u16::from(retrigger)),
    ))
}

// A press. Refuses 8, 1, 11 without retrigger, 10; is rejected where no channel is free (SPEC 9.2, 9.2e).
#[unsafe(no_mangle)]
pub extern "C" fn tarvoued_pool_note_on(
    pool: &mut Pool,
    key: u8,
    hz: f64,
    velocity: u8,
    out: &mut [u8],
) -> Answer
    ensures { EntryMeets view of_press (note_on_rule (view pool.old) key hz velocity)
        pool.old out.old result pool.new out.new }
{
    Answer::from(pool.note_on(key, Pitch::from_hz(hz), velocity, out))
}

// A release. Refuses 8, 10 (SPEC 9.2a).
#[unsafe(no_mangle)]
pub extern "C" fn tarvoued_pool_note_off(
    pool: &mut Pool,
    key: u8,
    velocity: u8,
    out: &mut [u8],
) -> Answer
    ensures { EntryMeets view of_sent (note_off_rule (view pool.old) key velocity)
        pool.old out.old result pool.new out.new }
{
    Answer::from(pool.note_off(key, velocity, out))
}

// The tuning of the channel of a key that is found, by the pitch. Refuses 1, and 10 where the key is found (SPEC 9.2b).
#[unsafe(no_mangle)]
pub extern "C" fn tarvoued_pool_note_pitch(pool: &Pool, key: u8, hz: f64, out: &mut [u8]) -> Answer
    ensures { EntryWrites (note_pitch_rule (view pool.now) key hz) out.old result out.new }
{
    Answer::from(pool.note_pitch(key, Pitch::from_hz(hz), out))
}

// The pressure of a key that is found. Refuses 8, 10 (SPEC 9.2c).
#[unsafe(no_mangle)]
pub extern "C" fn tarvoued_pool_note_attr(
    pool: &Pool,
    key: u8,
    pressure: u8,
    out: &mut [u8],
) -> Answer
    ensures { EntryWrites (note_attr_rule (view pool.now) key pressure) out.old result out.new }
{
    Answer::from(pool.note_attr(key, pressure, out))
}

// A message to every channel, except bends of a tuner that tunes by bends. Refuses 8 from the left, 9, 10 (SPEC 9.4).
#[unsafe(no_mangle)]
pub extern "C" fn tarvoued_pool_global_attr(pool: &Pool, message: Message, out: &mut [u8]) -> Answer
    ensures { EntryWrites (global_attr_rule (view pool.now) (message_of message)) out.old result out.new }
{
    Answer::from(pool.global_attr(ChannelMessageType::from(message), out))
}

// Every key that is found is released, by rising key. Refuses 10 (SPEC 9.2d).
#[unsafe(no_mangle)]
pub extern "C" fn tarvoued_pool_stop(pool: &mut Pool, out: &mut [u8]) -> Answer
    ensures { EntryMeets view of_sent (stop_rule (view pool.old))
        pool.old out.old result pool.new out.new }
{
    Answer::from(pool.stop(out))
}

// Where a key is found (SPEC 9.6).
#[unsafe(no_mangle)]
pub extern "C" fn tarvoued_pool_lookup(pool: &Pool, key: u8) -> Note
    ensures { result ≡ of_place (found (view pool.now).pool key) }
{
    Note::from(pool.access_key(key))
}

// A pool model, which sends nothing, of the channels listed, in which no key is found. Refuses 6, 7 (SPEC 7.1).
#[tactic(auto, unfolding(pools::specs::Pool::open_rule))]
#[unsafe(no_mangle)]
pub extern "C" fn tarvoued_pool_model_open(
    pool: &mut Pool,
    channels: &[u8],
    group_by: u8,
    pooling_mode: u8,
    retrigger: u8,
) -> Answer
    ensures answer { result ≡ of_list (open_rule channels.now (group_by_of group_by) (pooling_mode_of pooling_mode) (retrigger_of retrigger)).0 }
    ensures started { let rule = open_rule channels.now (group_by_of group_by) (pooling_mode_of pooling_mode) (retrigger_of retrigger) in
        StartMeets rule.0 (record { pool = rule.1; tuning_kind = FineTuning }) pool.old pool.new }
{
    let listed = ChannelList::of(channels);
    let answer = Answer::from(listed);
    if let Ok(list) = listed {
        let model = JitTuningModel::new(
            list,
            PoolGroupBy::from(u16::from(group_by)),
            PoolingMode::from(u16::from(pooling_mode)),
            Retrigger::from(u16::from(retrigger)),
        );
        *pool = JitTuner::of(model, TuningKind::FineTuning);
    }
    answer
}

// A press: the nearest note, on a channel of its pool. Refuses 1, 11 without retrigger; is rejected where no channel is free (SPEC 7.2, 7.2d, 7.3).
#[unsafe(no_mangle)]
pub extern "C" fn tarvoued_pool_model_register_key(
    pool: &mut Pool,
    key: u8,
    hz: f64,
) -> RegisteredKey
    ensures answer { result ≡ of_registered (outcome_and_state (pool_view pool.old.model) (register_rule (pool_view pool.old.model) key hz)).0 }
    ensures state { StateMeets (register_rule (pool_view pool.old.model) key hz) pool.old.model pool.new.model }
    ensures kept { pool.new.tuning_kind ≡ pool.old.tuning_kind }
{
    RegisteredKey::from(pool.model.register_key(key, Pitch::from_hz(hz)))
}

// A release: where the key was found (SPEC 7.4).
#[unsafe(no_mangle)]
pub extern "C" fn tarvoued_pool_model_deregister_key(pool: &mut Pool, key: u8) -> Note
    ensures answer { result ≡ of_place (found (pool_view pool.old.model) key) }
    ensures state { pool_view pool.new.model ≡ released (pool_view pool.old.model) key }
    ensures kept { pool.new.tuning_kind ≡ pool.old.tuning_kind }
{
    Note::from(pool.model.deregister_key(key))
}

// The detuning of a pitch for the note of a key that is found. Refuses 1 (SPEC 7.5).
#[unsafe(no_mangle)]
pub extern "C" fn tarvoued_pool_model_repitch_key(pool: &Pool, key: u8, hz: f64) -> Note
    ensures { result ≡ of_repitched (repitch_rule (pool_view pool.now.model) key hz) }
{
    Note::from(pool.model.repitch_key(key, Pitch::from_hz(hz)))
}
