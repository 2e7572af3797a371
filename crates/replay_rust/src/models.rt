// The models: plans and pools.

use crate::answers::{Found, PoolAnswer};
use crate::line::Line;
use crate::words::{
    byte, first_channels, group, key_of, keys_of, pitch_of, pool_group, pool_settings,
};
use plans::aot::AotTuningModel;
use plans::lists::PitchLists;
use pools::jit::JitTuningModel;
use pools::jit::Retrigger::Off;
use printing::answers::{Answer, Code, Plan};
use std::alloc::Global;
use std::io;
use std::io::Write;

// ---- plans

pub fn open_plan(heading: &[&str]) -> Option<AotTuningModel> {
    match *heading {
        ["plan", "by", by, "channels", count] => {
            let (model, _) = AotTuningModel::open(first_channels(count)?, group(by)?);
            Some(model)
        }
        _ => None,
    }
}

// What a plan of the keys comes to, and where each of them is found.
pub fn replay_plan(
    out: &mut impl Write,
    mut model: AotTuningModel,
    heading: &Line<'_>,
    lines: &[Line<'_>],
    alloc: Global,
) -> io::Result<()> {
    let (keys, pitches) = keys_of(lines, alloc)?;
    let lists = PitchLists {
        keys: &keys,
        pitches: &pitches,
    };
    let planned = model.set_tuning(&lists).map(Plan).map_err(Code);
    heading.answer(out, Some(Answer(planned)))?;
    for line in lines {
        let found = key_of(&line.words).map(|(key, _)| Found(model.access_key(key)));
        line.answer(out, found)?;
    }
    Ok(())
}

// ---- pools

pub fn open_pool(heading: &[&str]) -> Option<JitTuningModel> {
    match *heading {
        ["pool", ..] => {
            let settings = pool_settings(heading.get(1..)?)?;
            let by = pool_group(settings.by)?;
            let (model, _) = JitTuningModel::open(settings.channels, by, settings.mode, Off);
            Some(model)
        }
        _ => None,
    }
}

pub fn replay_pool(
    out: &mut impl Write,
    mut model: JitTuningModel,
    heading: &Line<'_>,
    events: &[Line<'_>],
) -> io::Result<()> {
    heading.copy(out)?;
    for event in events {
        event.answer(out, pool_answer(&mut model, &event.words))?;
    }
    Ok(())
}

fn pool_answer(model: &mut JitTuningModel, event: &[&str]) -> Option<PoolAnswer> {
    match *event {
        ["press", "key", key, "at", pitch, "mHz"] => {
            let press = model.register_key(byte(key)?, pitch_of(pitch)?);
            Some(PoolAnswer::Press(press))
        }
        ["release", "key", key] => Some(PoolAnswer::Other(model.deregister_key(byte(key)?))),
        ["lookup", "key", key] => Some(PoolAnswer::Other(model.access_key(byte(key)?))),
        _ => None,
    }
}
