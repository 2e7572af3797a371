// The tuners, by the bytes that they send.

use crate::answers::Sent;
use crate::line::Line;
use crate::words::{byte, first_channels, keys_of, pitch_of, pool_settings, tuning_kind};
use arithmetic::pitch::Pitch;
use arithmetic::refusal::Refusal;
use plan_tuner::aot::{AotTuner, PlanSent};
use plans::aot::Planned;
use plans::lists::PitchLists;
use pools::jit::Retrigger::Off;
use printing::answers::{Code, Plan};
use senders::event::{Event, EventKind};
use senders::jit::{JitTuner, Pressed};
use std::alloc::Global;
use std::io::Write;
use std::{fmt, io};

// ---- plan tuners

pub fn open_plan_tuner(heading: &[&str]) -> Option<AotTuner> {
    match *heading {
        ["plan", "tuner", "by", kind, "channels", count] => {
            let (tuner, _) = AotTuner::start(first_channels(count)?, tuning_kind(kind)?);
            Some(tuner)
        }
        _ => None,
    }
}

// The bytes of a plan of the keys, and of a press of each of them.
pub fn replay_plan_tuner(
    out: &mut impl Write,
    mut tuner: AotTuner,
    heading: &Line<'_>,
    lines: &[Line<'_>],
    alloc: Global,
) -> io::Result<()> {
    let (keys, pitches) = keys_of(lines, alloc)?;
    let lists = PitchLists {
        keys: &keys,
        pitches: &pitches,
    };
    let mut buffer = [0u8; 256];
    let answer = tuner.set_tuning(&lists, &mut buffer);
    let sent = PlanTuned {
        answer,
        buffer: &buffer,
    };
    heading.answer(out, Some(sent))?;
    for line in lines {
        let mut buffer = [0u8; 16];
        let answer = press(&tuner, &line.words, &mut buffer);
        let sent = answer.map(|answer| Sent::of(answer.map(Pressed::Sent), &buffer));
        line.answer(out, sent)?;
    }
    Ok(())
}

// A press of a key of the plan.
fn press(tuner: &AotTuner, words: &[&str], buffer: &mut [u8]) -> Option<Result<usize, Refusal>> {
    match *words {
        ["key", key, "at", _, "mHz", "velocity", velocity] => {
            Some(tuner.note_on(byte(key)?, byte(velocity)?, buffer))
        }
        _ => None,
    }
}

// What a tuning came to, and the bytes that it sent.
#[derive(Clone, Copy)]
struct PlanTuned<'a> {
    answer: Result<PlanSent, Refusal>,
    buffer: &'a [u8],
}

impl fmt::Display for PlanTuned<'_> {
    fn fmt<W: fmt::Write>(&self, f: &mut fmt::Formatter<W>) -> fmt::Result {
        match self.answer {
            Ok(PlanSent::Tuned { channels, written }) => {
                let plan = Plan(Planned::Tuned(channels));
                write!(
                    f,
                    "{plan}: {}",
                    Sent::of(Ok(Pressed::Sent(written)), self.buffer)
                )
            }
            Ok(PlanSent::Untuned(channels)) => write!(f, "{}", Plan(Planned::Untuned(channels))),
            Err(refusal) => write!(f, "{}", Code(refusal)),
        }
    }
}

// ---- pool tuners

pub fn open_pool_tuner(heading: &[&str]) -> Option<JitTuner> {
    match *heading {
        ["pool", "tuner", ..] => {
            let settings = pool_settings(heading.get(2..)?)?;
            let kind = tuning_kind(settings.by)?;
            let (tuner, _) = JitTuner::start(settings.channels, kind, settings.mode, Off);
            Some(tuner)
        }
        _ => None,
    }
}

pub fn replay_pool_tuner(
    out: &mut impl Write,
    mut tuner: JitTuner,
    heading: &Line<'_>,
    lines: &[Line<'_>],
) -> io::Result<()> {
    heading.copy(out)?;
    for line in lines {
        let mut buffer = [0u8; 1024];
        let answer = perform(&mut tuner, &line.words, &mut buffer);
        let sent = answer.map(|answer| Sent::of(answer, &buffer));
        line.answer(out, sent)?;
    }
    Ok(())
}

// The call that a line asks for, and what it answers.
fn perform(
    tuner: &mut JitTuner,
    words: &[&str],
    buffer: &mut [u8],
) -> Option<Result<Pressed, Refusal>> {
    if let Some(event) = event_of(words) {
        return Some(tuner.play(event, buffer));
    }
    match *words {
        ["pressure", "key", key, "value", pressure] => {
            let answer = tuner.note_attr(byte(key)?, byte(pressure)?, buffer);
            Some(answer.map(Pressed::Sent))
        }
        ["stop"] => Some(tuner.stop(buffer).map(Pressed::Sent)),
        _ => None,
    }
}

fn event_of(words: &[&str]) -> Option<Event> {
    // What stands in a release, which has none.
    let no_pitch = Pitch::from_hz(0.0);
    let (kind, key, pitch, velocity) = match *words {
        [
            "press",
            "key",
            key,
            "at",
            pitch,
            "mHz",
            "velocity",
            velocity,
        ] => { (EventKind::Press, key, pitch_of(pitch)?, byte(velocity)?) }
        ["release", "key", key, "velocity", velocity] => {
            (EventKind::Release, key, no_pitch, byte(velocity)?)
        }
        ["repitch", "key", key, "at", pitch, "mHz"] => {
            (EventKind::Repitch, key, pitch_of(pitch)?, 0)
        }
        _ => return None,
    };
    Some(Event {
        kind,
        key: byte(key)?,
        pitch,
        velocity,
    })
}
