// The plan tuner, SPEC 9.3.
use crate::{ROOM, TWO_KEYS, answered, sent};
use channels::tuning_value::TuningKind;
use plan_tuner::aot::{AotTuner, PlanSent};
use plans::lists::{PitchLists, TuningLists};
use printing::answers::PlanTuned;
use std::io;
use std::io::Write;

pub fn all(out: &mut impl Write) -> io::Result<()> {
    set_tuning(
        out,
        "AotTuner::start([0, 1], Bend); set_tuning([1, 2], [69, 69], [1, 33/32])",
        &TWO_KEYS,
    )?;
    note_on(
        out,
        "AotTuner::start([0, 1], Bend); set_tuning([1, 2], [69, 69], [1, 33/32]); note_on(2, 100)",
        2,
    )?;
    note_on(
        out,
        "AotTuner::start([0, 1], Bend); set_tuning([1, 2], [69, 69], [1, 33/32]); note_on(3, 100)",
        3,
    )?;
    set_tuning(
        out,
        "AotTuner::start([0, 1], Bend); set_tuning(pitches [1, 2], [440, 445])",
        &PitchLists {
            keys: &[1, 2],
            pitches: &[440.0, 445.0],
        },
    )
}

// A tuner of two channels, by bends.
fn by_bends() -> AotTuner {
    AotTuner::start(&[0, 1], TuningKind::Bend).0
}

fn set_tuning<L: TuningLists>(out: &mut impl Write, question: &str, lists: &L) -> io::Result<()> {
    let mut buffer = [0u8; ROOM];
    let mut tuner = by_bends();
    let answer = tuner.set_tuning(lists, &mut buffer);
    let tuned = answer.map(|tuned| match tuned {
        PlanSent::Tuned { channels, written } => {
            PlanTuned::Tuned(channels, sent(&buffer, written))
        }
        PlanSent::Untuned(channels) => PlanTuned::Untuned(channels),
    });
    answered(out, question, tuned)
}

fn note_on(out: &mut impl Write, question: &str, key: u8) -> io::Result<()> {
    let mut buffer = [0u8; ROOM];
    let mut tuner = by_bends();
    let _ = tuner.set_tuning(&TWO_KEYS, &mut buffer);
    let answer = tuner.note_on(key, 100, &mut buffer);
    answered(out, question, answer.map(|count| sent(&buffer, count)))
}
