// A plan model, SPEC 6.
use crate::{TWO_KEYS, answered, example};
use plans::aot::{AotTuningModel, GroupBy};
use plans::lists::{NoteLists, PitchLists, TuningLists};
use printing::answers::{At, Entry, Listed, Or, Plan};
use printing::decimal::Decimal;
use printing::decimal::Form::CutOff;
use std::io;
use std::io::Write;

pub fn all(out: &mut impl Write) -> io::Result<()> {
    open(out)?;
    set_tuning(out)?;
    lookups(out)?;
    entries(out)
}

// A model of two channels.
fn of_two() -> AotTuningModel {
    AotTuningModel::open(&[0, 1], GroupBy::Channel).0
}

fn planned() -> AotTuningModel {
    let mut model = of_two();
    let _ = model.set_tuning(&TWO_KEYS);
    model
}

// What a model of two channels answers to lists.
fn plan<L: TuningLists>(out: &mut impl Write, question: &str, lists: &L) -> io::Result<()> {
    let mut model = of_two();
    let answer = model.set_tuning(lists).map(Plan);
    answered(out, question, answer)
}

fn open(out: &mut impl Write) -> io::Result<()> {
    let (_, answer) = AotTuningModel::open(&[0, 1], GroupBy::Channel);
    answered(
        out,
        "AotTuningModel::open([0, 1], Channel)",
        answer.map(Listed),
    )
}

fn set_tuning(out: &mut impl Write) -> io::Result<()> {
    plan(
        out,
        "open([0, 1], Channel); set_tuning([1, 2], [69, 69], [1, 33/32])",
        &TWO_KEYS,
    )?;
    plan(
        out,
        "open([0, 1], Channel); set_tuning([1, 2, 3], [69, 69, 69], [1, 33/32, 31/32])",
        &NoteLists {
            keys: &[1, 2, 3],
            notes: &[69, 69, 69],
            detunings: &[1.0, 1.03125, 0.96875],
        },
    )?;
    plan(
        out,
        "open([0, 1], Channel); set_tuning([1, 1], [69, 69], [1, 1])",
        &NoteLists {
            keys: &[1, 1],
            notes: &[69, 69],
            detunings: &[1.0, 1.0],
        },
    )?;
    plan(
        out,
        "open([0, 1], Channel); set_tuning(pitches [1, 2, 3], [440, 445, 880])",
        &PitchLists {
            keys: &[1, 2, 3],
            pitches: &[440.0, 445.0, 880.0],
        },
    )?;
    plan(
        out,
        "open([0, 1], Channel); set_tuning(pitches [1, 2], [440, 445])",
        &PitchLists {
            keys: &[1, 2],
            pitches: &[440.0, 445.0],
        },
    )
}

fn lookups(out: &mut impl Write) -> io::Result<()> {
    let model = planned();
    example(
        out,
        "open([0, 1], Channel); set_tuning([1, 2], [69, 69], [1, 33/32]); access_key(2)",
        Or(model.access_key(2).map(At::from), "not found"),
    )?;
    example(
        out,
        "open([0, 1], Channel); set_tuning([1, 2], [69, 69], [1, 33/32]); access_key(3)",
        Or(model.access_key(3).map(At::from), "not found"),
    )
}

fn entries(out: &mut impl Write) -> io::Result<()> {
    let model = planned();
    example(
        out,
        "open([0, 1], Channel); set_tuning([1, 2], [69, 69], [1, 33/32]); detuning(1, 0)",
        Or(model.detuning(1, 0).map(Decimal), "no entry"),
    )?;
    example(
        out,
        "open([0, 1], Channel); set_tuning([1, 2], [69, 69], [1, 33/32]); next_detuning(1, -300)",
        Or(
            model
                .next_detuning(1, -300)
                .map(|entry| Entry(entry, CutOff)),
            "no entry",
        ),
    )
}
