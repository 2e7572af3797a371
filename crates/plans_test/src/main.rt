// Plans: every kind of group, both kinds of list, each refusal, full lists, and the detuning entries of the channels. Writes a line for each call, with what
// was asked and what it answered, below the rule of docs/SPEC.md that is tried.
// A function is given what it plays and where it writes: a struct of both would be no plainer.
#![tactic(auto)]

ghost use Rattle.std.specs.Prelude.{◌≤◌};

use plans::aot::{AotTuningModel, GroupBy};
use plans::lists::{NoteLists, PitchLists, TuningLists};
use printing::answers::{Answer, At, Entry, Listed, ListedNotes, ListedPitches, Or, Plan, Refused};
use printing::decimal::Float;
use printing::decimal::Form::WithBits;
use std::io::{BufWriter, Write};
use std::{fmt, io};

// Whether a model is tuned, and its count of channels.
#[derive(Clone, Copy)]
struct State<'a>(&'a AotTuningModel);

impl fmt::Display for State<'_> {
    fn fmt<W: fmt::Write>(&self, f: &mut fmt::Formatter<W>) -> fmt::Result {
        let state = if self.0.tuned() {
            "tuned, channels used"
        } else {
            "not tuned, channels present"
        };
        write!(f, "model {state} {}", self.0.num_channels())
    }
}

// Plans from a model: writes the answer and the new model's state.
fn plan<L: TuningLists>(
    out: &mut impl Write,
    from: &AotTuningModel,
    lists: &L,
) -> io::Result<AotTuningModel> {
    let mut model = *from;
    let answer = Answer(model.set_tuning(lists).map(Plan).map_err(Refused));
    writeln!(out, ": {answer}; {}", State(&model))?;
    Ok(model)
}

fn notes(
    out: &mut impl Write,
    from: &AotTuningModel,
    keys: &[u8],
    notes: &[i32],
    detunings: &[f64],
) -> io::Result<AotTuningModel> {
    let lists = NoteLists {
        keys,
        notes,
        detunings,
    };
    write!(out, "plan {}", ListedNotes(lists))?;
    plan(out, from, &lists)
}

fn pitches(
    out: &mut impl Write,
    from: &AotTuningModel,
    keys: &[u8],
    pitches: &[f64],
) -> io::Result<AotTuningModel> {
    let lists = PitchLists { keys, pitches };
    write!(out, "plan {}", ListedPitches(lists))?;
    plan(out, from, &lists)
}

fn opened(out: &mut impl Write, channels: &[u8], group_by: GroupBy) -> io::Result<AotTuningModel> {
    let (model, answer) = AotTuningModel::open(channels, group_by);
    let answer = Answer(answer.map(Listed).map_err(Refused));
    let entries = model.channels().len();
    writeln!(
        out,
        "open on MIDI channels {channels:?}, group by {group_by:?}: {answer}; {}, entries of its list {entries}",
        State(&model)
    )?;
    Ok(model)
}

fn key(out: &mut impl Write, model: &AotTuningModel, key: u8) -> io::Result<()> {
    let place = model.access_key(key).map(At::from);
    writeln!(out, "  look up key {key}: {}", Or(place, "not found"))
}

// One entry of a channel.
fn at(out: &mut impl Write, model: &AotTuningModel, channel: u16, group: i32) -> io::Result<()> {
    let detuning = model
        .detuning(channel, group)
        .map(|ratio| Float(ratio, WithBits));
    writeln!(
        out,
        "  detuning of group {group} on channel {channel}: {}",
        Or(detuning, "none")
    )
}

// Entries of a channel: the first, and those from 1, 61, 62 and 73 on.
fn entries(out: &mut impl Write, model: &AotTuningModel, channel: u16) -> io::Result<()> {
    for from in [-300, 1, 61, 62, 73] {
        let entry = model
            .next_detuning(channel, from)
            .map(|entry| Entry(entry, WithBits));
        writeln!(
            out,
            "  next detuning on channel {channel}, from group {from} on: {}",
            Or(entry, "none")
        )?;
    }
    Ok(())
}

// The first `n` of 257 lines: keys 0 to 255 and 0 again, on one note, each detuning `step` times the one before.
fn full(
    out: &mut impl Write,
    from: &AotTuningModel,
    n: usize,
    step: f64,
) -> io::Result<AotTuningModel>
    requires { n ≤ 257 }
{
    let mut keys = [0u8; 257];
    let mut detunings = [1.0; 257];
    let mut detuning = 1.0;
    for (i, (key, d)) in keys.iter_mut().zip(detunings.iter_mut()).enumerate() {
        *key = (i % 256) as u8;
        *d = detuning;
        detuning = detuning * step;
    }
    let lists = NoteLists {
        keys: &keys[..n],
        notes: &[69; 257][..n],
        detunings: &detunings[..n],
    };
    write!(
        out,
        "plan the first {n} of keys 0 to 255 and 0, note 69 each, detunings 1.0 and then {step:?} times the one before"
    )?;
    plan(out, from, &lists)
}

fn examples(out: &mut impl Write, model: &AotTuningModel) -> io::Result<()> {
    writeln!(
        out,
        "-- SPEC 11.1, example 9: a second detuning of 1.000001 in a group takes a second channel"
    )?;
    let nine = notes(out, model, &[1, 2], &[69, 69], &[1.0, 1.000001])?;
    key(out, &nine, 1)?;
    key(out, &nine, 2)?;
    entries(out, &nine, 0)?;
    entries(out, &nine, 1)?;
    writeln!(
        out,
        "-- SPEC 11.1, example 10: each of the detunings joins the one before, and the channel has the last one"
    )?;
    let ten = notes(
        out,
        &nine,
        &[1, 2, 3],
        &[69, 69, 69],
        &[1.0, 1.0000005, 1.0000015],
    )?;
    key(out, &ten, 1)?;
    key(out, &ten, 2)?;
    key(out, &ten, 3)?;
    entries(out, &ten, 0)?;
    entries(out, &ten, 1)?;
    writeln!(out, "-- SPEC 6.4: no keys at all are tuned, count 0")?;
    let none = notes(out, &ten, &[], &[], &[])?;
    key(out, &none, 1)?;
    entries(out, &none, 0)
}

// Two notes an octave apart and a third one, each at two detunings that do not join.
fn kinds(out: &mut impl Write, model: &AotTuningModel) -> io::Result<()> {
    let group_by = model.group_by();
    writeln!(
        out,
        "-- SPEC 6.3, 6.5: keys in order of detuning, channel by channel; places and detuning entries; group by {group_by:?}"
    )?;
    let m = notes(
        out,
        model,
        &[9, 8, 7, 6, 5, 4],
        &[60, 72, 61, 60, 72, 61],
        &[1.0, 1.01, 1.02, 1.03, 1.0, 1.01],
    )?;
    for k in [9, 8, 7, 6, 5, 4, 3] {
        key(out, &m, k)?;
    }
    for channel in [0, 1, 2] {
        entries(out, &m, channel)?;
    }
    at(out, &m, 1, 72)?;
    at(out, &m, 2, 0)?;
    at(out, &m, 0, 1)?;
    at(out, &m, 0, -2147483648)?;
    writeln!(
        out,
        "-- SPEC 6.1: a key that is given with a pitch has the nearest note and its detuning; group by {group_by:?}"
    )?;
    let p = pitches(out, &m, &[10, 11, 12], &[440.0, 445.0, 880.0])?;
    key(out, &p, 10)?;
    key(out, &p, 11)?;
    key(out, &p, 12)?;
    entries(out, &p, 0)?;
    entries(out, &p, 1)
}

fn refusals(out: &mut impl Write, model: &AotTuningModel) -> io::Result<()> {
    let present = model.channels().len();
    writeln!(
        out,
        "-- SPEC 6.4: a plan that needs more channels than are present leaves none; present are {present}"
    )?;
    let held = notes(out, model, &[1], &[69], &[1.0])?;
    let nan = 0.0 / 0.0;
    writeln!(
        out,
        "-- SPEC 2.2, of notes, on a copy of the model above each: refused (12), then line by line (4), (3), (5); 1.9: the model stays"
    )?;
    notes(out, &held, &[1, 2], &[69], &[1.0, 1.0])?;
    notes(out, &held, &[1], &[69], &[1.0, 1.0])?;
    notes(out, &held, &[1, 1], &[501, 69], &[nan, 1.0])?;
    notes(out, &held, &[1], &[-301], &[1.0])?;
    notes(out, &held, &[1, 1], &[69, 501], &[nan, 1.0])?;
    notes(out, &held, &[1], &[69], &[0.49999999999999994])?;
    notes(out, &held, &[1], &[69], &[2.0000000000000004])?;
    notes(out, &held, &[1, 2], &[-300, 500], &[0.5, 2.0])?;
    notes(
        out,
        &held,
        &[1, 2, 1, 3],
        &[69, 69, 69, 501],
        &[1.0, 1.0, 1.0, 1.0],
    )?;
    writeln!(
        out,
        "-- SPEC 2.2, of pitches, on such copies: refused (12), then line by line (1), (5); 1.9: the model stays"
    )?;
    pitches(out, &held, &[1, 2], &[440.0])?;
    pitches(out, &held, &[1, 1, 2], &[440.0, 0.0, 440.0])?;
    let still = pitches(out, &held, &[1, 2, 2], &[440.0, 440.0, 440.0])?;
    key(out, &still, 1)?;
    key(out, &still, 2)
}

// What fits sixteen channels, by its count of lines.
fn full_lists(out: &mut impl Write, all: &AotTuningModel) -> io::Result<()> {
    writeln!(
        out,
        "-- SPEC 6.3, 6.4: equal detunings share a channel, those that do not join take one each, and sixteen are present"
    )?;
    full(out, all, 0, 1.0)?;
    full(out, all, 1, 1.0)?;
    full(out, all, 16, 1.00001)?;
    full(out, all, 17, 1.00001)?;
    full(out, all, 255, 1.0)?;
    let m = full(out, all, 256, 1.0)?;
    key(out, &m, 255)?;
    full(out, &m, 257, 1.0)?;
    full(out, &m, 256, 1.00001)?;
    Ok(())
}

// Every kind of list, what is planned for its channels, and full lists for sixteen.
fn plans(out: &mut impl Write) -> io::Result<()> {
    writeln!(
        out,
        "-- SPEC 6.2, 2.2: a model is opened on a channel list; refused entry by entry (6), (7), and then without channels"
    )?;
    let note = opened(out, &[3, 4], GroupBy::Note)?;
    let letter = opened(out, &[5, 6, 7], GroupBy::NoteLetter)?;
    let channel = opened(out, &[0, 9, 2, 15], GroupBy::Channel)?;
    let none = opened(out, &[], GroupBy::Channel)?;
    opened(out, &[0, 16, 0], GroupBy::Channel)?;
    opened(out, &[0, 1, 0, 16], GroupBy::Channel)?;
    let all = opened(
        out,
        &[0, 1, 2, 3, 4, 5, 6, 7, 8, 9, 10, 11, 12, 13, 14, 15],
        GroupBy::Channel,
    )?;
    examples(out, &channel)?;
    kinds(out, &note)?;
    kinds(out, &letter)?;
    kinds(out, &channel)?;
    refusals(out, &none)?;
    refusals(out, &channel)?;
    full_lists(out, &all)
}

fn main(rt: HostRuntime) -> io::Result<()> {
    let mut out = BufWriter::new(rt.alloc(), rt.stdout())?;
    plans(&mut out)?;
    out.flush()
}
