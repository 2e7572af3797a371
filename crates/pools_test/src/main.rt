// Plays pools: a channel freed and taken again, one stolen, every pooling mode, letter pools, zero channels and the refusals. Writes a line for each call, with
// what was asked and what it answered, below the rule of docs/SPEC.md that is tried.
// Each press, release, lookup and stop is also made by value, on a copy, and a word is written where that answers or leaves another.
// A function is given what it plays and where it writes: a struct of both would be no plainer.
#![tactic(auto)]

use arithmetic::note::Note;
use arithmetic::pitch::Pitch;
use arithmetic::refusal::Refusal;
use channels::channel::Channel;
use channels::keys::KEYS;
use channels::list::ChannelList;
use pools::jit::{
    JitTuningModel, Pool, PoolGroupBy, PoolingMode, Pressing, Queue, Registered, Retrigger,
};
use printing::answers::{Answer, At, ByValue, Held, Listed, Or, Pressed, Refused, Retuned};
use printing::decimal::Form::WithBits;
use std::io;
use std::io::{BufWriter, Write};
use std::num::f64_to_bits_with_nan;

// ---- what is written of an answer

fn press_answer(answer: Result<Pressing, Refusal>) -> Answer<Pressed, Refused> {
    let press = answer.map(|press| Pressed(press, WithBits));
    Answer(press.map_err(Refused))
}

// ---- calls by value

fn same_registered(a: Registered, b: Registered) -> bool {
    a.channel == b.channel
        && a.started_note.number() == b.started_note.number()
        && a.stopped_note.map(Note::number) == b.stopped_note.map(Note::number)
        && f64_to_bits_with_nan(a.detuning) == f64_to_bits_with_nan(b.detuning)
}

fn same_press(a: Pressing, b: Pressing) -> bool {
    let same = match (a.registered, b.registered) {
        (Some(a), Some(b)) => same_registered(a, b),
        (None, None) => true,
        _ => false,
    };
    same && a.released.map(At::from) == b.released.map(At::from)
}

fn same_answer(a: Result<Pressing, Refusal>, b: Result<Pressing, Refusal>) -> bool {
    match (a, b) {
        (Ok(a), Ok(b)) => same_press(a, b),
        (Err(a), Err(b)) => a == b,
        _ => false,
    }
}

// Whether each key is found at the same place.
fn same_model(model: &JitTuningModel, copy: JitTuningModel) -> bool {
    let mut same = true;
    for key in 0..=255 {
        same = same && model.access_key(key).map(At::from) == copy.looked_up(key).map(At::from);
    }
    same
}

// ---- calls

fn press(out: &mut impl Write, model: &mut JitTuningModel, key: u8, hz: f64) -> io::Result<()> {
    let pitch = Pitch::from_hz(hz);
    let (copy, by_value) = model.pressed(key, pitch);
    let answer = model.register_key(key, pitch);
    let same = same_answer(answer, by_value) && same_model(model, copy);
    writeln!(
        out,
        "  press key {key} at {hz:?} Hz: {}{}",
        press_answer(answer),
        ByValue(same)
    )
}

fn release(out: &mut impl Write, model: &mut JitTuningModel, key: u8) -> io::Result<()> {
    let (copy, by_value) = model.released(key);
    let place = model.deregister_key(key).map(At::from);
    let same = place == by_value.map(At::from) && same_model(model, copy);
    writeln!(
        out,
        "  release key {key}: {}{}",
        Or(place, "not found"),
        ByValue(same)
    )
}

fn look(out: &mut impl Write, model: &JitTuningModel, key: u8) -> io::Result<()> {
    let place = model.access_key(key).map(At::from);
    let same = place == model.looked_up(key).map(At::from);
    writeln!(
        out,
        "  look up key {key}: {}{}",
        Or(place, "not found"),
        ByValue(same)
    )
}

fn repitch(out: &mut impl Write, model: &JitTuningModel, key: u8, hz: f64) -> io::Result<()> {
    let answer = model
        .repitch_key(key, Pitch::from_hz(hz))
        .map(|repitched| Or(
            repitched.map(|repitched| Retuned(repitched, WithBits)),
            "not found",
        ));
    writeln!(
        out,
        "  repitch key {key} to {hz:?} Hz: {}",
        Answer(answer.map_err(Refused))
    )
}

// The first two held keys, and then all are released.
fn stop(out: &mut impl Write, model: &mut JitTuningModel) -> io::Result<()> {
    let first = model.next_key(0);
    writeln!(out, "  first held key: {}", Or(first.map(Held), "none"))?;
    if let Some(first) = first {
        let second = model.next_key(first.key as usize + 1).map(Held);
        writeln!(out, "  next held key: {}", Or(second, "none"))?;
    }
    let copy = model.stopped();
    model.stop();
    let same = same_model(model, copy);
    writeln!(out, "  stop{}", ByValue(same))
}

fn open(
    out: &mut impl Write,
    channels: &[u8],
    group_by: PoolGroupBy,
    pooling_mode: PoolingMode,
) -> io::Result<JitTuningModel> {
    open_with(out, channels, group_by, pooling_mode, Retrigger::Off)
}

fn open_with(
    out: &mut impl Write,
    channels: &[u8],
    group_by: PoolGroupBy,
    pooling_mode: PoolingMode,
    retrigger: Retrigger,
) -> io::Result<JitTuningModel> {
    let (model, answer) = JitTuningModel::open(channels, group_by, pooling_mode, retrigger);
    let listed = Answer(answer.map(Listed).map_err(Refused));
    let second = model.channels().entry(1).map(Channel::number);
    let with = match retrigger {
        Retrigger::Off => "",
        Retrigger::On => ", with retrigger",
    };
    writeln!(
        out,
        "open on MIDI channels {channels:?}, group by {group_by:?}, {pooling_mode:?}{with}: {listed}; MIDI channel of its channel 1: {}",
        Or(second, "none")
    )?;
    Ok(model)
}

// A pool of channels 0 and 1.
fn of_two(out: &mut impl Write, pooling_mode: PoolingMode) -> io::Result<JitTuningModel> {
    open(out, &[0, 1], PoolGroupBy::Channel, pooling_mode)
}

fn examples(out: &mut impl Write) -> io::Result<()> {
    writeln!(
        out,
        "-- SPEC 11.1, example 11; 7.2, 7.4: a press gets the channel that has been free longest, a release frees one behind the others"
    )?;
    let mut model = open(out, &[4, 9], PoolGroupBy::Channel, PoolingMode::Block)?;
    press(out, &mut model, 1, 440.0)?;
    release(out, &mut model, 1)?;
    press(out, &mut model, 2, 440.0)?;
    writeln!(
        out,
        "-- SPEC 11.1, example 12; 7.3, Stop: the key that has held longest is released, and its note stopped"
    )?;
    let mut model = of_two(out, PoolingMode::Stop)?;
    press(out, &mut model, 1, 440.0)?;
    press(out, &mut model, 2, 455.0)?;
    press(out, &mut model, 3, 880.0)?;
    look(out, &model, 1)?;
    release(out, &mut model, 1)
}

fn block(out: &mut impl Write) -> io::Result<()> {
    writeln!(
        out,
        "-- SPEC 7.3, Block: a press is rejected where no channel is free; 7.6: stop releases every held key, by rising key"
    )?;
    let mut model = of_two(out, PoolingMode::Block)?;
    press(out, &mut model, 1, 440.0)?;
    press(out, &mut model, 2, 450.0)?;
    press(out, &mut model, 3, 460.0)?;
    release(out, &mut model, 1)?;
    press(out, &mut model, 3, 460.0)?;
    stop(out, &mut model)?;
    press(out, &mut model, 4, 440.0)?;
    look(out, &model, 4)
}

fn ignore(out: &mut impl Write) -> io::Result<()> {
    writeln!(
        out,
        "-- SPEC 7.3, Ignore: the key that has held longest loses its channel but stays held; its release frees nothing"
    )?;
    let mut model = of_two(out, PoolingMode::Ignore)?;
    press(out, &mut model, 1, 440.0)?;
    press(out, &mut model, 2, 450.0)?;
    press(out, &mut model, 3, 460.0)?;
    release(out, &mut model, 1)?;
    press(out, &mut model, 4, 470.0)?;
    look(out, &model, 2)?;
    release(out, &mut model, 3)?;
    press(out, &mut model, 5, 480.0)
}

fn letters(out: &mut impl Write) -> io::Result<()> {
    writeln!(
        out,
        "-- SPEC 7.1: with letter groups each letter has a pool of its own"
    )?;
    let mut model = open(out, &[3], PoolGroupBy::NoteLetter, PoolingMode::Stop)?;
    press(out, &mut model, 200, 440.0)?;
    press(out, &mut model, 201, 450.0)?;
    press(out, &mut model, 202, 880.0)?;
    look(out, &model, 200)?;
    press(out, &mut model, 203, 466.0)?;
    stop(out, &mut model)?;
    press(out, &mut model, 203, 466.0)
}

// A press in a pool of such channels.
fn one_press(
    out: &mut impl Write,
    channels: &[u8],
    group_by: PoolGroupBy,
    pooling_mode: PoolingMode,
) -> io::Result<()> {
    let mut model = open(out, channels, group_by, pooling_mode)?;
    press(out, &mut model, 1, 440.0)
}

fn no_channels(out: &mut impl Write) -> io::Result<()> {
    writeln!(
        out,
        "-- SPEC 7.3: without channels every press is rejected; 2.2: a channel list is refused entry by entry (6), (7)"
    )?;
    one_press(out, &[], PoolGroupBy::Channel, PoolingMode::Stop)?;
    one_press(
        out,
        &[2, 16, 2],
        PoolGroupBy::NoteLetter,
        PoolingMode::Ignore,
    )?;
    one_press(
        out,
        &[2, 3, 2, 16],
        PoolGroupBy::Channel,
        PoolingMode::Block,
    )
}

fn refusals(out: &mut impl Write) -> io::Result<()> {
    writeln!(
        out,
        "-- SPEC 2.2: a press is refused (1), (11); 7.5: a repitch (1), also where the key is not held"
    )?;
    let mut model = of_two(out, PoolingMode::Stop)?;
    press(out, &mut model, 1, 440.0)?;
    press(out, &mut model, 1, 440.0)?;
    press(out, &mut model, 1, 0.0)?;
    press(out, &mut model, 2, -440.0)?;
    repitch(out, &model, 1, 220.0)?;
    repitch(out, &model, 1, 1.0e30)?;
    repitch(out, &model, 2, 440.0)?;
    repitch(out, &model, 2, 0.0)?;
    look(out, &model, 1)
}

fn would_press(out: &mut impl Write, model: &JitTuningModel, key: u8, hz: f64) -> io::Result<()> {
    let answer = model.allocate_key(key, Pitch::from_hz(hz));
    writeln!(
        out,
        "  a press of key {key} at {hz:?} Hz would give: {}",
        press_answer(answer)
    )
}

fn press_note(
    out: &mut impl Write,
    model: &mut JitTuningModel,
    key: u8,
    note: i32,
) -> io::Result<()> {
    let answer = model.register_note(key, note, 1.0);
    writeln!(
        out,
        "  press key {key} for note {note}, detuning 1.0: {}",
        press_answer(answer)
    )
}

fn in_place(out: &mut impl Write) -> io::Result<()> {
    writeln!(
        out,
        "-- SPEC 7.2: what a press would answer changes nothing; one for a note and a detuning takes that note, refused (4), (11)"
    )?;
    let mut model = of_two(out, PoolingMode::Stop)?;
    would_press(out, &model, 1, 440.0)?;
    look(out, &model, 1)?;
    press_note(out, &mut model, 1, 69)?;
    look(out, &model, 1)?;
    would_press(out, &model, 1, 440.0)?;
    press_note(out, &mut model, 1, 69)?;
    press_note(out, &mut model, 2, 501)?;
    press(out, &mut model, 2, 450.0)?;
    would_press(out, &model, 3, 460.0)?;
    press(out, &mut model, 3, 460.0)?;
    look(out, &model, 1)?;
    release(out, &mut model, 2)?;
    model.stop();
    writeln!(out, "  stop")?;
    look(out, &model, 3)
}

// A model in numbers that no call has made.
fn no_sense(out: &mut impl Write) -> io::Result<()> {
    writeln!(
        out,
        "-- SPEC 12.1: every content is some model, here one in which each number is the highest there is"
    )?;
    let queue = Queue {
        count: u16::MAX,
        items: [u16::MAX; 16],
    };
    let pool = Pool {
        free: queue,
        order: queue,
    };
    let mut model = JitTuningModel {
        records: [u16::MAX; KEYS],
        pools: [pool; 12],
        channels: ChannelList {
            channels: [u8::MAX; 16],
            count: u16::MAX,
        },
        group_by: u16::MAX,
        pooling_mode: u16::MAX,
        retrigger: u16::MAX,
    };
    look(out, &model, 255)?;
    press(out, &mut model, 255, 440.0)?;
    model.stop();
    writeln!(out, "  stop")?;
    look(out, &model, 255)
}

fn retrigger(out: &mut impl Write) -> io::Result<()> {
    writeln!(
        out,
        "-- SPEC 7.2d, 9.2e: retrigger: a held key is released and pressed again, here on the other channel; a refused press releases nothing"
    )?;
    for mode in [PoolingMode::Block, PoolingMode::Stop, PoolingMode::Ignore] {
        let mut model = open_with(out, &[0, 1], PoolGroupBy::Channel, mode, Retrigger::On)?;
        press(out, &mut model, 1, 440.0)?;
        would_press(out, &model, 1, 440.0)?;
        look(out, &model, 1)?;
        press(out, &mut model, 1, 440.0)?;
        press(out, &mut model, 1, 0.0)?;
        press_note(out, &mut model, 1, 501)?;
        look(out, &model, 1)?;
        press_note(out, &mut model, 1, 70)?;
        press(out, &mut model, 2, 500.0)?;
        press(out, &mut model, 1, 440.0)?;
        press(out, &mut model, 3, 600.0)?;
        stop(out, &mut model)?;
    }
    Ok(())
}

fn retrigger_without_channel(out: &mut impl Write) -> io::Result<()> {
    writeln!(
        out,
        "-- SPEC 7.3, 7.2d, Ignore: a key that has lost its channel is pressed again: its release frees nothing, and the other key loses the channel"
    )?;
    let mut model = open_with(
        out,
        &[4],
        PoolGroupBy::Channel,
        PoolingMode::Ignore,
        Retrigger::On,
    )?;
    press(out, &mut model, 1, 440.0)?;
    press(out, &mut model, 2, 500.0)?;
    press(out, &mut model, 1, 455.0)?;
    look(out, &model, 2)?;
    release(out, &mut model, 1)?;
    press(out, &mut model, 3, 600.0)
}

// A key is pressed again for a note of another letter, whose only channel a third key has.
fn retrigger_letters(out: &mut impl Write) -> io::Result<()> {
    writeln!(
        out,
        "-- SPEC 7.2d, 7.1, 7.3: a key is pressed again for another letter, whose pool is full: Block rejects the press and the release stands"
    )?;
    for mode in [PoolingMode::Block, PoolingMode::Stop, PoolingMode::Ignore] {
        let mut model = open_with(out, &[3], PoolGroupBy::NoteLetter, mode, Retrigger::On)?;
        press(out, &mut model, 1, 440.0)?;
        press(out, &mut model, 2, 466.0)?;
        would_press(out, &model, 1, 466.0)?;
        look(out, &model, 1)?;
        press(out, &mut model, 1, 466.0)?;
        look(out, &model, 1)?;
        look(out, &model, 2)?;
        press(out, &mut model, 3, 440.0)?;
    }
    Ok(())
}

fn main(rt: HostRuntime) -> io::Result<()> {
    let mut out = BufWriter::new(rt.alloc(), rt.stdout())?;
    examples(&mut out)?;
    block(&mut out)?;
    ignore(&mut out)?;
    letters(&mut out)?;
    no_channels(&mut out)?;
    refusals(&mut out)?;
    in_place(&mut out)?;
    no_sense(&mut out)?;
    retrigger(&mut out)?;
    retrigger_without_channel(&mut out)?;
    retrigger_letters(&mut out)?;
    out.flush()
}
