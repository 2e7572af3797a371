// The pool tuner, SPEC 9.2 and 9.4.
use crate::{ROOM, answered, sent};
use arithmetic::pitch::Pitch;
use arithmetic::refusal::Refusal;
use channels::list::ChannelList;
use channels::tuning_value::TuningKind;
use pools::jit::{PoolingMode, Retrigger};
use printing::answers::{Listed, Or};
use senders::event::{Event, EventKind};
use senders::jit::{JitTuner, Pressed};
use senders::midi::ChannelMessageType;
use std::io;
use std::io::Write;

pub fn all(out: &mut impl Write) -> io::Result<()> {
    start(out)?;
    note_on(
        out,
        "JitTuner::start([0, 1], Bend, Stop, Off); note_on(1, 445 Hz, 100)",
        445.0,
    )?;
    retriggered(out)?;
    note_off(out)?;
    note_pitch(out)?;
    play(out)?;
    global_attr(out)?;
    stop(out)?;
    note_on(
        out,
        "JitTuner::start([0, 1], Bend, Stop, Off); note_on(1, 440 Hz, 100)",
        440.0,
    )
}

// A tuner of two channels, by bends.
fn by_bends() -> JitTuner {
    opened().0
}

fn opened() -> (JitTuner, Result<ChannelList, Refusal>) {
    JitTuner::start(&[0, 1], TuningKind::Bend, PoolingMode::Stop, Retrigger::Off)
}

// The same with key 1 held for 440 Hz.
fn held() -> JitTuner {
    let mut buffer = [0u8; ROOM];
    by_bends()
        .pressed(1, Pitch::from_hz(440.0), 100, &mut buffer)
        .0
}

fn start(out: &mut impl Write) -> io::Result<()> {
    let (_, answer) = opened();
    answered(
        out,
        "JitTuner::start([0, 1], Bend, Stop, Off)",
        answer.map(Listed),
    )
}

fn note_on(out: &mut impl Write, question: &str, hz: f64) -> io::Result<()> {
    let mut buffer = [0u8; ROOM];
    let answer = by_bends().note_on(1, Pitch::from_hz(hz), 100, &mut buffer);
    pressed(out, question, answer, &buffer)
}

// A press of a held key of a tuner with retrigger.
fn retriggered(out: &mut impl Write) -> io::Result<()> {
    let mut buffer = [0u8; ROOM];
    let (tuner, _) = JitTuner::start(&[0, 1], TuningKind::Bend, PoolingMode::Stop, Retrigger::On);
    let mut held = tuner.pressed(1, Pitch::from_hz(440.0), 100, &mut buffer).0;
    let answer = held.note_on(1, Pitch::from_hz(440.0), 100, &mut buffer);
    pressed(
        out,
        "JitTuner::start([0, 1], Bend, Stop, On); note_on(1, 440 Hz, 100); note_on(1, 440 Hz, 100)",
        answer,
        &buffer,
    )
}

// What a press answered, and wrote to the buffer.
fn pressed(
    out: &mut impl Write,
    question: &str,
    answer: Result<Pressed, Refusal>,
    buffer: &[u8],
) -> io::Result<()> {
    let press = answer.map(|press| match press {
        Pressed::Sent(count) => Or(Some(sent(buffer, count)), "rejected"),
        Pressed::Rejected(_) => Or(None, "rejected"),
    });
    answered(out, question, press)
}

fn note_off(out: &mut impl Write) -> io::Result<()> {
    let mut buffer = [0u8; ROOM];
    let answer = held().note_off(1, 64, &mut buffer);
    answered(
        out,
        "JitTuner::start([0, 1], Bend, Stop, Off); note_on(1, 440 Hz, 100); note_off(1, 64)",
        answer.map(|count| sent(&buffer, count)),
    )
}

fn note_pitch(out: &mut impl Write) -> io::Result<()> {
    let mut buffer = [0u8; ROOM];
    let answer = held().note_pitch(1, Pitch::from_hz(445.0), &mut buffer);
    answered(
        out,
        "JitTuner::start([0, 1], Bend, Stop, Off); note_on(1, 440 Hz, 100); note_pitch(1, 445 Hz)",
        answer.map(|count| sent(&buffer, count)),
    )
}

fn play(out: &mut impl Write) -> io::Result<()> {
    let mut buffer = [0u8; ROOM];
    let event = Event {
        kind: EventKind::Press,
        key: 1,
        pitch: Pitch::from_hz(445.0),
        velocity: 100,
    };
    let answer = by_bends().play(event, &mut buffer);
    pressed(
        out,
        "JitTuner::start([0, 1], Bend, Stop, Off); play(Event { kind: Press, key: 1, pitch: 445 Hz, velocity: 100 })",
        answer,
        &buffer,
    )
}

fn global_attr(out: &mut impl Write) -> io::Result<()> {
    let mut buffer = [0u8; ROOM];
    let volume = ChannelMessageType::ControlChange {
        controller: 7,
        value: 90,
    };
    let answer = by_bends().global_attr(volume, &mut buffer);
    answered(
        out,
        "JitTuner::start([0, 1], Bend, Stop, Off); global_attr(ControlChange(7, 90))",
        answer.map(|count| sent(&buffer, count)),
    )
}

fn stop(out: &mut impl Write) -> io::Result<()> {
    let mut buffer = [0u8; ROOM];
    let answer = held().stop(&mut buffer);
    answered(
        out,
        "JitTuner::start([0, 1], Bend, Stop, Off); note_on(1, 440 Hz, 100); stop()",
        answer.map(|count| sent(&buffer, count)),
    )
}
