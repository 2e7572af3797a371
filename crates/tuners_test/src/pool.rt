// Whole passages on the pool tuner: the console's sample session, every mode and both tuning kinds, notes without a number, unknown keys, messages to all,
// `stop`, and every refusal.

use crate::shown::{Answer, LISTS, Played, in_rooms, look_up, play, started};
use arithmetic::refusal::Refusal;
use channels::list::ChannelList;
use channels::tuning_value::TuningKind;
use channels::{Pitch, Ratio};
use pools::jit::{JitTuningModel, PoolGroupBy, PoolingMode, Retrigger};
use printing::answers::At;
use senders::event::{Event, EventKind};
use senders::jit::{JitTuner, Pressed};
use senders::midi::ChannelMessageType;
use senders::mts::{channel_fine_tuning, channel_pitch_bend};
use std::io::Write;
use std::{fmt, io};

// ---- the calls

#[derive(Clone, Copy)]
pub enum Call {
    Play(Event),
    Attr { key: u8, pressure: u8 },
    All(ChannelMessageType),
    Stop,
    Fine { channel: u8, detuning: f64 },
    Bend { channel: u8, detuning: f64 },
}

impl fmt::Display for Call {
    fn fmt<W: fmt::Write>(&self, f: &mut fmt::Formatter<W>) -> fmt::Result {
        match self {
            Call::Play(event) => show_event(f, event),
            Call::Attr { key, pressure } => write!(f, "pressure {pressure} on key {key}"),
            Call::All(message) => write!(f, "to all {message:?}"),
            Call::Stop => write!(f, "stop"),
            Call::Fine { channel, detuning } => {
                write!(f, "fine tuning of MIDI channel {channel} by {detuning:?}")
            }
            Call::Bend { channel, detuning } => {
                write!(f, "bend of MIDI channel {channel} by {detuning:?}")
            }
        }
    }
}

fn show_event<W: fmt::Write>(f: &mut fmt::Formatter<W>, event: &Event) -> fmt::Result {
    let hz = event.pitch.as_hz();
    let key = event.key;
    let velocity = event.velocity;
    match event.kind {
        EventKind::Press => write!(f, "press key {key} at {hz:?} Hz, velocity {velocity}"),
        EventKind::Release => write!(f, "release key {key}, velocity {velocity}"),
        EventKind::Repitch => write!(f, "repitch key {key} to {hz:?} Hz"),
    }
}

fn event(kind: EventKind, key: u8, hz: f64, velocity: u8) -> Call {
    let pitch = Pitch::from_hz(hz);
    Call::Play(Event {
        kind,
        key,
        pitch,
        velocity,
    })
}

fn press(key: u8, hz: f64, velocity: u8) -> Call {
    event(EventKind::Press, key, hz, velocity)
}

// What would be refused of a press decides nothing of a release and a repitch (SPEC 9.8).
fn release(key: u8, velocity: u8) -> Call {
    event(EventKind::Release, key, 0.0, velocity)
}

fn repitch(key: u8, hz: f64) -> Call {
    event(EventKind::Repitch, key, hz, 255)
}

fn pressure(key: u8, pressure: u8) -> Call {
    Call::Attr { key, pressure }
}

impl Played for JitTuner {
    type Call = Call;

    fn opened(channels: &[u8]) -> (JitTuner, Result<ChannelList, Refusal>) {
        JitTuner::start(
            channels,
            TuningKind::Bend,
            PoolingMode::Stop,
            Retrigger::Off,
        )
    }

    fn perform(&mut self, call: Call, out: &mut [u8]) -> Result<Answer, Refusal> {
        let sent = match call {
            Call::Play(event) => return pressed(self.play(event, out)),
            Call::Attr { key, pressure } => self.note_attr(key, pressure, out),
            Call::All(message) => self.global_attr(message, out),
            Call::Stop => self.stop(out),
            Call::Fine { channel, detuning } => {
                channel_fine_tuning(channel, Ratio::from_float(detuning), out)
            }
            Call::Bend { channel, detuning } => {
                channel_pitch_bend(channel, Ratio::from_float(detuning), out)
            }
        };
        sent.map(Answer::Sent)
    }

    fn by_value(self, call: Call, out: &mut [u8]) -> Option<(JitTuner, Result<Answer, Refusal>)> {
        match call {
            Call::Play(event) => event_by_value(self, event, out),
            Call::Stop => {
                let (tuner, answer) = self.stopped(out);
                Some((tuner, answer.map(Answer::Sent)))
            }
            _ => None,
        }
    }

    fn find(&self, key: u8) -> Option<At> {
        self.access_key(key).map(At::from)
    }

    fn find_by_value(self, key: u8) -> Option<At> {
        self.looked_up(key).map(At::from)
    }

    fn show_state(&self, _out: &mut impl Write) -> io::Result<()> {
        Ok(())
    }
}

fn event_by_value(
    tuner: JitTuner,
    event: Event,
    out: &mut [u8],
) -> Option<(JitTuner, Result<Answer, Refusal>)> {
    match event.kind {
        EventKind::Press => {
            let (tuner, answer) = tuner.pressed(event.key, event.pitch, event.velocity, out);
            Some((tuner, pressed(answer)))
        }
        EventKind::Release => {
            let (tuner, answer) = tuner.released(event.key, event.velocity, out);
            Some((tuner, answer.map(Answer::Sent)))
        }
        EventKind::Repitch => None,
    }
}

fn pressed(answer: Result<Pressed, Refusal>) -> Result<Answer, Refusal> {
    answer.map(|press| match press {
        Pressed::Sent(count) => Answer::Sent(count),
        Pressed::Rejected(count) => Answer::Rejected(count),
    })
}

// ---- the passages

pub fn all(out: &mut impl Write) -> io::Result<()> {
    writeln!(
        out,
        "-- SPEC 9.8: presses, releases and repitches are events; here a release has 0 Hz and a repitch velocity 255, which decide nothing"
    )?;
    sample(out)?;
    for kind in [TuningKind::FineTuning, TuningKind::Bend] {
        for mode in [PoolingMode::Block, PoolingMode::Stop, PoolingMode::Ignore] {
            passage(out, kind, mode)?;
        }
    }
    lists(out)?;
    detunings(out)?;
    retrigger(out)
}

fn sample(out: &mut impl Write) -> io::Result<()> {
    writeln!(
        out,
        "-- SPEC 10.5, 9.2: the console's sample, a pool tuner of MIDI channels 0 and 1, FineTuning, Stop"
    )?;
    let (mut tuner, _) = JitTuner::start(
        &[0, 1],
        TuningKind::FineTuning,
        PoolingMode::Stop,
        Retrigger::Off,
    );
    play(
        out,
        &mut tuner,
        &[press(1, 440.0, 100), press(2, 880.0, 90), release(1, 64)],
    )?;
    look_up(out, &tuner, 1)?;
    look_up(out, &tuner, 2)
}

fn passage(out: &mut impl Write, kind: TuningKind, mode: PoolingMode) -> io::Result<()> {
    writeln!(
        out,
        "-- SPEC 9.2, 7.3: presses, on a pool tuner of MIDI channels 3, 15 and 0, {kind:?}, {mode:?}; 9.5: notes without a MIDI number"
    )?;
    let (mut tuner, _) = JitTuner::start(&[3, 15, 0], kind, mode, Retrigger::Off);
    let tuner = &mut tuner;
    play(
        out,
        tuner,
        &[
            press(200, 440.0, 127),
            press(7, 455.0, 0),
            press(100, 261.0, 1),
            press(8, 6000.0, 77),
            press(9, 20000.0, 78),
            press(10, 4.0, 79),
            press(11, 262.5, 80),
        ],
    )?;
    refusals(out, tuner)?;
    changes(out, tuner)?;
    writeln!(
        out,
        "-- SPEC 9.2, 7.4: releases, and presses of other keys then"
    )?;
    play(
        out,
        tuner,
        &[
            release(9, 5),
            release(10, 6),
            release(200, 7),
            press(255, 1000.0, 64),
            press(0, 30.0, 64),
        ],
    )?;
    look_up(out, tuner, 255)?;
    messages(out, tuner)?;
    stops(out, tuner)
}

fn refusals(out: &mut impl Write, tuner: &mut JitTuner) -> io::Result<()> {
    writeln!(
        out,
        "-- SPEC 2.2: a press is refused (8), (1), (11), and a rejected one never (10); a release (8), also where the key is unknown"
    )?;
    play(
        out,
        tuner,
        &[
            press(11, 0.0, 128),
            press(11, 0.0, 127),
            press(11, 440.0, 127),
            press(11, 0.0 / 0.0, 127),
            press(99, 1.0 / 0.0, 127),
            release(11, 128),
            release(99, 200),
            release(99, 127),
        ],
    )
}

fn changes(out: &mut impl Write, tuner: &mut JitTuner) -> io::Result<()> {
    writeln!(
        out,
        "-- SPEC 9.2: the key pressure of a held key, and the tuning for a new pitch; 2.2: refused (8) and (1), also where the key is unknown"
    )?;
    play(
        out,
        tuner,
        &[
            pressure(11, 33),
            pressure(11, 128),
            pressure(9, 34),
            pressure(99, 127),
            pressure(99, 255),
            repitch(11, 255.0),
            repitch(11, 1.0),
            repitch(11, 40000.0),
            repitch(11, 0.0),
            repitch(99, 440.0),
            repitch(99, 0.0),
        ],
    )
}

fn messages(out: &mut impl Write, tuner: &mut JitTuner) -> io::Result<()> {
    writeln!(
        out,
        "-- SPEC 9.4: a message to every channel, in the list's order; no bend where the tuner tunes by bends; 2.2: refused (8), (9)"
    )?;
    let messages = [
        ChannelMessageType::NoteOff {
            key: 1,
            velocity: 2,
        },
        ChannelMessageType::NoteOn {
            key: 128,
            velocity: 2,
        },
        ChannelMessageType::PolyphonicKeyPressure {
            key: 1,
            pressure: 128,
        },
        ChannelMessageType::ControlChange {
            controller: 123,
            value: 0,
        },
        ChannelMessageType::ProgramChange { program: 5 },
        ChannelMessageType::ChannelPressure { pressure: 6 },
        ChannelMessageType::PitchBendChange { value: -1 },
        ChannelMessageType::PitchBendChange { value: 8192 },
    ];
    for message in messages {
        play(out, tuner, &[Call::All(message)])?;
    }
    Ok(())
}

fn stops(out: &mut impl Write, tuner: &mut JitTuner) -> io::Result<()> {
    writeln!(
        out,
        "-- SPEC 9.2, 7.6: stop sends the note-offs of all held keys with velocity 0, by rising key; then all channels are free"
    )?;
    play(out, tuner, &[Call::Stop])?;
    look_up(out, tuner, 255)?;
    play(
        out,
        tuner,
        &[Call::Stop, press(255, 1001.0, 64), release(255, 0)],
    )?;
    look_up(out, tuner, 255)
}

// ---- channel lists

fn lists(out: &mut impl Write) -> io::Result<()> {
    writeln!(
        out,
        "-- SPEC 2.2, 7.3, 9.4: pool tuners by bends, Stop, of a channel list that is empty, refused (6), refused (7), and full"
    )?;
    for channels in LISTS {
        let mut tuner: JitTuner = started(out, channels)?;
        let program = ChannelMessageType::ProgramChange { program: 5 };
        play(
            out,
            &mut tuner,
            &[press(5, 440.0, 9), Call::All(program), Call::Stop],
        )?;
        look_up(out, &tuner, 5)?;
    }
    Ok(())
}

// ---- a detuning passed

fn detunings(out: &mut impl Write) -> io::Result<()> {
    writeln!(
        out,
        "-- SPEC 8.3, 5.1, 5.2, 11.1: fine tuning and a bend by a detuning; 2.2: refused (6), (2), (10)"
    )?;
    for (channel, detuning) in [
        (0, 1.0),
        (1, 2.0),
        (2, 0.5),
        (3, 1.03125),
        (15, 0.96875),
        (15, 1000.0),
        (15, 0.001),
        (16, 0.0),
        (15, 0.0),
        (0, -1.0),
        (0, 0.0 / 0.0),
        (0, 1.0 / 0.0),
    ] {
        let (mut tuner, _) = JitTuner::start(
            &[],
            TuningKind::Bend,
            PoolingMode::Block,
            Retrigger::Off,
        );
        play(
            out,
            &mut tuner,
            &[
                Call::Fine { channel, detuning },
                Call::Bend { channel, detuning },
            ],
        )?;
    }
    Ok(())
}

// ---- keys that are held pressed again

// A tuner with retrigger.
fn with_retrigger(
    out: &mut impl Write,
    channels: &[u8],
    kind: TuningKind,
    mode: PoolingMode,
) -> io::Result<JitTuner> {
    writeln!(
        out,
        "  start on MIDI channels {channels:?}, {kind:?}, {mode:?}, with retrigger"
    )?;
    Ok(JitTuner::start(channels, kind, mode, Retrigger::On).0)
}

fn retrigger(out: &mut impl Write) -> io::Result<()> {
    writeln!(
        out,
        "-- SPEC 7.2d, 9.2e: retrigger: a held key is released with velocity 0 and pressed again, here on the other channel; 2.2: refused (8), (1), (10)"
    )?;
    for mode in [PoolingMode::Block, PoolingMode::Stop, PoolingMode::Ignore] {
        let mut tuner = with_retrigger(out, &[0, 1], TuningKind::FineTuning, mode)?;
        play(out, &mut tuner, &[press(1, 440.0, 100)])?;
        // The release is three bytes of the eighteen.
        in_rooms(out, &tuner, press(1, 455.0, 90), &[17, 3, 2])?;
        play(
            out,
            &mut tuner,
            &[
                press(1, 440.0, 128),
                press(1, 0.0, 90),
                press(1, 455.0, 90),
                press(2, 500.0, 80),
                press(1, 440.0, 70),
                press(3, 600.0, 60),
                Call::Stop,
            ],
        )?;
    }
    writeln!(
        out,
        "-- SPEC 7.3, 7.2d, Ignore: a key that has lost its channel is pressed again: its note-off frees nothing, and the other key loses the channel"
    )?;
    let mut tuner = with_retrigger(out, &[4], TuningKind::Bend, PoolingMode::Ignore)?;
    play(
        out,
        &mut tuner,
        &[
            press(1, 440.0, 100),
            press(2, 500.0, 90),
            press(1, 455.0, 80),
            release(2, 64),
            release(1, 64),
        ],
    )?;
    writeln!(
        out,
        "-- SPEC 7.2d, 9.5: a key whose note has no MIDI number is released without a note-off"
    )?;
    let mut tuner = with_retrigger(out, &[4], TuningKind::Bend, PoolingMode::Stop)?;
    play(
        out,
        &mut tuner,
        &[press(1, 20000.0, 100), press(1, 440.0, 90)],
    )?;
    look_up(out, &tuner, 1)?;
    letters(out)
}

fn letters(out: &mut impl Write) -> io::Result<()> {
    writeln!(
        out,
        "-- SPEC 9.1, 9.2e, 7.3: a key is pressed again for another letter, whose pool is full: rejected after the release, or the other key is stopped too"
    )?;
    for mode in [PoolingMode::Block, PoolingMode::Stop] {
        writeln!(
            out,
            "  a tuner of a pool model of MIDI channels [3], group by NoteLetter, Bend, {mode:?}, with retrigger"
        )?;
        let (model, _) = JitTuningModel::open(&[3], PoolGroupBy::NoteLetter, mode, Retrigger::On);
        let mut tuner = JitTuner::of(model, TuningKind::Bend);
        play(
            out,
            &mut tuner,
            &[
                press(1, 440.0, 100),
                press(2, 466.0, 90),
                press(1, 466.0, 80),
            ],
        )?;
        look_up(out, &tuner, 1)?;
        look_up(out, &tuner, 2)?;
    }
    Ok(())
}
