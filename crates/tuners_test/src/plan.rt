// Whole passages on the plan tuner: both tuning kinds, both kinds of list, notes without a number, keys that are not in the plan, messages to all, `stop`,
// and every refusal. After each call that was a byte short the tuner is looked at.

use crate::shown::{Answer, LISTS, Played, look_up, play, started};
use arithmetic::refusal::Refusal;
use channels::list::ChannelList;
use channels::tuning_value::TuningKind;
use plan_tuner::aot::{AotTuner, PlanSent};
use plans::lists::{NoteLists, PitchLists};
use printing::answers::{At, ListedNotes, ListedPitches, Or};
use senders::midi::ChannelMessageType;
use std::io::Write;
use std::{fmt, io};

// ---- the calls

#[derive(Clone, Copy)]
pub enum Call {
    Notes(NoteLists<'static>),
    Pitches(PitchLists<'static>),
    On { key: u8, velocity: u8 },
    Off { key: u8, velocity: u8 },
    Attr { key: u8, pressure: u8 },
    All(ChannelMessageType),
    Stop,
}

impl fmt::Display for Call {
    fn fmt<W: fmt::Write>(&self, f: &mut fmt::Formatter<W>) -> fmt::Result {
        match self {
            Call::Notes(lists) => write!(f, "plan {}", ListedNotes(*lists)),
            Call::Pitches(lists) => write!(f, "plan {}", ListedPitches(*lists)),
            Call::On { key, velocity } => write!(f, "press key {key}, velocity {velocity}"),
            Call::Off { key, velocity } => write!(f, "release key {key}, velocity {velocity}"),
            Call::Attr { key, pressure } => write!(f, "pressure {pressure} on key {key}"),
            Call::All(message) => write!(f, "to all {message:?}"),
            Call::Stop => write!(f, "stop"),
        }
    }
}

fn notes(keys: &'static [u8], notes: &'static [i32], detunings: &'static [f64]) -> Call {
    Call::Notes(NoteLists {
        keys,
        notes,
        detunings,
    })
}

fn pitches(keys: &'static [u8], pitches: &'static [f64]) -> Call {
    Call::Pitches(PitchLists { keys, pitches })
}

fn on(key: u8, velocity: u8) -> Call {
    Call::On { key, velocity }
}

fn off(key: u8, velocity: u8) -> Call {
    Call::Off { key, velocity }
}

fn attr(key: u8, pressure: u8) -> Call {
    Call::Attr { key, pressure }
}

impl Played for AotTuner {
    type Call = Call;

    fn opened(channels: &[u8]) -> (AotTuner, Result<ChannelList, Refusal>) {
        AotTuner::start(channels, TuningKind::FineTuning)
    }

    fn perform(&mut self, call: Call, out: &mut [u8]) -> Result<Answer, Refusal> {
        let sent = match call {
            Call::Notes(lists) => return self.set_tuning(&lists, out).map(planned),
            Call::Pitches(lists) => return self.set_tuning(&lists, out).map(planned),
            Call::On { key, velocity } => self.note_on(key, velocity, out),
            Call::Off { key, velocity } => self.note_off(key, velocity, out),
            Call::Attr { key, pressure } => self.note_attr(key, pressure, out),
            Call::All(message) => self.global_attr(message, out),
            Call::Stop => self.stop(out),
        };
        sent.map(Answer::Sent)
    }

    // It has no calls by value.
    fn by_value(self, _call: Call, _out: &mut [u8]) -> Option<(AotTuner, Result<Answer, Refusal>)> {
        None
    }

    fn find(&self, key: u8) -> Option<At> {
        self.access_key(key).map(At::from)
    }

    fn find_by_value(self, key: u8) -> Option<At> {
        self.access_key(key).map(At::from)
    }

    // Whether there is a plan, and where key 5 is.
    fn show_state(&self, out: &mut impl Write) -> io::Result<()> {
        let plan = if self.tuned() { "tuned" } else { "not tuned" };
        write!(
            out,
            ", then {plan}, key 5: {}",
            Or(self.find(5), "not found")
        )
    }
}

fn planned(planned: PlanSent) -> Answer {
    match planned {
        PlanSent::Tuned { channels, written } => Answer::Tuned { channels, written },
        PlanSent::Untuned(channels) => Answer::Untuned(channels),
    }
}

// ---- the passages

pub fn all(out: &mut impl Write) -> io::Result<()> {
    passage(out, TuningKind::FineTuning)?;
    passage(out, TuningKind::Bend)?;
    writeln!(
        out,
        "-- SPEC 2.2, 6.4: plan tuners, FineTuning, of a channel list that is empty, refused (6), refused (7), and full"
    )?;
    for channels in LISTS {
        let mut tuner: AotTuner = started(out, channels)?;
        begin(out, &mut tuner)?;
    }
    Ok(())
}

// What is planned and played on a tuner of each list.
fn begin(out: &mut impl Write, tuner: &mut AotTuner) -> io::Result<()> {
    let sixteen_detunings = pitches(
        &[0, 1, 2, 3, 4, 5, 6, 7, 8, 9, 10, 11, 12, 13, 14, 15],
        &[
            440.0, 441.0, 442.0, 443.0, 444.0, 445.0, 446.0, 447.0, 448.0, 449.0, 439.0, 438.0,
            437.0, 436.0, 435.0, 434.0,
        ],
    );
    play(
        out,
        tuner,
        &[
            notes(&[], &[], &[]),
            pitches(&[10, 20, 30], &[440.0, 441.0, 880.0]),
            sixteen_detunings,
            on(5, 9),
        ],
    )?;
    look_up(out, tuner, 5)
}

fn passage(out: &mut impl Write, kind: TuningKind) -> io::Result<()> {
    writeln!(
        out,
        "-- SPEC 9.3, 9.5: a plan tuner of MIDI channels 3, 15 and 0, {kind:?}, without a plan"
    )?;
    let (mut tuner, _) = AotTuner::start(&[3, 15, 0], kind);
    let tuner = &mut tuner;
    keys(out, tuner)?;
    writeln!(
        out,
        "-- SPEC 9.3: set_tuning sends the tuning of each channel used, in order; then the keys of the plan are played; 9.5: notes without a MIDI number"
    )?;
    play(
        out,
        tuner,
        &[notes(
            &[5, 9, 200, 1, 77],
            &[69, 60, -1, 128, 127],
            &[1.0, 1.02, 0.98, 1.0000005, 1.02],
        )],
    )?;
    keys(out, tuner)?;
    messages(out, tuner)?;
    refusals(out, tuner)?;
    keys(out, tuner)?;
    plans(out, tuner)
}

// Keys of the first list and one that is in none.
fn keys(out: &mut impl Write, tuner: &mut AotTuner) -> io::Result<()> {
    look_up(out, tuner, 5)?;
    look_up(out, tuner, 99)?;
    play(
        out,
        tuner,
        &[
            on(5, 100),
            on(9, 0),
            on(200, 127),
            on(1, 127),
            on(77, 1),
            on(99, 127),
            on(99, 128),
            on(5, 128),
            attr(9, 64),
            attr(1, 64),
            attr(9, 255),
            off(9, 2),
            off(200, 3),
            off(99, 200),
        ],
    )
}

// Messages of kinds with and without a padding, a bend, and refused ones.
fn messages(out: &mut impl Write, tuner: &mut AotTuner) -> io::Result<()> {
    writeln!(
        out,
        "-- SPEC 9.4: a message to every channel, in the list's order; no bend where the tuner tunes by bends; 9.3: stop sends nothing"
    )?;
    let all_notes_off = ChannelMessageType::ControlChange {
        controller: 123,
        value: 0,
    };
    play(
        out,
        tuner,
        &[
            Call::All(all_notes_off),
            Call::All(ChannelMessageType::ProgramChange { program: 5 }),
            Call::All(ChannelMessageType::ProgramChange { program: 128 }),
            Call::All(ChannelMessageType::PitchBendChange { value: -1 }),
            Call::All(ChannelMessageType::PitchBendChange { value: 8192 }),
            Call::Stop,
        ],
    )
}

fn refusals(out: &mut impl Write, tuner: &mut AotTuner) -> io::Result<()> {
    writeln!(
        out,
        "-- SPEC 2.2: a plan of notes is refused (12), then line by line (4), (3), (5), one of pitches (12), (1), (5); 1.9: the plan stays"
    )?;
    play(
        out,
        tuner,
        &[
            notes(&[1, 2], &[60], &[1.0, 1.01]),
            notes(&[1, 2, 2], &[60, 501, 60], &[1.0, 3.0, 1.0]),
            notes(&[1, 2, 2], &[60, 500, 60], &[1.0, 3.0, 1.0]),
            notes(&[1, 2, 2], &[60, 500, 60], &[1.0, 2.0, 1.0]),
            pitches(&[10, 20, 30], &[440.0, 441.0]),
            pitches(&[10, 20, 10], &[440.0, 0.0, 880.0]),
            pitches(&[10, 20, 10], &[440.0, 441.0, 880.0]),
        ],
    )
}

fn plans(out: &mut impl Write, tuner: &mut AotTuner) -> io::Result<()> {
    writeln!(
        out,
        "-- SPEC 6.4: four channels are too many, and the tuner then has no plan"
    )?;
    play(
        out,
        tuner,
        &[notes(&[1, 2, 3, 4], &[60, 61, 62, 63], &[1.0, 1.01, 0.99, 1.02])],
    )?;
    keys(out, tuner)?;
    writeln!(
        out,
        "-- SPEC 6.1, 9.3: a plan of pitches, and one of no keys"
    )?;
    play(
        out,
        tuner,
        &[pitches(&[10, 20, 30], &[440.0, 441.0, 880.0])],
    )?;
    look_up(out, tuner, 10)?;
    look_up(out, tuner, 20)?;
    look_up(out, tuner, 30)?;
    play(out, tuner, &[on(20, 1), notes(&[], &[], &[])])?;
    look_up(out, tuner, 10)
}
