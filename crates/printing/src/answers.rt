// What the engine answers, in words.

ghost use Rattle.std.specs.Prelude.{◌≡◌};

use crate::decimal::{Float, Form};
use arithmetic::refusal::Refusal;
use arithmetic::tuning::Approximation;
use channels::keys::{HeldKey, Place};
use channels::list::ChannelList;
use channels::tuning_value::Tuning;
use plans::aot::Planned;
use plans::lists::{NoteLists, PitchLists};
use pools::jit::{Pressing, Repitched};
use std::fmt;

// What a call answers, or its refusal.
#[derive(Clone, Copy)]
pub struct Answer<T, E>(pub Result<T, E>);

impl<T: fmt::Display, E: fmt::Display> fmt::Display for Answer<T, E> {
    fn fmt<W: fmt::Write>(&self, f: &mut fmt::Formatter<W>) -> fmt::Result {
        match &self.0 {
            Ok(answer) => write!(f, "{answer}"),
            Err(refusal) => write!(f, "{refusal}"),
        }
    }
}

// A refusal by its number, in words.
#[derive(Clone, Copy)]
pub struct Refused(pub Refusal);

impl fmt::Display for Refused {
    fn fmt<W: fmt::Write>(&self, f: &mut fmt::Formatter<W>) -> fmt::Result {
        write!(f, "refused ({})", self.0.number())
    }
}

// The same shorter, as R4.
#[derive(Clone, Copy)]
pub struct Code(pub Refusal);

impl fmt::Display for Code {
    fn fmt<W: fmt::Write>(&self, f: &mut fmt::Formatter<W>) -> fmt::Result {
        write!(f, "R{}", self.0.number())
    }
}

// What there is, or words for nothing.
#[derive(Clone, Copy)]
pub struct Or<T>(pub Option<T>, pub &'static str);

impl<T: fmt::Display> fmt::Display for Or<T> {
    fn fmt<W: fmt::Write>(&self, f: &mut fmt::Formatter<W>) -> fmt::Result {
        match &self.0 {
            Some(x) => write!(f, "{x}"),
            None => write!(f, "{}", self.1),
        }
    }
}

// Nothing where a call by value did the same as the call in place, else words.
#[derive(Clone, Copy)]
pub struct ByValue(pub bool);

impl fmt::Display for ByValue {
    fn fmt<W: fmt::Write>(&self, f: &mut fmt::Formatter<W>) -> fmt::Result {
        write!(f, "{}", if self.0 { "" } else { " by value: another" })
    }
}

// ---- notes and pitches

#[derive(Clone, Copy)]
pub struct Note(pub i32);

impl fmt::Display for Note {
    fn fmt<W: fmt::Write>(&self, f: &mut fmt::Formatter<W>) -> fmt::Result {
        write!(f, "note {}", self.0)
    }
}

#[derive(Clone, Copy)]
pub struct Semitones(pub i32);

impl fmt::Display for Semitones {
    fn fmt<W: fmt::Write>(&self, f: &mut fmt::Formatter<W>) -> fmt::Result {
        write!(f, "{} semitones", self.0)
    }
}

#[derive(Clone, Copy)]
pub struct Hertz(pub f64, pub Form);

impl fmt::Display for Hertz {
    fn fmt<W: fmt::Write>(&self, f: &mut fmt::Formatter<W>) -> fmt::Result {
        write!(f, "{} Hz", Float(self.0, self.1))
    }
}

#[derive(Clone, Copy)]
pub struct Nearest(pub Approximation, pub Form);

impl fmt::Display for Nearest {
    fn fmt<W: fmt::Write>(&self, f: &mut fmt::Formatter<W>) -> fmt::Result {
        let nearest = &self.0;
        write!(
            f,
            "note {}, detuning {}",
            nearest.note.number(),
            Float(nearest.detuning, self.1)
        )
    }
}

// ---- channels and keys

// Where a key is found.
#[derive(Clone, Copy, PartialEq, Eq)]
pub struct At {
    channel: u8,
    note: i32,
}

impl From<Place> for At {
    ghost from_gives = { λ place at. (at.channel ≡ place.channel) × (at.note ≡ place.note.number) };

    fn from(place: Place) -> At {
        At {
            channel: place.channel,
            note: place.note.number(),
        }
    }
}

impl fmt::Display for At {
    fn fmt<W: fmt::Write>(&self, f: &mut fmt::Formatter<W>) -> fmt::Result {
        write!(f, "channel {}, note {}", self.channel, self.note)
    }
}

#[derive(Clone, Copy)]
pub struct Listed(pub ChannelList);

impl fmt::Display for Listed {
    fn fmt<W: fmt::Write>(&self, f: &mut fmt::Formatter<W>) -> fmt::Result {
        write!(f, "channels listed {}", self.0.len())
    }
}

#[derive(Clone, Copy)]
pub struct Value(pub Tuning);

impl fmt::Display for Value {
    fn fmt<W: fmt::Write>(&self, f: &mut fmt::Formatter<W>) -> fmt::Result {
        match self.0 {
            Tuning::Fine(value) => write!(f, "fine value {value}"),
            Tuning::Bend(value) => write!(f, "bend {value}"),
        }
    }
}

#[derive(Clone, Copy)]
pub struct Held(pub HeldKey);

impl fmt::Display for Held {
    fn fmt<W: fmt::Write>(&self, f: &mut fmt::Formatter<W>) -> fmt::Result {
        let held = &self.0;
        write!(f, "key {}, {}", held.key, At::from(held.place))
    }
}

// ---- plans

#[derive(Clone, Copy)]
pub struct Plan(pub Planned);

impl fmt::Display for Plan {
    fn fmt<W: fmt::Write>(&self, f: &mut fmt::Formatter<W>) -> fmt::Result {
        match self.0 {
            Planned::Tuned(n) => write!(f, "tuned, channels used {n}"),
            Planned::Untuned(n) => write!(f, "untuned, channels needed {n}"),
        }
    }
}

// What a plan is asked for: a list of notes, and one of pitches.
#[derive(Clone, Copy)]
pub struct ListedNotes<'a>(pub NoteLists<'a>);

impl fmt::Display for ListedNotes<'_> {
    fn fmt<W: fmt::Write>(&self, f: &mut fmt::Formatter<W>) -> fmt::Result {
        let NoteLists {
            keys,
            notes,
            detunings,
        } = self.0;
        write!(f, "keys {keys:?}, notes {notes:?}, detunings {detunings:?}")
    }
}

#[derive(Clone, Copy)]
pub struct ListedPitches<'a>(pub PitchLists<'a>);

impl fmt::Display for ListedPitches<'_> {
    fn fmt<W: fmt::Write>(&self, f: &mut fmt::Formatter<W>) -> fmt::Result {
        let PitchLists { keys, pitches } = self.0;
        write!(f, "keys {keys:?}, pitches {pitches:?} Hz")
    }
}

// A group's number and its detuning.
#[derive(Clone, Copy)]
pub struct Entry(pub (i32, f64), pub Form);

impl fmt::Display for Entry {
    fn fmt<W: fmt::Write>(&self, f: &mut fmt::Formatter<W>) -> fmt::Result {
        let (group, detuning) = self.0;
        write!(f, "group {group}, detuning {}", Float(detuning, self.1))
    }
}

// ---- pools

// A press: where its key was released first, if it was, and what it got, or that it was rejected.
#[derive(Clone, Copy)]
pub struct Pressed(pub Pressing, pub Form);

impl fmt::Display for Pressed {
    fn fmt<W: fmt::Write>(&self, f: &mut fmt::Formatter<W>) -> fmt::Result {
        if let Some(place) = self.0.released {
            write!(f, "released from {}; ", At::from(place))?;
        }
        let Some(press) = self.0.registered else {
            return write!(f, "rejected");
        };
        let note = press.started_note.number();
        let detuning = Float(press.detuning, self.1);
        write!(
            f,
            "channel {}, note {note}, detuning {detuning}",
            press.channel
        )?;
        match press.stopped_note {
            Some(stopped) => write!(f, ", stopped note {}", stopped.number()),
            None => Ok(()),
        }
    }
}

#[derive(Clone, Copy)]
pub struct Retuned(pub Repitched, pub Form);

impl fmt::Display for Retuned {
    fn fmt<W: fmt::Write>(&self, f: &mut fmt::Formatter<W>) -> fmt::Result {
        let repitched = &self.0;
        write!(
            f,
            "{}, detuning {}",
            At::from(repitched.place),
            Float(repitched.detuning, self.1)
        )
    }
}

// ---- messages and tuners

// How many bytes a call wrote.
#[derive(Clone, Copy)]
pub struct Written(pub usize);

impl fmt::Display for Written {
    fn fmt<W: fmt::Write>(&self, f: &mut fmt::Formatter<W>) -> fmt::Result {
        write!(f, "{} bytes", self.0)
    }
}

// Bytes in hexadecimal, with spaces between them.
#[derive(Clone, Copy)]
pub struct Hex<'a>(pub &'a [u8]);

impl fmt::Display for Hex<'_> {
    fn fmt<W: fmt::Write>(&self, f: &mut fmt::Formatter<W>) -> fmt::Result {
        for (i, byte) in self.0.iter().enumerate() {
            if i != 0 {
                write!(f, " ")?;
            }
            write!(f, "{byte:02X}")?;
        }
        Ok(())
    }
}

// The bytes that a call wrote.
#[derive(Clone, Copy)]
pub struct Sent<'a>(pub &'a [u8]);

impl fmt::Display for Sent<'_> {
    fn fmt<W: fmt::Write>(&self, f: &mut fmt::Formatter<W>) -> fmt::Result {
        match self.0 {
            [] => write!(f, "no bytes"),
            bytes => write!(f, "{}", Hex(bytes)),
        }
    }
}

// What a tuning of a plan tuner came to, and the bytes that it sent.
#[derive(Clone, Copy)]
pub enum PlanTuned<'a> {
    Tuned(u16, Sent<'a>),
    Untuned(u16),
}

impl fmt::Display for PlanTuned<'_> {
    fn fmt<W: fmt::Write>(&self, f: &mut fmt::Formatter<W>) -> fmt::Result {
        match self {
            PlanTuned::Tuned(n, sent) => write!(f, "{}: {sent}", Plan(Planned::Tuned(*n))),
            PlanTuned::Untuned(n) => write!(f, "{}", Plan(Planned::Untuned(*n))),
        }
    }
}
