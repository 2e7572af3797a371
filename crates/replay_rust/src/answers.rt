// What the engine answers, in words.

use arithmetic::refusal::Refusal;
use channels::keys::Place;
use channels::tuning_value::Tuning;
use pools::jit::{Pressing, Registered};
use printing::answers::{Answer, At, Code, Hex, Or};
use senders::jit;
use std::fmt;

// The values in which a detuning is sent.
#[derive(Clone, Copy)]
pub struct Values {
    pub fine: Result<Tuning, Refusal>,
    pub bend: Result<Tuning, Refusal>,
}

impl fmt::Display for Values {
    fn fmt<W: fmt::Write>(&self, f: &mut fmt::Formatter<W>) -> fmt::Result {
        let fine = Answer(self.fine.map(steps).map_err(Code));
        let bend = Answer(self.bend.map(steps).map_err(Code));
        write!(f, "fine {fine}, bend {bend}")
    }
}

fn steps(tuning: Tuning) -> i32 {
    match tuning {
        Tuning::Fine(n) => n as i32,
        Tuning::Bend(n) => n as i32,
    }
}

// Where a key is found, if it is.
#[derive(Clone, Copy)]
pub struct Found(pub Option<Place>);

impl fmt::Display for Found {
    fn fmt<W: fmt::Write>(&self, f: &mut fmt::Formatter<W>) -> fmt::Result {
        write!(f, "{}", Or(self.0.map(At::from), "not found"))
    }
}

// What a pool answers to an event.
#[derive(Clone, Copy)]
pub enum PoolAnswer {
    Press(Result<Pressing, Refusal>),
    Other(Option<Place>),
}

impl fmt::Display for PoolAnswer {
    fn fmt<W: fmt::Write>(&self, f: &mut fmt::Formatter<W>) -> fmt::Result {
        match *self {
            PoolAnswer::Press(Ok(press)) => write!(
                f,
                "{}",
                Or(press.registered.map(Pressed), "rejected")
            ),
            PoolAnswer::Press(Err(refusal)) => write!(f, "{}", Code(refusal)),
            PoolAnswer::Other(place) => write!(f, "{}", Found(place)),
        }
    }
}

#[derive(Clone, Copy)]
struct Pressed(Registered);

impl fmt::Display for Pressed {
    fn fmt<W: fmt::Write>(&self, f: &mut fmt::Formatter<W>) -> fmt::Result {
        let press = &self.0;
        let note = press.started_note.number();
        write!(f, "channel {}, note {note}", press.channel)?;
        match press.stopped_note {
            Some(stopped) => write!(f, ", stopped note {}", stopped.number()),
            None => Ok(()),
        }
    }
}

// What a call sent, or nothing for a press that is rejected.
#[derive(Clone, Copy)]
pub struct Sent<'a>(Result<Option<&'a [u8]>, Refusal>);

impl<'a> Sent<'a> {
    // Of how many bytes stand at the start of the buffer that was lent to it.
    pub fn of(answer: Result<jit::Pressed, Refusal>, buffer: &'a [u8]) -> Sent<'a> {
        Sent(answer.map(|sent| match sent {
            jit::Pressed::Sent(count) => Some(buffer.get(..count).unwrap_or(&[])),
            jit::Pressed::Rejected(_) => None,
        }))
    }
}

impl fmt::Display for Sent<'_> {
    fn fmt<W: fmt::Write>(&self, f: &mut fmt::Formatter<W>) -> fmt::Result {
        match self.0 {
            Ok(Some([])) => write!(f, "no bytes"),
            Ok(Some(bytes)) => write!(f, "{}", Hex(bytes)),
            Ok(None) => write!(f, "rejected"),
            Err(refusal) => write!(f, "{}", Code(refusal)),
        }
    }
}
