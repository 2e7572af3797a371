// What is played on a pool tuner, as data: a press, a release or a repitch.

ghost use Rattle.senders.specs.Buffer.{CallMeets};
ghost use Rattle.senders.specs.Answers.{press_answer};
ghost use Rattle.senders.specs.Jit.{view};
ghost use Rattle.senders.specs.Event.{play_rule};

use crate::jit::{JitTuner, Pressed};
use channels::{Pitch, Refusal};

#[derive(Clone, Copy, Debug, PartialEq, Eq)]
pub enum EventKind {
    Press,
    Release,
    Repitch,
}

// An event of a key. A release has no pitch and a repitch no velocity: what these fields hold then is kept, and decides nothing.
#[derive(Clone, Copy, PartialEq)]
pub struct Event {
    pub kind: EventKind,
    pub key: u8,
    pub pitch: Pitch,
    pub velocity: u8,
}

impl JitTuner {
    // An event by its call, `note_on`, `note_off` or `note_pitch`: how many bytes were sent, and whether no channel was free for a press. Refuses what that
    // call refuses.
    // Example: JitTuner::start([0, 1], Bend, Stop, Off); play(Event { kind: Press, key: 1, pitch: 445 Hz, velocity: 100 }) is E0 21 46 90 45 64
    pub fn play(&mut self, event: Event, out: &mut [u8]) -> Result<Pressed, Refusal>
        ensures { CallMeets view (play_rule (view self.old) event) self.old out.old (press_answer result) self.new out.new }
    {
        match event.kind {
            EventKind::Press => self.note_on(event.key, event.pitch, event.velocity, out),
            EventKind::Release => self
                .note_off(event.key, event.velocity, out)
                .map(Pressed::Sent),
            EventKind::Repitch => self
                .note_pitch(event.key, event.pitch, out)
                .map(Pressed::Sent),
        }
    }
}
