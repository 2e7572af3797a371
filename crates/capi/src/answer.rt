// The answers of calls in numbers (SPEC 12.3). Each record begins with what happened and the number of the refusal, which is 0 where nothing is refused; other
// fields are 0 where there is nothing to say. A number for what happened and a flag beside a note stay, since the interface for C needs them.

ghost use Rattle.std.specs.Prelude.{◌≡◌, pos};
ghost use Rattle.std.proofs.Math.Option.{none};
ghost use Rattle.arithmetic.specs.Answers.{optional, outcome, outcome_by};
ghost use Rattle.arithmetic.specs.Nearest.{nearest};
ghost use Rattle.arithmetic.specs.Refusal.{number};
ghost use Rattle.channels.specs.ChannelList.{entries};
ghost use Rattle.channels.specs.Places.{place};
ghost use Rattle.plans.specs.Plan.{plan_answer};
ghost use Rattle.plan_tuner.specs.Aot.{plan_sent};
ghost use Rattle.pools.specs.PoolAnswers.{press_outcome, repitch_outcome};
ghost use Rattle.senders.specs.Answers.{press_answer};
ghost use Rattle.capi.specs.Answers.{answer_of, of_sent, of_press, of_list, of_plan, of_plan_sent, registered_of, of_registered};
ghost use Rattle.capi.specs.Answers.{note_of, zero_float, of_place, of_detuning, of_entry, of_repitched, of_nearest, of_pitch, of_measure, of_tuning};

use arithmetic::refusal::Refusal;
use arithmetic::tuning::Approximation;
use channels::keys::Place;
use channels::list::ChannelList;
use channels::tuning_value::Tuning;
use plan_tuner::aot::PlanSent;
use plans::aot::Planned;
use pools::jit::{Pressing, Repitched};
use senders::jit::Pressed;

// What happened (SPEC 12.3).
enum Outcome {
    Done = 0,
    Untuned = 1,
    Rejected = 2,
    NotFound = 3,
    Refused = 4,
}

// Of a call that sends or opens: how many channels a plan takes, and how many bytes stand at the start of the buffer.
#[repr(C)]
#[derive(Clone, Copy, Default)]
pub struct Answer {
    pub outcome: u8,
    pub refusal: u8,
    pub channels: u16,
    pub bytes: usize,
}

// A note or a group, with its channel and its detuning.
#[repr(C)]
#[derive(Clone, Copy, Default)]
pub struct Note {
    pub outcome: u8,
    pub refusal: u8,
    pub channel: u16,
    pub note: i32,
    pub detuning: f64,
}

// A press from a pool, the note that it stopped, if `stopped` is 1, and where its key was released first, if `released` is 1.
#[repr(C)]
#[derive(Clone, Copy, Default)]
pub struct RegisteredKey {
    pub outcome: u8,
    pub refusal: u8,
    pub channel: u16,
    pub note: i32,
    pub stopped: u8,
    pub released: u8,
    pub released_channel: u16,
    pub stopped_note: i32,
    pub released_note: i32,
    pub detuning: f64,
}

#[repr(C)]
#[derive(Clone, Copy, Default)]
pub struct NotePitch {
    pub outcome: u8,
    pub refusal: u8,
    pub hz: f64,
}

#[repr(C)]
#[derive(Clone, Copy, Default)]
pub struct Number {
    pub outcome: u8,
    pub refusal: u8,
    pub number: i64,
}

impl Answer {
    fn refused(refusal: Refusal) -> Answer
        ensures { result ≡ answer_of 4 (number refusal) 0 0 }
    {
        Answer {
            outcome: Outcome::Refused as u8,
            refusal: refusal.number(),
            ..Answer::default()
        }
    }
}

// A call that sends.
impl From<Result<usize, Refusal>> for Answer {
    ghost from_gives = { λ sent answer. answer ≡ of_sent (outcome sent) };

    fn from(sent: Result<usize, Refusal>) -> Answer {
        match sent {
            Ok(bytes) => Answer {
                outcome: Outcome::Done as u8,
                bytes,
                ..Answer::default()
            },
            Err(refusal) => Answer::refused(refusal),
        }
    }
}

// A press from a pool tuner.
impl From<Result<Pressed, Refusal>> for Answer {
    ghost from_gives = { λ pressed answer. answer ≡ of_press (press_answer pressed) };

    fn from(pressed: Result<Pressed, Refusal>) -> Answer {
        match pressed {
            Ok(Pressed::Sent(bytes)) => Answer::from(Ok(bytes)),
            Ok(Pressed::Rejected(bytes)) => Answer {
                outcome: Outcome::Rejected as u8,
                bytes,
                ..Answer::default()
            },
            Err(refusal) => Answer::refused(refusal),
        }
    }
}

// A call that opens a block.
impl From<Result<ChannelList, Refusal>> for Answer {
    ghost from_gives = { λ listed answer. answer ≡ of_list (outcome_by entries listed) };

    fn from(listed: Result<ChannelList, Refusal>) -> Answer {
        match listed {
            Ok(_) => Answer {
                outcome: Outcome::Done as u8,
                ..Answer::default()
            },
            Err(refusal) => Answer::refused(refusal),
        }
    }
}

// A tuning of a plan model.
impl From<Result<Planned, Refusal>> for Answer {
    ghost from_gives = { λ plan answer. answer ≡ of_plan (plan_answer plan) };

    fn from(plan: Result<Planned, Refusal>) -> Answer {
        match plan {
            Ok(Planned::Tuned(channels)) => Answer {
                outcome: Outcome::Done as u8,
                channels,
                ..Answer::default()
            },
            Ok(Planned::Untuned(channels)) => Answer {
                outcome: Outcome::Untuned as u8,
                channels,
                ..Answer::default()
            },
            Err(refusal) => Answer::refused(refusal),
        }
    }
}

// A tuning of a plan tuner.
impl From<Result<PlanSent, Refusal>> for Answer {
    ghost from_gives = { λ plan answer. answer ≡ of_plan_sent (plan_sent plan) };

    fn from(plan: Result<PlanSent, Refusal>) -> Answer {
        match plan {
            Ok(PlanSent::Tuned { channels, written }) => Answer {
                bytes: written,
                ..Answer::from(Ok(Planned::Tuned(channels)))
            },
            Ok(PlanSent::Untuned(channels)) => Answer::from(Ok(Planned::Untuned(channels))),
            Err(refusal) => Answer::refused(refusal),
        }
    }
}

// A lookup or a release of a key.
#[tactic(auto, unfolding(channels::specs::Places::place))]
impl From<Option<Place>> for Note {
    ghost from_gives = { λ found note. note ≡ of_place (place found) };

    fn from(found: Option<Place>) -> Note {
        match found {
            Some(place) => Note {
                outcome: Outcome::Done as u8,
                channel: u16::from(place.channel),
                note: place.note.number(),
                ..Note::default()
            },
            None => Note::not_found(),
        }
    }
}

// A repitch of a pool model.
#[tactic(auto, unfolding(channels::specs::Places::place))]
impl From<Result<Option<Repitched>, Refusal>> for Note {
    ghost from_gives = { λ answer note. note ≡ of_repitched (repitch_outcome answer) };

    fn from(answer: Result<Option<Repitched>, Refusal>) -> Note {
        match answer {
            Ok(Some(repitched)) => Note {
                detuning: repitched.detuning,
                ..Note::from(Some(repitched.place))
            },
            Ok(None) => Note::not_found(),
            Err(refusal) => Note::refused(refusal),
        }
    }
}

// A note nearest to a pitch.
impl From<Result<Approximation, Refusal>> for Note {
    ghost from_gives = { λ answer note. note ≡ of_nearest (outcome_by nearest answer) };

    fn from(answer: Result<Approximation, Refusal>) -> Note {
        match answer {
            Ok(nearest) => Note {
                outcome: Outcome::Done as u8,
                note: nearest.note.number(),
                detuning: nearest.detuning,
                ..Note::default()
            },
            Err(refusal) => Note::refused(refusal),
        }
    }
}

impl Note {
    // The detuning of a group on a channel.
    pub fn of_detuning(channel: u16, group: i32, detuning: Option<f64>) -> Note
        ensures { result ≡ of_detuning channel group (optional detuning) }
    {
        Note::of_entry(channel, detuning.map(|detuning| (group, detuning)))
    }

    // A group on a channel with its detuning.
    pub fn of_entry(channel: u16, entry: Option<(i32, f64)>) -> Note
        ensures { result ≡ of_entry channel (optional entry) }
    {
        match entry {
            Some((group, detuning)) => Note {
                outcome: Outcome::Done as u8,
                channel,
                note: group,
                detuning,
                ..Note::default()
            },
            None => Note::not_found(),
        }
    }

    fn not_found() -> Note
        ensures { result ≡ note_of 3 0 0 (pos 0) zero_float }
    {
        Note {
            outcome: Outcome::NotFound as u8,
            ..Note::default()
        }
    }

    fn refused(refusal: Refusal) -> Note
        ensures { result ≡ note_of 4 (number refusal) 0 (pos 0) zero_float }
    {
        Note {
            outcome: Outcome::Refused as u8,
            refusal: refusal.number(),
            ..Note::default()
        }
    }
}

impl RegisteredKey {
    // Where the key of a press was released first, if it was, and nothing of the press.
    #[tactic(auto, unfolding(channels::specs::Places::place))]
    fn released(released: Option<Place>) -> RegisteredKey
        ensures { result ≡ registered_of 0 0 0 none (pos 0) zero_float (place released) }
    {
        match released {
            Some(place) => RegisteredKey {
                released: 1,
                released_channel: u16::from(place.channel),
                released_note: place.note.number(),
                ..RegisteredKey::default()
            },
            None => RegisteredKey::default(),
        }
    }
}

// A press from a pool model.
impl From<Result<Pressing, Refusal>> for RegisteredKey {
    ghost from_gives = { λ pressing key. key ≡ of_registered (press_outcome pressing) };

    fn from(pressing: Result<Pressing, Refusal>) -> RegisteredKey {
        match pressing {
            Ok(
                Pressing {
                    released,
                    registered: Some(press),
                },
            ) => RegisteredKey {
                outcome: Outcome::Done as u8,
                channel: u16::from(press.channel),
                note: press.started_note.number(),
                stopped: u8::from(press.stopped_note.is_some()),
                stopped_note: press.stopped_note.map_or(0, |note| note.number()),
                detuning: press.detuning,
                ..RegisteredKey::released(released)
            },
            Ok(
                Pressing {
                    released,
                    registered: None,
                },
            ) => RegisteredKey {
                outcome: Outcome::Rejected as u8,
                ..RegisteredKey::released(released)
            },
            Err(refusal) => RegisteredKey {
                outcome: Outcome::Refused as u8,
                refusal: refusal.number(),
                ..RegisteredKey::default()
            },
        }
    }
}

// The pitch of a note.
impl From<Result<f64, Refusal>> for NotePitch {
    ghost from_gives = { λ answer pitch. pitch ≡ of_pitch (outcome answer) };

    fn from(answer: Result<f64, Refusal>) -> NotePitch {
        match answer {
            Ok(hz) => NotePitch {
                outcome: Outcome::Done as u8,
                hz,
                ..NotePitch::default()
            },
            Err(refusal) => NotePitch {
                outcome: Outcome::Refused as u8,
                refusal: refusal.number(),
                ..NotePitch::default()
            },
        }
    }
}

// A measure.
impl From<Result<i64, Refusal>> for Number {
    ghost from_gives = { λ measure number. number ≡ of_measure (outcome measure) };

    fn from(measure: Result<i64, Refusal>) -> Number {
        match measure {
            Ok(number) => Number {
                outcome: Outcome::Done as u8,
                number,
                ..Number::default()
            },
            Err(refusal) => Number {
                outcome: Outcome::Refused as u8,
                refusal: refusal.number(),
                ..Number::default()
            },
        }
    }
}

// The value of a tuning of either kind.
impl From<Result<Tuning, Refusal>> for Number {
    ghost from_gives = { λ tuning number. number ≡ of_tuning (outcome tuning) };

    fn from(tuning: Result<Tuning, Refusal>) -> Number {
        Number::from(tuning.map(|tuning| match tuning {
            Tuning::Fine(steps) => i64::from(steps),
            Tuning::Bend(steps) => i64::from(steps),
        }))
    }
}
