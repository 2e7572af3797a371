// How a call, its answer and its bytes are shown. A buffer is lent full of AA, and what a call did not send must stay so.

use arithmetic::refusal::Refusal;
use channels::list::ChannelList;
use printing::answers::{At, ByValue, Listed, Or, PlanTuned, Refused, Sent};
use std::io::Write;
use std::{fmt, io};

// The byte that fills a buffer before it is lent.
const FILLER: u8 = 0xaa;

// What a call answers that is not refused.
#[derive(Clone, Copy, PartialEq, Eq)]
pub enum Answer {
    // How many bytes it sent.
    Sent(usize),
    // The bytes of the release that a press begins with which is then rejected.
    Rejected(usize),
    // How many channels a plan uses, and how many bytes its tuning sent.
    Tuned { channels: u16, written: usize },
    // How many channels a plan would need.
    Untuned(u16),
}

impl Answer {
    // How many bytes the call sent.
    fn count(self) -> usize {
        match self {
            Answer::Sent(count) | Answer::Rejected(count) => count,
            Answer::Tuned {
                channels: _,
                written,
            } => written,
            Answer::Untuned(_) => 0,
        }
    }
}

fn sent_by(answer: Result<Answer, Refusal>) -> usize {
    answer.map(Answer::count).unwrap_or(0)
}

// An answer with the bytes that it sent, and a word for each byte behind them that has not kept its content.
#[derive(Clone, Copy)]
struct Shown<'a> {
    answer: Result<Answer, Refusal>,
    sent: &'a [u8],
    rest: &'a [u8],
}

impl<'a> Shown<'a> {
    fn of(answer: Result<Answer, Refusal>, buffer: &'a [u8]) -> Shown<'a> {
        let count = sent_by(answer);
        let (sent, rest) = buffer.split_at_checked(count).unwrap_or((buffer, &[]));
        Shown { answer, sent, rest }
    }
}

impl fmt::Display for Shown<'_> {
    fn fmt<W: fmt::Write>(&self, f: &mut fmt::Formatter<W>) -> fmt::Result {
        match self.answer {
            Ok(Answer::Sent(_)) => write!(f, "{}", Sent(self.sent))?,
            Ok(Answer::Rejected(0)) => write!(f, "rejected")?,
            Ok(Answer::Rejected(_)) => write!(f, "{}; rejected", Sent(self.sent))?,
            Ok(
                Answer::Tuned {
                    channels,
                    written: _,
                },
            ) => write!(f, "{}", PlanTuned::Tuned(channels, Sent(self.sent)))?,
            Ok(Answer::Untuned(channels)) => write!(f, "{}", PlanTuned::Untuned(channels))?,
            Err(refusal) => write!(f, "{}", Refused(refusal))?,
        }
        for byte in self.rest {
            if *byte != FILLER {
                write!(f, " touched")?;
            }
        }
        Ok(())
    }
}

// A tuner as the passages here play it. Calls are data and not closures, since each is made up to three times, on the tuner and on copies of it.
pub trait Played: Copy {
    // Shown as what is asked.
    type Call: Copy + fmt::Display;

    fn opened(channels: &[u8]) -> (Self, Result<ChannelList, Refusal>);

    fn perform(&mut self, call: Self::Call, out: &mut [u8]) -> Result<Answer, Refusal>;

    // The same by value, where the tuner has it so.
    fn by_value(self, call: Self::Call, out: &mut [u8]) -> Option<(Self, Result<Answer, Refusal>)>;

    fn find(&self, key: u8) -> Option<At>;

    fn find_by_value(self, key: u8) -> Option<At>;

    // What is to be seen of the tuner after a call that was a byte short.
    fn show_state(&self, out: &mut impl Write) -> io::Result<()>;
}

// Enough for each call: sixteen channels take 192 bytes.
const ROOM: usize = 200;

pub fn play<T: Played>(out: &mut impl Write, tuner: &mut T, calls: &[T::Call]) -> io::Result<()> {
    for &call in calls {
        play_one(out, tuner, call)?;
    }
    Ok(())
}

// Makes a call, by value too, and on a copy one byte short.
fn play_one<T: Played>(out: &mut impl Write, tuner: &mut T, call: T::Call) -> io::Result<()> {
    let before = *tuner;
    let mut buffer = [FILLER; ROOM];
    let answer = tuner.perform(call, &mut buffer);
    write!(out, "  {call}: {}", Shown::of(answer, &buffer))?;
    let mut other = [FILLER; ROOM];
    if let Some((copy, by_value)) = before.by_value(call, &mut other) {
        let same = by_value == answer && other == buffer && same_keys(*tuner, copy);
        write!(out, "{}", ByValue(same))?;
    }
    try_short(out, before, call, sent_by(answer).saturating_sub(1))?;
    writeln!(out)
}

// Makes a call on copies of a tuner, each with so much room.
pub fn in_rooms<T: Played>(
    out: &mut impl Write,
    tuner: &T,
    call: T::Call,
    rooms: &[usize],
) -> io::Result<()> {
    write!(out, "  {call}")?;
    for &room in rooms {
        try_short(out, *tuner, call, room)?;
    }
    writeln!(out)
}

// Makes a call with so much room, where that is not more than the buffer.
fn try_short<T: Played>(
    out: &mut impl Write,
    before: T,
    call: T::Call,
    room: usize,
) -> io::Result<()> {
    let mut tuner = before;
    let mut buffer = [FILLER; ROOM];
    if room < ROOM {
        let lent = &mut buffer[..room];
        let answer = tuner.perform(call, lent);
        write!(out, "; room {room}: {}", Shown::of(answer, lent))?;
        tuner.show_state(out)?;
    }
    Ok(())
}

// Whether each key is found at the same place.
fn same_keys<T: Played>(tuner: T, copy: T) -> bool {
    let mut same = true;
    for key in 0..=255 {
        same = same && tuner.find(key) == copy.find_by_value(key);
    }
    same
}

pub fn look_up<T: Played>(out: &mut impl Write, tuner: &T, key: u8) -> io::Result<()> {
    let place = tuner.find(key);
    let same = place == tuner.find_by_value(key);
    writeln!(
        out,
        "  look up key {key}: {}{}",
        Or(place, "not found"),
        ByValue(same)
    )
}

// Channel lists: an empty one, two that are refused, and a full one.
pub const LISTS: [&'static [u8]; 4] = [
    &[],
    &[15, 16],
    &[4, 4, 16],
    &[15, 14, 13, 12, 11, 10, 9, 8, 7, 6, 5, 4, 3, 2, 1, 0],
];

// A tuner of a channel list.
pub fn started<T: Played>(out: &mut impl Write, channels: &[u8]) -> io::Result<T> {
    let (tuner, answer) = T::opened(channels);
    let listed = printing::answers::Answer(answer.map(Listed).map_err(Refused));
    writeln!(out, "  start on MIDI channels {channels:?}: {listed}")?;
    Ok(tuner)
}
