// Messages, SPEC 8.
use crate::{answered, sent};
use arithmetic::pitch::Ratio;
use senders::midi::ChannelMessageType;
use senders::mts::{channel_fine_tuning, channel_pitch_bend};
use std::io;
use std::io::Write;

const NOTE_ON: ChannelMessageType = ChannelMessageType::NoteOn {
    key: 69,
    velocity: 100,
};

pub fn all(out: &mut impl Write) -> io::Result<()> {
    note_on(
        out,
        "NoteOn(69, 100).to_raw_message(0, 3 bytes)",
        &mut [0; 3],
    )?;
    note_on(
        out,
        "NoteOn(69, 100).to_raw_message(0, 2 bytes)",
        &mut [0; 2],
    )?;
    let ratio = Ratio::from_float(1.03125);
    let mut buffer = [0; 12];
    let answer = channel_fine_tuning(0, ratio, &mut buffer);
    answered(
        out,
        "channel_fine_tuning(0, 33/32, 12 bytes)",
        answer.map(|count| sent(&buffer, count)),
    )?;
    let mut buffer = [0; 3];
    let answer = channel_pitch_bend(0, ratio, &mut buffer);
    answered(
        out,
        "channel_pitch_bend(0, 33/32, 3 bytes)",
        answer.map(|count| sent(&buffer, count)),
    )
}

fn note_on(out: &mut impl Write, question: &str, buffer: &mut [u8]) -> io::Result<()> {
    let answer = NOTE_ON.to_raw_message(0, buffer);
    answered(out, question, answer.map(|count| sent(buffer, count)))
}
