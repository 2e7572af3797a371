// Writes messages of every kind at their limits, and every refusal, below the rule of docs/SPEC.md that is tried: a line for each call, with the message, its
// channel, how many bytes of a buffer of four are lent, how many were written or the refusal, and then the whole buffer, whose bytes were AA before.
#![tactic(auto)]

ghost use Rattle.std.specs.Prelude.{◌≤◌};

use printing::answers::{Answer, Hex, Refused, Written};
use senders::midi::ChannelMessageType;
use std::io;
use std::io::{BufWriter, Write};

// One byte more than a message takes.
const ROOM: usize = 4;

fn main(rt: HostRuntime) -> io::Result<()> {
    let mut out = BufWriter::new(rt.alloc(), rt.stdout())?;
    notes(&mut out)?;
    controls(&mut out)?;
    bends(&mut out)?;
    wrong_channels(&mut out)?;
    wrong_data(&mut out)?;
    wrong_bends(&mut out)?;
    short_buffers(&mut out)?;
    out.flush()
}

fn note_off(key: u8, velocity: u8) -> ChannelMessageType {
    ChannelMessageType::NoteOff { key, velocity }
}

fn note_on(key: u8, velocity: u8) -> ChannelMessageType {
    ChannelMessageType::NoteOn { key, velocity }
}

fn key_pressure(key: u8, pressure: u8) -> ChannelMessageType {
    ChannelMessageType::PolyphonicKeyPressure { key, pressure }
}

fn control(controller: u8, value: u8) -> ChannelMessageType {
    ChannelMessageType::ControlChange { controller, value }
}

fn program(program: u8) -> ChannelMessageType {
    ChannelMessageType::ProgramChange { program }
}

fn pressure(pressure: u8) -> ChannelMessageType {
    ChannelMessageType::ChannelPressure { pressure }
}

fn bend(value: i16) -> ChannelMessageType {
    ChannelMessageType::PitchBendChange { value }
}

fn notes(out: &mut impl Write) -> io::Result<()> {
    writeln!(
        out,
        "-- SPEC 1.9: a message is written to the start of the bytes that are lent, here the first ones (room) of a buffer of four bytes AA"
    )?;
    writeln!(
        out,
        "-- SPEC 8.1: kinds 8, 9 and A, note-off, note-on and polyphonic key pressure"
    )?;
    sent(out, note_off(0, 0), 0, ROOM)?;
    sent(out, note_off(127, 127), 15, ROOM)?;
    sent(out, note_on(0, 0), 0, ROOM)?;
    sent(out, note_on(127, 127), 15, ROOM)?;
    sent(out, note_on(69, 100), 7, ROOM)?;
    sent(out, key_pressure(0, 0), 0, ROOM)?;
    sent(out, key_pressure(127, 127), 15, ROOM)
}

fn controls(out: &mut impl Write) -> io::Result<()> {
    writeln!(
        out,
        "-- SPEC 8.1: kinds B, C and D, control change, program change and channel pressure; C and D end in 00"
    )?;
    sent(out, control(0, 0), 0, ROOM)?;
    sent(out, control(127, 127), 15, ROOM)?;
    sent(out, program(0), 0, ROOM)?;
    sent(out, program(127), 15, ROOM)?;
    sent(out, pressure(0), 0, ROOM)?;
    sent(out, pressure(127), 15, ROOM)
}

fn bends(out: &mut impl Write) -> io::Result<()> {
    writeln!(
        out,
        "-- SPEC 8.2: kind E, a bend b has the data bytes b mod 128 and b / 128 rounded down, plus 64"
    )?;
    sent(out, bend(-8192), 0, ROOM)?;
    sent(out, bend(-2251), 0, ROOM)?;
    sent(out, bend(-129), 1, ROOM)?;
    sent(out, bend(-128), 1, ROOM)?;
    sent(out, bend(-1), 15, ROOM)?;
    sent(out, bend(0), 15, ROOM)?;
    sent(out, bend(1), 15, ROOM)?;
    sent(out, bend(127), 1, ROOM)?;
    sent(out, bend(128), 1, ROOM)?;
    sent(out, bend(2182), 0, ROOM)?;
    sent(out, bend(8191), 0, ROOM)
}

fn wrong_channels(out: &mut impl Write) -> io::Result<()> {
    writeln!(
        out,
        "-- SPEC 2.2: a channel over 15 is refused (6) before all else"
    )?;
    sent(out, note_on(69, 100), 16, ROOM)?;
    sent(out, note_on(128, 128), 255, ROOM)?;
    sent(out, bend(8192), 16, 0)
}

fn wrong_data(out: &mut impl Write) -> io::Result<()> {
    writeln!(
        out,
        "-- SPEC 2.2: a data byte over 127 is refused (8) before (10)"
    )?;
    sent(out, note_off(128, 0), 0, ROOM)?;
    sent(out, note_off(0, 128), 0, ROOM)?;
    sent(out, note_on(255, 255), 15, 0)?;
    sent(out, key_pressure(128, 0), 0, ROOM)?;
    sent(out, key_pressure(0, 128), 0, ROOM)?;
    sent(out, control(128, 0), 0, ROOM)?;
    sent(out, control(0, 128), 0, ROOM)?;
    sent(out, program(128), 0, ROOM)?;
    sent(out, pressure(255), 0, ROOM)
}

fn wrong_bends(out: &mut impl Write) -> io::Result<()> {
    writeln!(
        out,
        "-- SPEC 2.2: a bend outside -8192 to 8191 is refused (9) before (10)"
    )?;
    sent(out, bend(-8193), 0, ROOM)?;
    sent(out, bend(8192), 0, ROOM)?;
    sent(out, bend(-32768), 0, ROOM)?;
    sent(out, bend(32767), 15, 0)
}

fn short_buffers(out: &mut impl Write) -> io::Result<()> {
    writeln!(
        out,
        "-- SPEC 2.2, 1.9: a buffer shorter than the message is refused (10), and keeps its content"
    )?;
    sent(out, note_on(69, 100), 0, 0)?;
    sent(out, note_on(69, 100), 0, 2)?;
    sent(out, note_on(69, 100), 0, 3)?;
    sent(out, program(5), 0, 2)?;
    sent(out, program(5), 0, 3)?;
    sent(out, bend(0), 0, 2)?;
    sent(out, bend(0), 0, 3)
}

// Lends the first bytes of a buffer to a call, and prints what it answered and the whole buffer.
fn sent(
    out: &mut impl Write,
    message: ChannelMessageType,
    channel: u8,
    room: usize,
) -> io::Result<()>
    requires { room ≤ 4 }
{
    let mut buffer = [0xaau8; ROOM];
    let answer = message.to_raw_message(channel, &mut buffer[..room]);
    let written = Answer(answer.map(Written).map_err(Refused));
    writeln!(
        out,
        "{message:?} on channel {channel}, room {room}: {written}, buffer {}",
        Hex(&buffer)
    )
}
