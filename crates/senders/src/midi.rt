// Channel messages and their bytes.

ghost use Rattle.std.specs.Prelude.{◌≡◌};
ghost use Rattle.arithmetic.specs.Answers.{outcome, outcome_by};
ghost use Rattle.channels.specs.Outcome.{value};
ghost use Rattle.senders.specs.Buffer.{WriteMeets};
ghost use Rattle.senders.specs.Midi.{bend_low, bend_high, bytes, to_message, check_data, message_rule};
ghost use Rattle.senders.specs.Records.{bytes_on};

use crate::data_byte::DataByte;
use crate::outgoing::send;
use crate::record::{Kind, Record};
use channels::Refusal;
use channels::channel::Channel;

const LOWEST_BEND: i16 = -8192;

const HIGHEST_BEND: i16 = 8191;

// The third byte of a message that has one data byte (SPEC 8.1a).
const PADDING: u8 = 0;

// The channel-agnostic part of a channel message.
#[derive(Clone, Copy, PartialEq, Eq, Debug)]
pub enum ChannelMessageType {
    NoteOff { key: u8, velocity: u8 },
    NoteOn { key: u8, velocity: u8 },
    PolyphonicKeyPressure { key: u8, pressure: u8 },
    ControlChange { controller: u8, value: u8 },
    ProgramChange { program: u8 },
    ChannelPressure { pressure: u8 },
    // From -8192 to 8191.
    PitchBendChange { value: i16 },
}

impl ChannelMessageType {
    // Writes the message on a channel to the buffer's start, and answers how many bytes that were. Refuses 6, 8 from the left, 9, 10 (SPEC 8.4).
    // Example: NoteOn(69, 100).to_raw_message(0, 3 bytes) is 90 45 64
    // Example: NoteOn(69, 100).to_raw_message(0, 2 bytes) is refused (10)
    pub fn to_raw_message(self, channel: u8, out: &mut [u8]) -> Result<usize, Refusal>
        ensures { WriteMeets (message_rule channel self) out.old (outcome result) out.new }
    {
        let channel = Channel::try_from(channel)?;
        let record = self.check()?;
        send(&record.on(channel), out)
    }

    // The message as a record. Refuses 8 from the left, 9.
    pub(crate) fn check(self) -> Result<Record, Refusal>
        ensures { outcome_by bytes_on result ≡ check_data self (value (λ ch. bytes (to_message ch self))) }
    {
        let (kind, first, second) = match self {
            ChannelMessageType::NoteOff { key, velocity } => (Kind::NoteOff, key, velocity),
            ChannelMessageType::NoteOn { key, velocity } => (Kind::NoteOn, key, velocity),
            ChannelMessageType::PolyphonicKeyPressure { key, pressure } => (
                Kind::PolyphonicKeyPressure,
                key,
                pressure,
            ),
            ChannelMessageType::ControlChange { controller, value } => (
                Kind::ControlChange,
                controller,
                value,
            ),
            ChannelMessageType::ProgramChange { program } => (
                Kind::ProgramChange,
                program,
                PADDING,
            ),
            ChannelMessageType::ChannelPressure { pressure } => (
                Kind::ChannelPressure,
                pressure,
                PADDING,
            ),
            ChannelMessageType::PitchBendChange { value } => {
                let (low, high) = bend_bytes(value)?;
                (Kind::PitchBendChange, low, high)
            }
        };
        Ok(Record {
            kind,
            first: DataByte::try_from(first)?,
            second: DataByte::try_from(second)?,
        })
    }
}

// The low and the high seven bits of a bend, which is counted from the lowest one (SPEC 8.2). Refuses 9.
fn bend_bytes(bend: i16) -> Result<(u8, u8), Refusal>
    ensures { outcome result ≡ check_data (ChannelMessageType.PitchBendChange bend) (value (bend_low bend, bend_high bend)) }
{
    if bend < LOWEST_BEND || HIGHEST_BEND < bend {
        return Err(Refusal::BendOutOfRange);
    }
    let bits = (bend - LOWEST_BEND) as u16;
    Ok(((bits % 128) as u8, (bits / 128) as u8))
}
