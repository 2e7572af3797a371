// The messages that tune a channel: the four controllers of a fine tuning, or a bend (SPEC 8.3).

ghost use Rattle.std.specs.Prelude.{◌≡◌};
ghost use Rattle.arithmetic.specs.Answers.{outcome, outcome_by};
ghost use Rattle.channels.specs.TuningValue.{tuning_rule};
ghost use Rattle.channels.specs.declared.tuning_value.TuningKind.{TuningKind};
ghost use Rattle.senders.specs.Buffer.{WriteMeets};
ghost use Rattle.senders.specs.Message.{control};
ghost use Rattle.senders.specs.Midi.{bytes};
ghost use Rattle.senders.specs.Mts.{tuning_size, tuning_bytes, channel_tuning_rule};

use crate::data_byte::DataByte;
use crate::midi::ChannelMessageType;
use crate::outgoing::send;
use crate::record::{Kind, RECORD_LEN, Record};
use arrayvec::ArrayVec;
use channels::channel::Channel;
use channels::tuning_value::{Tuning, TuningKind, tuning_of};
use channels::{Ratio, Refusal};

// The controllers that choose a registered parameter and set its value.
const RPN_MSB: DataByte = DataByte { number: 0x65 };

const RPN_LSB: DataByte = DataByte { number: 0x64 };

const DATA_ENTRY_MSB: DataByte = DataByte { number: 0x06 };

const DATA_ENTRY_LSB: DataByte = DataByte { number: 0x26 };

// The registered parameter of a channel's fine tuning.
const CHANNEL_FINE_TUNING_MSB: DataByte = DataByte { number: 0x00 };

const CHANNEL_FINE_TUNING_LSB: DataByte = DataByte { number: 0x01 };

// A fine tuning is longer than a bend.
pub const LONGEST_TUNING: usize = 4 * RECORD_LEN;

// The next two functions differ in a constant alone: their names are the Rust's, which stay.

// Writes the fine tuning of a channel by a detuning to the buffer's start. Refuses 6, 2, 10 (SPEC 8.5).
// Example: channel_fine_tuning(0, 33/32, 12 bytes) is B0 65 00 B0 64 01 B0 06 62 B0 26 0C
pub fn channel_fine_tuning(channel: u8, detuning: Ratio, out: &mut [u8]) -> Result<usize, Refusal>
    ensures { WriteMeets (channel_tuning_rule TuningKind.FineTuning channel detuning.float_value) out.old (outcome result) out.new }
{
    channel_tuning(TuningKind::FineTuning, channel, detuning, out)
}

// Writes the bend of a channel by a detuning to the buffer's start. Refuses 6, 2, 10 (SPEC 8.5).
// Example: channel_pitch_bend(0, 33/32, 3 bytes) is E0 06 51
pub fn channel_pitch_bend(channel: u8, detuning: Ratio, out: &mut [u8]) -> Result<usize, Refusal>
    ensures { WriteMeets (channel_tuning_rule TuningKind.Bend channel detuning.float_value) out.old (outcome result) out.new }
{
    channel_tuning(TuningKind::Bend, channel, detuning, out)
}

// Writes the tuning of a channel by a detuning, of either kind, to the buffer's start. Refuses 6, 2, 10 (SPEC 8.5).
pub fn channel_tuning(
    tuning_kind: TuningKind,
    channel: u8,
    detuning: Ratio,
    out: &mut [u8],
) -> Result<usize, Refusal>
    ensures { WriteMeets (channel_tuning_rule tuning_kind channel detuning.float_value) out.old (outcome result) out.new }
{
    let channel = Channel::try_from(channel)?;
    let bytes = tuning_bytes(tuning_kind, channel, detuning)?;
    send(bytes.as_slice(), out)
}

// How many bytes a tuning of a kind takes, on any channel and by any detuning.
#[tactic(auto, unfolding(crate::specs::Mts::tuning_size, channels::specs::TuningValue::tuning_of))]
pub fn channel_tuning_len(tuning_kind: TuningKind) -> usize
    ensures { result ≡ tuning_size tuning_kind }
{
    match tuning_kind {
        TuningKind::FineTuning => 4 * RECORD_LEN,
        TuningKind::Bend => RECORD_LEN,
    }
}

// The bytes of the tuning of a channel by a detuning. Refuses 2 (SPEC 5.3).
pub fn tuning_bytes(
    tuning_kind: TuningKind,
    channel: Channel,
    detuning: Ratio,
) -> Result<ArrayVec<u8, LONGEST_TUNING>, Refusal>
    ensures { outcome_by (λ b. b.items) result ≡ tuning_bytes channel.number (tuning_rule tuning_kind detuning.float_value) }
{
    let mut bytes = ArrayVec::new();
    match tuning_of(tuning_kind, detuning)? {
        Tuning::Fine(value) => {
            let msb = DataByte::lowest_of(value / 128);
            let lsb = DataByte::lowest_of(value);
            let messages = [
                control(channel, RPN_MSB, CHANNEL_FINE_TUNING_MSB),
                control(channel, RPN_LSB, CHANNEL_FINE_TUNING_LSB),
                control(channel, DATA_ENTRY_MSB, msb),
                control(channel, DATA_ENTRY_LSB, lsb),
            ];
            bytes
                .try_extend_from_slice(messages.as_flattened())
                .unwrap();
        }
        Tuning::Bend(value) => {
            let bend = ChannelMessageType::PitchBendChange { value }.check()?;
            bytes.try_extend_from_slice(&bend.on(channel)).unwrap();
        }
    }
    Ok(bytes)
}

// A control change on a channel.
fn control(channel: Channel, controller: DataByte, value: DataByte) -> [u8; RECORD_LEN]
    ensures { result ≡ bytes (control channel.number controller.number value.number) }
{
    let record = Record {
        kind: Kind::ControlChange,
        first: controller,
        second: value,
    };
    record.on(channel)
}
