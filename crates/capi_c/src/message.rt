// Channel messages: a function that makes each of the seven kinds, and one that writes them; and the messages that tune a channel.

ghost use Rattle.std.specs.Prelude.{◌≡◌};
ghost use Rattle.channels.specs.TuningValue.{tuning_kind_of};
ghost use Rattle.senders.specs.Midi.{message_rule};
ghost use Rattle.senders.specs.Mts.{channel_tuning_rule};
ghost use Rattle.capi.specs.Message.{message_of};
ghost use Rattle.capi.specs.Entry.{EntryWrites};

use capi::answer::Answer;
use capi::message::Message;
use channels::Ratio;
use channels::tuning_value::TuningKind;
use senders::midi::ChannelMessageType;

#[unsafe(no_mangle)]
pub extern "C" fn tarvoued_message_note_off(key: u8, velocity: u8) -> Message
    ensures { message_of result ≡ ChannelMessageType.NoteOff key velocity }
{
    Message::from(ChannelMessageType::NoteOff { key, velocity })
}

#[unsafe(no_mangle)]
pub extern "C" fn tarvoued_message_note_on(key: u8, velocity: u8) -> Message
    ensures { message_of result ≡ ChannelMessageType.NoteOn key velocity }
{
    Message::from(ChannelMessageType::NoteOn { key, velocity })
}

#[unsafe(no_mangle)]
pub extern "C" fn tarvoued_message_polyphonic_key_pressure(key: u8, pressure: u8) -> Message
    ensures { message_of result ≡ ChannelMessageType.PolyphonicKeyPressure key pressure }
{
    Message::from(ChannelMessageType::PolyphonicKeyPressure { key, pressure })
}

#[unsafe(no_mangle)]
pub extern "C" fn tarvoued_message_control_change(controller: u8, value: u8) -> Message
    ensures { message_of result ≡ ChannelMessageType.ControlChange controller value }
{
    Message::from(ChannelMessageType::ControlChange { controller, value })
}

#[unsafe(no_mangle)]
pub extern "C" fn tarvoued_message_program_change(program: u8) -> Message
    ensures { message_of result ≡ ChannelMessageType.ProgramChange program }
{
    Message::from(ChannelMessageType::ProgramChange { program })
}

#[unsafe(no_mangle)]
pub extern "C" fn tarvoued_message_channel_pressure(pressure: u8) -> Message
    ensures { message_of result ≡ ChannelMessageType.ChannelPressure pressure }
{
    Message::from(ChannelMessageType::ChannelPressure { pressure })
}

#[unsafe(no_mangle)]
pub extern "C" fn tarvoued_message_pitch_bend_change(value: i16) -> Message
    ensures { message_of result ≡ ChannelMessageType.PitchBendChange value }
{
    Message::from(ChannelMessageType::PitchBendChange { value })
}

// Writes a message on a MIDI channel. Refuses 6, 8 from the left, 9, 10 (SPEC 8.4).
#[unsafe(no_mangle)]
pub extern "C" fn tarvoued_message_write(channel: u8, message: Message, out: &mut [u8]) -> Answer
    ensures { EntryWrites (message_rule channel (message_of message)) out.old result out.new }
{
    Answer::from(ChannelMessageType::from(message).to_raw_message(channel, out))
}

// Writes the tuning of a MIDI channel by a detuning. Refuses 6, 2, 10 (SPEC 8.5).
#[unsafe(no_mangle)]
pub extern "C" fn tarvoued_channel_tuning(
    tuning_kind: u8,
    channel: u8,
    detuning: f64,
    out: &mut [u8],
) -> Answer
    ensures { EntryWrites (channel_tuning_rule (tuning_kind_of tuning_kind) channel detuning) out.old result out.new }
{
    let ratio = Ratio::from_float(detuning);
    Answer::from(senders::mts::channel_tuning(
        TuningKind::from(u16::from(tuning_kind)),
        channel,
        ratio,
        out,
    ))
}
