// Channel messages in numbers.

ghost use Rattle.std.specs.Prelude.{◌≡◌};
ghost use Rattle.capi.specs.Message.{in_numbers, message_of};

use senders::midi::ChannelMessageType;

// A message without its channel: its kind, its data bytes and its bend. A kind that names none is read as 0 (SPEC 12.2), and what a kind has no use for is 0.
// The number of its kind stays, since the interface for C needs it.
#[repr(C)]
#[derive(Clone, Copy)]
pub struct Message {
    pub kind: u8,
    pub first: u8,
    pub second: u8,
    pub bend: i16,
}

impl From<ChannelMessageType> for Message {
    ghost from_gives = { λ meant message. message ≡ in_numbers meant };

    fn from(meant: ChannelMessageType) -> Message {
        let (kind, first, second, bend) = match meant {
            ChannelMessageType::NoteOff { key, velocity } => (0, key, velocity, 0),
            ChannelMessageType::NoteOn { key, velocity } => (1, key, velocity, 0),
            ChannelMessageType::PolyphonicKeyPressure { key, pressure } => (2, key, pressure, 0),
            ChannelMessageType::ControlChange { controller, value } => (3, controller, value, 0),
            ChannelMessageType::ProgramChange { program } => (4, program, 0, 0),
            ChannelMessageType::ChannelPressure { pressure } => (5, pressure, 0, 0),
            ChannelMessageType::PitchBendChange { value } => (6, 0, 0, value),
        };
        Message {
            kind,
            first,
            second,
            bend,
        }
    }
}

impl From<Message> for ChannelMessageType {
    ghost from_gives = { λ message meant. meant ≡ message_of message };

    fn from(message: Message) -> ChannelMessageType {
        let (first, second) = (message.first, message.second);
        match message.kind {
            1 => ChannelMessageType::NoteOn {
                key: first,
                velocity: second,
            },
            2 => ChannelMessageType::PolyphonicKeyPressure {
                key: first,
                pressure: second,
            },
            3 => ChannelMessageType::ControlChange {
                controller: first,
                value: second,
            },
            4 => ChannelMessageType::ProgramChange { program: first },
            5 => ChannelMessageType::ChannelPressure { pressure: first },
            6 => ChannelMessageType::PitchBendChange {
                value: message.bend,
            },
            _ => ChannelMessageType::NoteOff {
                key: first,
                velocity: second,
            },
        }
    }
}
