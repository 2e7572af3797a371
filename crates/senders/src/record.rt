// Messages whose data are in range, as records of three bytes.

ghost use Rattle.std.specs.Prelude.{◌≡◌};
ghost use Rattle.senders.specs.Records.{kind_number, bytes_on};

use crate::data_byte::DataByte;
use channels::channel::Channel;

pub(crate) const RECORD_LEN: usize = 3;

// The kinds of message, each by the high four bits of its status byte (SPEC 8.1).
#[derive(Clone, Copy)]
pub(crate) enum Kind {
    NoteOff = 0x8,
    NoteOn = 0x9,
    PolyphonicKeyPressure = 0xa,
    ControlChange = 0xb,
    ProgramChange = 0xc,
    ChannelPressure = 0xd,
    PitchBendChange = 0xe,
}

// A message on no channel yet.
#[derive(Clone, Copy)]
pub(crate) struct Record {
    pub(crate) kind: Kind,
    pub(crate) first: DataByte,
    pub(crate) second: DataByte,
}

impl Record {
    // Its bytes on a channel.
    pub(crate) fn on(self, channel: Channel) -> [u8; RECORD_LEN]
        ensures { result ≡ bytes_on self channel.number }
    {
        [
            self.kind as u8 * 16 + channel.number(),
            self.first.number,
            self.second.number,
        ]
    }
}
