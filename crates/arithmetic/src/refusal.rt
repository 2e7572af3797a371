// Why a call is refused. Each refusal has a number, which the console shows and the interface for C returns (SPEC 2.1); `specs/Refusal.antt` has the same list.

ghost use Rattle.std.specs.Prelude.{◌≡◌};
ghost use Rattle.arithmetic.specs.Refusal.{number};

use std::error::Error;
use std::fmt;

#[derive(Clone, Copy, Debug, PartialEq, Eq)]
pub enum Refusal {
    PitchOutOfRange = 1,
    NotMeasurable = 2,
    DetuningOutOfRange = 3,
    NoteOutOfRange = 4,
    KeyTwice = 5,
    ChannelOver15 = 6,
    ChannelTwice = 7,
    DataByteOver127 = 8,
    BendOutOfRange = 9,
    BufferTooShort = 10,
    KeyHeld = 11,
    ListsUnequal = 12,
    LineMalformed = 13,
}

impl Refusal {
    // Its number (SPEC 2.1).
    pub fn number(self) -> u8
        ensures { result ≡ number self }
    {
        self as u8
    }
}

impl From<Refusal> for u8 {
    ghost from_gives = { λ refusal n. n ≡ number refusal };

    fn from(refusal: Refusal) -> u8 {
        refusal.number()
    }
}

impl fmt::Display for Refusal {
    fn fmt<W: fmt::Write>(&self, f: &mut fmt::Formatter<W>) -> fmt::Result {
        let why = match self {
            Refusal::PitchOutOfRange => "pitch out of range or no number",
            Refusal::NotMeasurable => "detuning not positive and finite",
            Refusal::DetuningOutOfRange => "planned detuning not from 0.5 to 2",
            Refusal::NoteOutOfRange => "note not from -300 to 500",
            Refusal::KeyTwice => "key twice in a list",
            Refusal::ChannelOver15 => "MIDI channel over 15",
            Refusal::ChannelTwice => "MIDI channel twice in the channel list",
            Refusal::DataByteOver127 => "data byte over 127",
            Refusal::BendOutOfRange => "bend not from -8192 to 8191",
            Refusal::BufferTooShort => "buffer shorter than the answer's bytes",
            Refusal::KeyHeld => "press of a held key",
            Refusal::ListsUnequal => "lists of unequal length",
            Refusal::LineMalformed => "malformed line",
        };
        write!(f, "{why}")
    }
}

impl Error for Refusal {}
