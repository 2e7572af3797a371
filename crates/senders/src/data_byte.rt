// Data bytes: the bytes of a message behind its status byte.

ghost use Rattle.std.specs.Prelude.{◌≡◌, ◌<◌, ◌%◌};
ghost use Rattle.arithmetic.specs.Answers.{outcome_by};
ghost use Rattle.senders.specs.Midi.{data_rule};

use channels::Refusal;

const HIGHEST_DATA_BYTE: u8 = 127;

// A number of seven bits.
#[derive(Clone, Copy)]
pub(crate) struct DataByte {
    pub(crate) number: u8,
    ghost is_data: { number < 128 },
}

impl DataByte {
    pub(crate) const ZERO: DataByte = DataByte { number: 0 };

    // The lowest seven bits of a number.
    pub(crate) fn lowest_of(number: u16) -> DataByte
        ensures { result.number ≡ number % 128 }
    {
        DataByte {
            number: (number % 128) as u8,
        }
    }
}

impl TryFrom<u8> for DataByte {
    type Error = Refusal;

    // The data byte of a number. Refuses 8 a number over 127 (SPEC 8.1).
    ghost try_from_gives = { λ number r. outcome_by (λ b. b.number) r ≡ data_rule number };

    fn try_from(number: u8) -> Result<DataByte, Refusal> {
        if HIGHEST_DATA_BYTE < number {
            return Err(Refusal::DataByteOver127);
        }
        Ok(DataByte { number })
    }
}
