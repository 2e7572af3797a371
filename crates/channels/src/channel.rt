// MIDI channels: 0 to 15 (SPEC 1.6).

ghost use Rattle.std.specs.Prelude.{◌≡◌, ◌<◌};
ghost use Rattle.arithmetic.specs.Answers.{outcome_by};
ghost use Rattle.channels.specs.Channel.{channel_rule};
ghost use Rattle.channels.specs.Places.{channel_of};

use arithmetic::refusal::Refusal;

// How many there are.
pub(crate) const CHANNELS: u8 = 16;

// A number that is a channel.
#[derive(Clone, Copy, Debug, PartialEq, Eq)]
pub struct Channel {
    number: u8,
    ghost is_channel: { number < 16 },
}

impl Channel {
    // The channel that any number is read as: its remainder by 16 (SPEC 12.1).
    pub fn by_remainder(number: u8) -> Channel
        ensures { result.number ≡ channel_of number }
    {
        Channel {
            number: number % CHANNELS,
        }
    }

    pub fn number(self) -> u8
        ensures { result ≡ self.number }
    {
        self.number
    }
}

impl TryFrom<u8> for Channel {
    type Error = Refusal;

    // The channel of a number. Refuses 6 a number over 15 (SPEC 1.6).
    ghost try_from_gives = { λ number r. outcome_by (λ c. c.number) r ≡ channel_rule number };

    fn try_from(number: u8) -> Result<Channel, Refusal> {
        if number < CHANNELS {
            return Ok(Channel { number });
        }
        Err(Refusal::ChannelOver15)
    }
}
