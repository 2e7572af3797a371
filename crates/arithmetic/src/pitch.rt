// Pitches, the ratios between them, and the measure of a ratio.

ghost use Rattle.std.specs.Prelude.{◌≡◌, false, ◌^◌, ◌<◌, pos, ◌-ℤ◌};
ghost use Rattle.std.specs.Float.{fin, binary64};
ghost use Rattle.std.specs.Float.Ieee.{div};
ghost use Rattle.arithmetic.specs.Pitch.{is_pitch, negligible};
ghost use Rattle.arithmetic.specs.Measure.{digits, measure, measure_rule};
ghost use Rattle.arithmetic.specs.Outcome.{value};
ghost use Rattle.arithmetic.specs.Answers.{outcome, outcome_by};
ghost use Rattle.arithmetic.specs.Internal.{range_rule, Writes, WritesOut};

use crate::refusal::Refusal;

// A pitch in Hz. It holds any f64; what needs one from 2^-20 to 2^40 refuses (1) others (SPEC 4.6).
#[derive(Clone, Copy, PartialEq, PartialOrd)]
pub struct Pitch {
    hz: f64,
}

const LOWEST_PITCH: Pitch = Pitch {
    hz: 9.5367431640625e-7,
};

const HIGHEST_PITCH: Pitch = Pitch {
    hz: 1099511627776.0,
};

impl Pitch {
    pub fn from_hz(hz: f64) -> Pitch
        ensures { result.hz ≡ hz }
    {
        Pitch { hz }
    }

    pub fn as_hz(self) -> f64
        ensures { result ≡ self.hz }
    {
        self.hz
    }

    // Whether it lies from 2^-20 to 2^40 Hz (SPEC 1.2).
    pub fn is_in_range(self) -> bool
        ensures { result ≡ is_pitch self.hz }
    {
        LOWEST_PITCH <= self && self <= HIGHEST_PITCH
    }

    // The pitch, if it is in range. Refuses 1 (SPEC 1.2).
    pub(crate) fn in_range(self) -> Result<Pitch, Refusal>
        ensures { outcome_by (λ pitch. pitch.hz) result ≡ range_rule self.hz }
    {
        if self.is_in_range() {
            return Ok(self);
        }
        Err(Refusal::PitchOutOfRange)
    }
}

// A ratio of two pitches, 1 for equal ones. It holds any f64 (SPEC 4.6).
#[derive(Clone, Copy, PartialEq, PartialOrd)]
pub struct Ratio {
    float_value: f64,
}

// The nearest f64 of 0.999999 and 1.000001 (SPEC 1.8).
const NEGLIGIBLE_FROM: Ratio = Ratio {
    float_value: 0.999999,
};

const NEGLIGIBLE_BELOW: Ratio = Ratio {
    float_value: 1.000001,
};

// A positive finite number from 2^(octave - 1074) on and below twice that, with its first 32 digits in base 2.
#[derive(Clone, Copy)]
pub(crate) struct Binary {
    pub octave: u64,
    pub first: u64,
}

impl Ratio {
    pub fn from_float(float_value: f64) -> Ratio
        ensures { result.float_value ≡ float_value }
    {
        Ratio { float_value }
    }

    // The second pitch over the first, rounded once.
    // Example: Ratio::between_pitches(440 Hz, 660 Hz) is 1.5
    pub fn between_pitches(pitch_a: Pitch, pitch_b: Pitch) -> Ratio
        ensures { result.float_value ≡ div binary64 pitch_b.hz pitch_a.hz }
    {
        Ratio {
            float_value: pitch_b.hz / pitch_a.hz,
        }
    }

    // This ratio over a reference, rounded once.
    pub fn deviation_from(self, reference: Ratio) -> Ratio
        ensures { result.float_value ≡ div binary64 self.float_value reference.float_value }
    {
        Ratio {
            float_value: self.float_value / reference.float_value,
        }
    }

    pub fn as_float(self) -> f64
        ensures { result ≡ self.float_value }
    {
        self.float_value
    }

    // At least 0.999999 and less than 1.000001: too close to 1 to be heard (SPEC 4.5).
    // Example: Ratio::from_float(1.0000005).is_negligible() is yes
    pub fn is_negligible(self) -> bool
        ensures { result ≡ negligible self.float_value }
    {
        NEGLIGIBLE_FROM <= self && self < NEGLIGIBLE_BELOW
    }

    // The measure: the base-2 logarithm in steps of 2^-24, truncated. Refuses 2 a ratio that is not positive and finite (SPEC 4.1).
    // Example: Ratio::from_float(1.5).measure() is 9814042
    // Example: Ratio::from_float(0).measure() is refused (2)
    pub fn measure(self) -> Result<i64, Refusal>
        ensures { outcome result ≡ measure_rule self.float_value }
    {
        let Some(binary) = self.binary() else {
            return Err(Refusal::NotMeasurable);
        };
        // An octave has 2^24 steps, and octaves are counted from 2^-1074, the smallest positive f64.
        let level = binary.octave * 0x100_0000 + squarings(binary.first);
        Ok((level as i64) - 1074 * 0x100_0000)
    }

    // The first digits of a ratio that is positive and finite.
    pub(crate) fn binary(self) -> Option<Binary>
        ensures { Writes result (measure_rule self.float_value) }
    {
        let v = self.float_value;
        if v > 0.0 {
            let bits = v.to_bits();
            let exponent = bits / 0x10_0000_0000_0000;
            let fraction = bits % 0x10_0000_0000_0000;
            if exponent == 0 {
                return Some(first_digits(fraction, 0));
            }
            if exponent < 2047 {
                return Some(first_digits(fraction + 0x10_0000_0000_0000, exponent - 1));
            }
        }
        None
    }
}

// The first digits of m * 2^(k - 1074).
fn first_digits(m: u64, k: u64) -> Binary
    requires { (0 < m) × (m < 2 ^ 53) × (k < 2046) }
    ensures { WritesOut result (value (measure (fin false m (pos k -ℤ pos 1074)))) }
{
    let zeros = m.leading_zeros() as u64;
    let first = (m << zeros) / 0x1_0000_0000;
    Binary {
        octave: k + 63 - zeros,
        first,
    }
}

// The 24 digits of y, the first highest (SPEC 4.1).
fn squarings(y: u64) -> u64
    requires { y < 2 ^ 32 }
    ensures { result ≡ digits 24 y }
{
    let mut rest = y;
    let mut written: u64 = 0;
    for _ in 0..24u32 {
        let square = rest * rest;
        // A square has 64 binary digits where its digit is 1, else 63.
        let digit = square >> 63;
        rest = (square >> 31) >> digit;
        written = written * 2 + digit;
    }
    written
}
