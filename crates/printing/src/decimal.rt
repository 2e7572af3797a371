// An f64 in decimal.
use std::fmt;
use std::num::{f64_to_bits_with_nan, nearest_u64_to_f64, saturating_f64_to_u64};

// How many digits are written behind the point.
const DIGITS: u64 = 6;

const TWO_TO_60: f64 = 1152921504606846976.0;

const TWO_TO_64: f64 = 18446744073709551616.0;

// The bits of an f64 are a sign, 11 of the exponent and 52 of the fraction.
const SIGN: u64 = 0x8000_0000_0000_0000;

const FRACTION: u64 = 0x10_0000_0000_0000;

// How much of a number is written.
#[derive(Clone, Copy)]
pub enum Form {
    // As `Decimal`.
    CutOff,
    // The shortest decimal fraction that the number is nearest to (SPEC 1.8), and its sixteen hexadecimal digits.
    WithBits,
}

#[derive(Clone, Copy)]
pub struct Float(pub f64, pub Form);

impl fmt::Display for Float {
    fn fmt<W: fmt::Write>(&self, f: &mut fmt::Formatter<W>) -> fmt::Result {
        let Float(x, form) = *self;
        match form {
            Form::CutOff => write!(f, "{}", Decimal(x)),
            Form::WithBits if x.is_nan() => write!(f, "NaN"),
            Form::WithBits => write!(f, "{x:?} ({:016X})", x.to_bits()),
        }
    }
}

// Exact where it ends within six digits behind the point, else cut off and followed by three points. A number that is no whole number of 2^-60, or 2^64 or
// more, is written as a whole number times a power of two, which is exact.
#[derive(Clone, Copy)]
pub struct Decimal(pub f64);

impl fmt::Display for Decimal {
    fn fmt<W: fmt::Write>(&self, f: &mut fmt::Formatter<W>) -> fmt::Result {
        let Decimal(x) = *self;
        if x.is_nan() {
            return write!(f, "NaN");
        }
        if f64_to_bits_with_nan(x) < SIGN {
            return write!(f, "{}", Magnitude(x));
        }
        write!(f, "-{}", Magnitude(-x))
    }
}

// A number that is not negative.
#[derive(Clone, Copy)]
struct Magnitude(f64);

impl fmt::Display for Magnitude {
    fn fmt<W: fmt::Write>(&self, f: &mut fmt::Formatter<W>) -> fmt::Result {
        match parts_of(self.0) {
            Some((whole, 0)) => write!(f, "{whole}"),
            Some((whole, parts)) => write!(f, "{whole}.{}", Fraction(parts)),
            None => write!(f, "{}", Scaled::of(self.0)),
        }
    }
}

// The whole units of a number that is not negative, and its 2^-60ths, fewer than 2^60; nothing where it is no such number.
fn parts_of(x: f64) -> Option<(u64, u64)> {
    if x < TWO_TO_64 {
        let whole = saturating_f64_to_u64(x);
        let rest = (x - nearest_u64_to_f64(whole)) * TWO_TO_60;
        let parts = saturating_f64_to_u64(rest);
        if nearest_u64_to_f64(parts) == rest {
            return Some((whole, parts));
        }
    }
    None
}

// The digits of so many 2^-60ths, less than a whole.
#[derive(Clone, Copy)]
struct Fraction(u64);

impl fmt::Display for Fraction {
    fn fmt<W: fmt::Write>(&self, f: &mut fmt::Formatter<W>) -> fmt::Result {
        let mut rest = self.0 % 0x1000_0000_0000_0000;
        for _ in 0..DIGITS {
            if rest == 0 {
                break;
            }
            let next = rest * 10;
            write!(f, "{}", next / 0x1000_0000_0000_0000)?;
            rest = next % 0x1000_0000_0000_0000;
        }
        if 0 < rest {
            write!(f, "...")?;
        }
        Ok(())
    }
}

// A number that is not negative, as a whole number times 2^(exponent - 1075); nothing for infinity.
#[derive(Clone, Copy)]
struct Scaled(Option<(u64, u64)>);

impl Scaled {
    fn of(x: f64) -> Scaled {
        let bits = f64_to_bits_with_nan(x);
        let exponent = bits / FRACTION % 2048;
        let fraction = bits % FRACTION;
        match exponent {
            2047 => Scaled(None),
            0 => Scaled(Some((fraction, 1))),
            _ => Scaled(Some((fraction + FRACTION, exponent))),
        }
    }
}

impl fmt::Display for Scaled {
    fn fmt<W: fmt::Write>(&self, f: &mut fmt::Formatter<W>) -> fmt::Result {
        match self.0 {
            Some((whole, exponent)) => {
                if exponent < 1075 {
                    write!(f, "{whole} x 2^-{}", 1075 - exponent)
                } else {
                    write!(f, "{whole} x 2^{}", exponent - 1075)
                }
            }
            None => write!(f, "infinity"),
        }
    }
}
