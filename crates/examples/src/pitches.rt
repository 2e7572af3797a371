// Pitches, ratios and what is sent of them, SPEC 4 and 5, and a channel list, SPEC 1.6.
use crate::{answered, example};
use arithmetic::pitch::{Pitch, Ratio};
use arithmetic::tuning::{detuning, find_by_pitch, pitch_of};
use channels::list::ChannelList;
use channels::tuning_value::{TuningKind, tuning_of};
use printing::answers::{Hertz, Listed, Nearest, Value};
use printing::decimal::Decimal;
use printing::decimal::Form::CutOff;
use std::io;
use std::io::Write;

pub fn all(out: &mut impl Write) -> io::Result<()> {
    ratios(out)?;
    tuning(out)?;
    let list = ChannelList::of(&[0, 1, 0]).map(Listed);
    answered(out, "ChannelList::of([0, 1, 0])", list)?;
    values(out)
}

fn ratios(out: &mut impl Write) -> io::Result<()> {
    let fifth = Ratio::between_pitches(Pitch::from_hz(440.0), Pitch::from_hz(660.0));
    example(
        out,
        "Ratio::between_pitches(440 Hz, 660 Hz)",
        Decimal(fifth.as_float()),
    )?;
    let negligible = Ratio::from_float(1.0000005).is_negligible();
    example(
        out,
        "Ratio::from_float(1.0000005).is_negligible()",
        if negligible { "yes" } else { "no" },
    )?;
    answered(
        out,
        "Ratio::from_float(1.5).measure()",
        Ratio::from_float(1.5).measure(),
    )?;
    answered(
        out,
        "Ratio::from_float(0).measure()",
        Ratio::from_float(0.0).measure(),
    )
}

fn tuning(out: &mut impl Write) -> io::Result<()> {
    let pitch = Pitch::from_hz(455.0);
    let nearest = find_by_pitch(pitch).map(|nearest| Nearest(nearest, CutOff));
    answered(
        out,
        "pitch_of(60)",
        pitch_of(60).map(|hz| Hertz(hz, CutOff)),
    )?;
    answered(
        out,
        "detuning(455 Hz, 69)",
        detuning(pitch, 69).map(Decimal),
    )?;
    answered(out, "find_by_pitch(455 Hz)", nearest)?;
    let nearest = find_by_pitch(Pitch::from_hz(0.0)).map(|nearest| Nearest(nearest, CutOff));
    answered(out, "find_by_pitch(0 Hz)", nearest)
}

fn values(out: &mut impl Write) -> io::Result<()> {
    let ratio = Ratio::from_float(1.03125);
    answered(
        out,
        "tuning_of(FineTuning, 33/32)",
        tuning_of(TuningKind::FineTuning, ratio).map(Value),
    )?;
    answered(
        out,
        "tuning_of(Bend, 33/32)",
        tuning_of(TuningKind::Bend, ratio).map(Value),
    )
}
