// Notes, pitches and the measure, with the ends of each range and every refusal. Writes a line for each call, with what was asked and what it answered, below
// the rule of docs/SPEC.md that is tried.
#![tactic(auto)]

use arithmetic::note::{checked_midi_number, letter, num_semitones_before, octave, plus_semitones};
use arithmetic::pitch::{Pitch, Ratio};
use arithmetic::tuning::{detuning, find_by_pitch, pitch_of};
use printing::answers::{Answer, Hertz, Nearest, Note, Or, Refused, Semitones};
use printing::decimal::Float;
use printing::decimal::Form::WithBits;
use std::io;
use std::io::{BufWriter, Write};

fn note(out: &mut impl Write, note: i32) -> io::Result<()> {
    let number = checked_midi_number(note).map(|number| Or(number, "none"));
    let pitch = pitch_of(note).map(|hz| Hertz(hz, WithBits));
    writeln!(
        out,
        "note {note}: letter {}, octave {}, MIDI number {}, pitch {}",
        Answer(letter(note).map_err(Refused)),
        Answer(octave(note).map_err(Refused)),
        Answer(number.map_err(Refused)),
        Answer(pitch.map_err(Refused))
    )
}

fn plus(out: &mut impl Write, note: i32, steps: i32) -> io::Result<()> {
    let sum = plus_semitones(note, steps).map(Note);
    writeln!(
        out,
        "note {note} plus {steps} semitones: {}",
        Answer(sum.map_err(Refused))
    )
}

fn before(out: &mut impl Write, note: i32, other: i32) -> io::Result<()> {
    let steps = num_semitones_before(note, other).map(Semitones);
    writeln!(
        out,
        "note {note} is before note {other} by: {}",
        Answer(steps.map_err(Refused))
    )
}

fn nearest(out: &mut impl Write, hz: f64) -> io::Result<()> {
    let nearest = find_by_pitch(Pitch::from_hz(hz)).map(|nearest| Nearest(nearest, WithBits));
    writeln!(
        out,
        "nearest note of {hz:?} Hz: {}",
        Answer(nearest.map_err(Refused))
    )
}

fn detuned(out: &mut impl Write, hz: f64, note: i32) -> io::Result<()> {
    let detuning = detuning(Pitch::from_hz(hz), note).map(|ratio| Float(ratio, WithBits));
    writeln!(
        out,
        "detuning of {hz:?} Hz for note {note}: {}",
        Answer(detuning.map_err(Refused))
    )
}

fn measure(out: &mut impl Write, ratio: f64) -> io::Result<()> {
    let measure = Ratio::from_float(ratio).measure();
    writeln!(
        out,
        "measure of {ratio:?}: {}",
        Answer(measure.map_err(Refused))
    )
}

fn negligible(out: &mut impl Write, ratio: f64) -> io::Result<()> {
    let negligible = if Ratio::from_float(ratio).is_negligible() {
        "yes"
    } else {
        "no"
    };
    writeln!(out, "negligible {ratio:?}: {negligible}")
}

// Steps from note 69 and from note -300, and the distance from note 69.
fn steps(out: &mut impl Write, steps: i32) -> io::Result<()> {
    plus(out, 69, steps)?;
    plus(out, -300, steps)?;
    before(out, 69, steps)
}

// The ends of an i32, the notes beside the ends of the range and of MIDI's numbers, and some between: note -1 is B of octave -2.
fn notes(out: &mut impl Write) -> io::Result<()> {
    writeln!(
        out,
        "-- SPEC 1.4, 3.3, 4.3: letter, octave, MIDI number and pitch of a note; 3.1: no note is refused (4)"
    )?;
    for n in [
        -2147483648,
        -301,
        -300,
        -289,
        -13,
        -12,
        -1,
        0,
        69,
        127,
        128,
        500,
        501,
        2147483647,
    ] {
        note(out, n)?;
    }
    writeln!(
        out,
        "-- SPEC 3.2: a note plus semitones, and the difference of two notes; what is no note is refused (4)"
    )?;
    for n in [-2147483648, -370, -369, -1, 0, 431, 432, 800, 2147483647] {
        steps(out, n)?;
    }
    plus(out, -301, 1)?;
    before(out, 501, 69)
}

// Examples 6 to 8, the neighbours of the range's ends, the last pitch nearest to 69 and the first to 70, and what is no pitch.
fn pitches(out: &mut impl Write, nan: f64, infinite: f64) -> io::Result<()> {
    writeln!(
        out,
        "-- SPEC 4.2, 4.4: the nearest note, and the detuning for it; 1.2: no pitch is refused (1)"
    )?;
    for hz in [
        440.0,
        455.0,
        220.0,
        9.5367431640625e-7,
        9.536743164062499e-7,
        1099511627776.0,
        1099511627776.0002,
        452.8934395872056,
        452.89343958720565,
        0.0,
        -0.0,
        -440.0,
        8.175798915643707,
        5e-324,
        1.7976931348623157e308,
        nan,
        infinite,
        -infinite,
    ] {
        nearest(out, hz)?;
    }
    Ok(())
}

// The ends of both ranges, and refusal 1 before 4.
fn detunings(out: &mut impl Write, nan: f64) -> io::Result<()> {
    writeln!(
        out,
        "-- SPEC 4.4: the detuning for a note is the pitch divided by the note's pitch; 2.2: refused (1) before (4)"
    )?;
    detuned(out, 440.0, 69)?;
    detuned(out, 440.0, 70)?;
    detuned(out, 9.5367431640625e-7, 500)?;
    detuned(out, 1099511627776.0, -300)?;
    detuned(out, 440.0, 501)?;
    detuned(out, 0.0, 501)?;
    detuned(out, nan, 69)
}

// The ratios of examples 1 to 5, the smallest and the largest values, and what has no measure.
fn ratios(out: &mut impl Write, nan: f64, infinite: f64) -> io::Result<()> {
    writeln!(
        out,
        "-- SPEC 4.1, 11.1: the measure, near 2^24 times the logarithm to base 2; not positive and finite is refused (2)"
    )?;
    for ratio in [
        1.0,
        2.0,
        0.5,
        1.03125,
        0.96875,
        1.0000000000000002,
        0.9999999999999999,
        5e-324,
        1.7976931348623157e308,
        0.0,
        -0.0,
        -1.0,
        nan,
        infinite,
        -infinite,
    ] {
        measure(out, ratio)?;
    }
    Ok(())
}

// The limits of what is negligible, and their neighbours.
fn deviations(out: &mut impl Write, nan: f64) -> io::Result<()> {
    writeln!(
        out,
        "-- SPEC 4.5: negligible from 0.999999 to below 1.000001"
    )?;
    for deviation in [
        0.9999989999999999,
        0.999999,
        1.0,
        1.0000009999999998,
        1.000001,
        1.0000010000000001,
        nan,
    ] {
        negligible(out, deviation)?;
    }
    Ok(())
}

fn main(rt: HostRuntime) -> io::Result<()> {
    let mut out = BufWriter::new(rt.alloc(), rt.stdout())?;
    let zero = 0.0;
    let nan = zero / zero;
    let infinite = 1.0 / zero;
    notes(&mut out)?;
    pitches(&mut out, nan, infinite)?;
    detunings(&mut out, nan)?;
    ratios(&mut out, nan, infinite)?;
    deviations(&mut out, nan)?;
    out.flush()
}
