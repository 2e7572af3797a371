// Values: the note nearest to a pitch, the pitch of a note, the measure of a detuning and the value in which it is sent.

ghost use Rattle.std.specs.Prelude.{◌≡◌};
ghost use Rattle.arithmetic.specs.Nearest.{nearest_rule};
ghost use Rattle.arithmetic.specs.Pitch.{pitch_rule};
ghost use Rattle.arithmetic.specs.Measure.{measure_rule};
ghost use Rattle.channels.specs.TuningValue.{tuning_rule, tuning_kind_of};
ghost use Rattle.capi.specs.Answers.{of_nearest, of_pitch, of_measure, of_tuning};

use arithmetic::pitch::{Pitch, Ratio};
use arithmetic::tuning;
use capi::answer::{Note, NotePitch, Number};
use channels::tuning_value::{TuningKind, tuning_of};

// The note nearest to a pitch in Hz, and the pitch's detuning. Refuses 1 (SPEC 4.4a).
#[unsafe(no_mangle)]
pub extern "C" fn tarvoued_nearest_note(hz: f64) -> Note
    ensures { result ≡ of_nearest (nearest_rule hz) }
{
    Note::from(tuning::find_by_pitch(Pitch::from_hz(hz)))
}

// The pitch of a note in Hz. Refuses 4 (SPEC 4.3).
#[unsafe(no_mangle)]
pub extern "C" fn tarvoued_note_pitch(note: i32) -> NotePitch
    ensures { result ≡ of_pitch (pitch_rule note) }
{
    NotePitch::from(tuning::pitch_of(note))
}

// The measure of a detuning: its logarithm to base 2 in steps of 2^-24. Refuses 2 (SPEC 4.1).
#[unsafe(no_mangle)]
pub extern "C" fn tarvoued_measure(detuning: f64) -> Number
    ensures { result ≡ of_measure (measure_rule detuning) }
{
    Number::from(Ratio::from_float(detuning).measure())
}

// The fine value or the bend in which a detuning is sent. Refuses 2 (SPEC 5).
#[unsafe(no_mangle)]
pub extern "C" fn tarvoued_tuning_value(tuning_kind: u8, detuning: f64) -> Number
    ensures { result ≡ of_tuning (tuning_rule (tuning_kind_of tuning_kind) detuning) }
{
    Number::from(tuning_of(
        TuningKind::from(u16::from(tuning_kind)),
        Ratio::from_float(detuning),
    ))
}
