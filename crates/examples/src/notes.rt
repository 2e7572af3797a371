// Notes, SPEC 3.
use crate::answered;
use arithmetic::note::{checked_midi_number, letter, num_semitones_before, octave, plus_semitones};
use printing::answers::{Note, Or, Semitones};
use std::io;
use std::io::Write;

pub fn all(out: &mut impl Write) -> io::Result<()> {
    answered(out, "letter(69)", letter(69))?;
    answered(out, "octave(-1)", octave(-1))?;
    let higher = plus_semitones(69, 12).map(Note);
    answered(out, "plus_semitones(69, 12)", higher)?;
    let higher = plus_semitones(69, 432).map(Note);
    answered(out, "plus_semitones(69, 432)", higher)?;
    let steps = num_semitones_before(60, 67).map(Semitones);
    answered(out, "num_semitones_before(60, 67)", steps)?;
    let number = checked_midi_number(128).map(|number| Or(number, "none"));
    answered(out, "checked_midi_number(128)", number)
}
