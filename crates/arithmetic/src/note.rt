// Notes: whole numbers from -300 to 500, of which 69 is A4. A function of a number takes any and refuses (4) one that is no note (SPEC 3.1).

ghost use Rattle.std.specs.Prelude.{◌≡◌, true};
ghost use Rattle.arithmetic.specs.Note.{is_note, letter_of, midi_number, note_rule, letter_rule, octave_rule, plus_rule, before_rule, midi_rule};
ghost use Rattle.arithmetic.specs.Answers.{optional, outcome, outcome_by};

use crate::refusal::Refusal;

pub const LOWEST_NOTE: i32 = -300;

pub const HIGHEST_NOTE: i32 = 500;

// MIDI's numbers go from 0.
const HIGHEST_MIDI_NUMBER: i32 = 127;

pub const A4: i32 = 69;

// A number that is a note (SPEC 1.3).
#[derive(Clone, Copy)]
pub struct Note {
    pub(crate) number: i32,
    ghost is_note: { is_note number ≡ true },
}

impl Note {
    pub fn number(self) -> i32
        ensures { result ≡ self.number }
    {
        self.number
    }

    // The letter, 0 (C) to 11 (SPEC 1.4).
    pub fn letter(self) -> u8
        ensures { result ≡ letter_of self.number }
    {
        self.number.rem_euclid(12) as u8
    }
}

impl TryFrom<i32> for Note {
    type Error = Refusal;

    // The note of a number. Refuses 4 a number that is none (SPEC 1.3).
    ghost try_from_gives = { λ number r. outcome_by (λ n. n.number) r ≡ note_rule number };

    fn try_from(number: i32) -> Result<Note, Refusal> {
        if is_note(number) {
            return Ok(Note { number });
        }
        Err(Refusal::NoteOutOfRange)
    }
}

// Whether a number is a note (SPEC 1.3).
pub fn is_note(number: i32) -> bool
    ensures { result ≡ is_note number }
{
    LOWEST_NOTE <= number && number <= HIGHEST_NOTE
}

// The letter: the remainder by 12. Refuses 4 (SPEC 1.4).
// Example: letter(69) is 9
pub fn letter(note: i32) -> Result<u8, Refusal>
    ensures { outcome result ≡ letter_rule note }
{
    let note = Note::try_from(note)?;
    Ok(note.letter())
}

// The octave: the quotient by 12, rounded down, minus 1. Refuses 4 (SPEC 1.4a).
// Example: octave(-1) is -2
pub fn octave(note: i32) -> Result<i32, Refusal>
    ensures { outcome result ≡ octave_rule note }
{
    let note = Note::try_from(note)?;
    Ok(note.number.div_euclid(12) - 1)
}

// The note so many semitones higher, for any step. Refuses 4: the note, or the sum (SPEC 3.2).
// Example: plus_semitones(69, 12) is note 81
// Example: plus_semitones(69, 432) is refused (4)
pub fn plus_semitones(note: i32, num_semitones: i32) -> Result<i32, Refusal>
    ensures { outcome result ≡ plus_rule note num_semitones }
{
    let note = Note::try_from(note)?;
    // A sum that no i32 holds is clamped, and is no note either.
    let sum = Note::try_from(note.number.saturating_add(num_semitones))?;
    Ok(sum.number)
}

// How many semitones the note lies before the other one. Refuses 4: the note, or the other (SPEC 3.2a).
// Example: num_semitones_before(60, 67) is 7 semitones
pub fn num_semitones_before(note: i32, other: i32) -> Result<i32, Refusal>
    ensures { outcome result ≡ before_rule note other }
{
    let note = Note::try_from(note)?;
    let other = Note::try_from(other)?;
    Ok(other.number - note.number)
}

// The number that MIDI has for the note, if it has one: 0 to 127. Refuses 4 (SPEC 3.3).
// Example: checked_midi_number(128) is none
pub fn checked_midi_number(note: i32) -> Result<Option<u8>, Refusal>
    ensures { outcome_by optional result ≡ midi_rule note }
{
    let note = Note::try_from(note)?;
    Ok(midi_number(note.number))
}

// The number that MIDI has for a note, if it has one. Any number may be asked (SPEC 1.3a).
pub fn midi_number(note: i32) -> Option<u8>
    ensures { optional result ≡ midi_number note }
{
    if 0 <= note && note <= HIGHEST_MIDI_NUMBER {
        return Some(note as u8);
    }
    None
}
