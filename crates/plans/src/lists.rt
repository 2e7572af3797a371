// The lists of a tuning: keys with their notes and detunings, or with their pitches. Line i is entry i of each (SPEC 6.1a).

ghost use Rattle.std.specs.Prelude.{Bool, List, ◌≡◌, T};
ghost use Rattle.std.specs.Float.Ieee.Positive.{positive};
ghost use Rattle.arithmetic.specs.Outcome.{Outcome};
ghost use Rattle.plans.specs.PlanLine.{PlanLine};
ghost use Rattle.plans.specs.PlanLists.{is_planned};
ghost use Rattle.plans.specs.Entries.{entry_of};
ghost use Rattle.arithmetic.specs.Answers.{outcome};

use arithmetic::note::Note;
use arithmetic::pitch::Pitch;
use arithmetic::refusal::Refusal;
use arithmetic::tuning::find_by_pitch;

// A key, its note, and its detuning: the pitch that it wants divided by the note's.
#[derive(Clone, Copy)]
pub struct KeyTuning {
    pub key: u8,
    pub note: Note,
    pub detuning: f64,
    ghost above_zero: { T (positive detuning) },
}

// Lists of keys and what each is to sound.
pub trait TuningLists {
    ghost use Rattle.std.specs.Prelude.{get_or, [], length};
    ghost use Rattle.arithmetic.specs.Outcome.{value, refused, refuse◌unless◌then◌};
    ghost use Rattle.arithmetic.specs.Refusal.{lists_unequal};
    ghost use Rattle.arithmetic.specs.Answers.{outcome_by};
    ghost use Rattle.plans.specs.PlanLists.{line_by_line};
    ghost use Rattle.plans.specs.KeyLine.{key_line};

    // The lines, or the first refusal.
    ghost lines: { Self → Outcome (List PlanLine) };

    // Whether the lists have as many entries, each.
    ghost equally_long: { Self → Bool };

    // Each line by itself.
    ghost rows: { Self → List (Outcome PlanLine) };

    // How many lines there are. Refuses 12.
    fn len(&self) -> Result<usize, Refusal>
        ensures { outcome result ≡ (refuse lists_unequal unless equally_long self.now then value (length (rows self.now))) };

    // Line i by itself. Refuses 12 where a list has no entry i.
    fn line(&self, i: usize) -> Result<KeyTuning, Refusal>
        ensures { outcome_by key_line result ≡ get_or (rows self.now) i (refused lists_unequal) };

    ghost lines_are: { (s : Self) → lines s ≡ (refuse lists_unequal unless equally_long s then line_by_line [] (rows s)) };
}

// Keys with their notes and detunings. Refuses 12, then line by line 4, 3, 5 (SPEC 6.1b). They are no slice of lines: callers may lend unequally many, which
// is refusal 12.
#[derive(Clone, Copy)]
pub struct NoteLists<'a> {
    pub keys: &'a [u8],
    pub notes: &'a [i32],
    pub detunings: &'a [f64],
}

impl<'a> TuningLists for NoteLists<'a> {
    ghost use Rattle.std.specs.Prelude.{eqb, ◌&&◌, length};
    ghost use Rattle.std.proofs.Common.{refl};
    ghost use Rattle.plans.specs.PlanLists.{note_lines, note_lists};

    ghost lines = { λ s. note_lists s.keys.now s.notes.now s.detunings.now };

    ghost equally_long = { λ s. eqb (length s.notes.now) (length s.keys.now) && eqb (length s.detunings.now) (length s.keys.now) };

    ghost rows = { λ s. note_lines s.keys.now s.notes.now s.detunings.now };

    ghost lines_are = { λ s. unfold note_lists in refl };

    #[tactic(auto, using(crate::proofs::Lines::Check::notes_counted))]
    fn len(&self) -> Result<usize, Refusal> {
        let len = self.keys.len();
        let equal = self.notes.len() == len && self.detunings.len() == len;
        if equal {
            Ok(len)
        } else {
            Err(Refusal::ListsUnequal)
        }
    }

    #[tactic(auto, using(arithmetic::proofs::Rules::Outcomes::hands_on_by, crate::proofs::Lines::Check::note_row))]
    fn line(&self, i: usize) -> Result<KeyTuning, Refusal> {
        let key = entry(self.keys, i)?;
        let number = entry(self.notes, i)?;
        let detuning = entry(self.detunings, i)?;
        let note = Note::try_from(number)?;
        if !is_planned(detuning) {
            return Err(Refusal::DetuningOutOfRange);
        }
        Ok(KeyTuning {
            key,
            note,
            detuning,
        })
    }
}

// Keys with their pitches in Hz: each has the nearest note. Refuses 12, then line by line 1, 5 (SPEC 6.1b). They are two slices for the same reason.
#[derive(Clone, Copy)]
pub struct PitchLists<'a> {
    pub keys: &'a [u8],
    pub pitches: &'a [f64],
}

impl<'a> TuningLists for PitchLists<'a> {
    ghost use Rattle.std.specs.Prelude.{eqb, length};
    ghost use Rattle.std.proofs.Common.{refl};
    ghost use Rattle.plans.specs.PlanLists.{pitch_lines, pitch_lists};

    ghost lines = { λ s. pitch_lists s.keys.now s.pitches.now };

    ghost equally_long = { λ s. eqb (length s.pitches.now) (length s.keys.now) };

    ghost rows = { λ s. pitch_lines s.keys.now s.pitches.now };

    ghost lines_are = { λ s. unfold pitch_lists in refl };

    #[tactic(auto, using(crate::proofs::Lines::Check::pitches_counted))]
    fn len(&self) -> Result<usize, Refusal> {
        let len = self.keys.len();
        let equal = self.pitches.len() == len;
        if equal {
            Ok(len)
        } else {
            Err(Refusal::ListsUnequal)
        }
    }

    #[tactic(auto, using(arithmetic::proofs::Rules::Outcomes::hands_on_by, crate::proofs::Lines::Check::pitch_row, crate::proofs::Lines::Check::no_pitch_line, crate::proofs::Lines::Check::a_pitch_line))]
    fn line(&self, i: usize) -> Result<KeyTuning, Refusal> {
        let key = entry(self.keys, i)?;
        let hz = entry(self.pitches, i)?;
        let nearest = find_by_pitch(Pitch::from_hz(hz))?;
        Ok(KeyTuning {
            key,
            note: nearest.note,
            detuning: nearest.detuning,
        })
    }
}

// Entry i of a list. Refuses 12 where there is none.
#[tactic(auto, using(crate::proofs::Lines::Check::entry_got))]
fn entry<T: Copy>(list: &[T], i: usize) -> Result<T, Refusal>
    ensures { outcome result ≡ entry_of list.now i }
{
    list.get(i).copied().ok_or(Refusal::ListsUnequal)
}

// A detuning that can be planned: 0.5 to 2 (SPEC 6.1b).
fn is_planned(detuning: f64) -> bool
    ensures { result ≡ is_planned detuning }
{
    0.5 <= detuning && detuning <= 2.0
}
