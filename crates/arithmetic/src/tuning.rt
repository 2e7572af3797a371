// The usual tuning, twelve equal semitones to an octave and A4 at 440 Hz: the pitch of a note, and the note nearest to a pitch.

ghost use Rattle.std.specs.Prelude.{◌≡◌, true, ◌^◌, ◌<◌, pos, negsuc, ◌≤ℤ◌};
ghost use Rattle.arithmetic.specs.Note.{is_note};
ghost use Rattle.arithmetic.specs.Pitch.{is_pitch, octave_pitch, pitch_of, pitch_rule, detuning_of, detuning_rule};
ghost use Rattle.arithmetic.specs.Nearest.{nearest_note, nearest_rule, nearest};
ghost use Rattle.arithmetic.specs.Internal.{within, factor_to12, note_at};
ghost use Rattle.arithmetic.specs.Answers.{outcome, outcome_by};

use crate::note::{A4, Note};
use crate::pitch::{Pitch, Ratio};
use crate::refusal::Refusal;

// The note nearest to a pitch, and the ratio of the pitch to the note's.
#[derive(Clone, Copy)]
pub struct Approximation {
    pub note: Note,
    pub detuning: f64,
}

// Where a note stands: whole octaves above A4, and up to 12 semitones above that.
#[derive(Clone, Copy)]
struct Place {
    octaves: i32,
    semitones: u32,
    ghost is_note: { is_note (note_at octaves semitones) ≡ true },
    ghost few: { semitones < 13 },
}

impl Place {
    fn note(self) -> Note
        ensures { result.number ≡ note_at self.octaves self.semitones }
    {
        let number = A4 + (self.octaves * 12 + self.semitones as i32);
        Note { number }
    }

    // The pitch of A4, moved by the octaves and then by the semitones.
    fn pitch(self) -> Pitch
        ensures { result.hz ≡ pitch_of (note_at self.octaves self.semitones) }
    {
        Pitch::from_hz(octave_pitch(self.octaves) * semitone_factor(self.semitones))
    }
}

const A4_HZ: f64 = 440.0;

// Where the nearest note changes within an octave (SPEC 4.2): the least numbers of 32 binary digits whose measure, times 12, has come to the middle of two
// notes and 290 steps more, 1.000001 as a ratio. A pitch so little above the middle goes to the lower note.
static BOUNDARIES: [u64; 12] = [
    2210411945, 2341849944, 2481103554, 2628637612, 2784944615, 2950545999, 3125994551, 3311875951,
    3508810295, 3717454961, 3938506445, 4172702168,
];

// The octaves that the notes lie in, counted from A4.
const LOWEST_OCTAVE: i32 = -31;

// 440 Hz times 2^j, j from -31 to 35 (SPEC 4.3b).
static OCTAVE_PITCHES: [f64; 67] = [
    2.0489096641540527e-07,
    4.0978193283081055e-07,
    8.195638656616211e-07,
    1.6391277313232422e-06,
    3.2782554626464844e-06,
    6.556510925292969e-06,
    1.3113021850585938e-05,
    2.6226043701171875e-05,
    5.245208740234375e-05,
    0.0001049041748046875,
    0.000209808349609375,
    0.00041961669921875,
    0.0008392333984375,
    0.001678466796875,
    0.00335693359375,
    0.0067138671875,
    0.013427734375,
    0.02685546875,
    0.0537109375,
    0.107421875,
    0.21484375,
    0.4296875,
    0.859375,
    1.71875,
    3.4375,
    6.875,
    13.75,
    27.5,
    55.0,
    110.0,
    220.0,
    440.0,
    880.0,
    1760.0,
    3520.0,
    7040.0,
    14080.0,
    28160.0,
    56320.0,
    112640.0,
    225280.0,
    450560.0,
    901120.0,
    1802240.0,
    3604480.0,
    7208960.0,
    14417920.0,
    28835840.0,
    57671680.0,
    115343360.0,
    230686720.0,
    461373440.0,
    922746880.0,
    1845493760.0,
    3690987520.0,
    7381975040.0,
    14763950080.0,
    29527900160.0,
    59055800320.0,
    118111600640.0,
    236223201280.0,
    472446402560.0,
    944892805120.0,
    1889785610240.0,
    3779571220480.0,
    7559142440960.0,
    15118284881920.0,
];

// R[k]: the factors of 0 to 12 semitones (SPEC 4.3a).
static SEMITONE_FACTORS: [f64; 13] = [
    1.0,
    1.0594630943592953,
    1.122462048309373,
    1.189207115002721,
    1.2599210498948732,
    1.3348398541700344,
    1.4142135623730951,
    1.4983070768766815,
    1.5874010519681996,
    1.681792830507429,
    1.7817974362806785,
    1.887748625363387,
    2.0,
];

// The pitch of a note, in Hz. Refuses 4 (SPEC 4.3).
// Example: pitch_of(60) is 261.625565... Hz
pub fn pitch_of(note: i32) -> Result<f64, Refusal>
    ensures { outcome result ≡ pitch_rule note }
{
    let note = Note::try_from(note)?;
    Ok(note_pitch(note).as_hz())
}

// The ratio of a pitch to a note's. Refuses 1, then 4 (SPEC 4.4).
// Example: detuning(455 Hz, 69) is 1.034090...
pub fn detuning(pitch: Pitch, note: i32) -> Result<f64, Refusal>
    ensures { outcome result ≡ detuning_rule pitch.hz note }
{
    let pitch = pitch.in_range()?;
    let note = Note::try_from(note)?;
    Ok(detuning_from(pitch, note))
}

// The ratio of a pitch to a note's (SPEC 4.4).
pub fn detuning_from(pitch: Pitch, note: Note) -> f64
    ensures { result ≡ detuning_of pitch.hz note.number }
{
    Ratio::between_pitches(note_pitch(note), pitch).as_float()
}

// The nearest note, and the ratio of the pitch to its pitch. Refuses 1 (SPEC 4.4a).
// Example: find_by_pitch(455 Hz) is note 70, detuning 0.976051...
// Example: find_by_pitch(0 Hz) is refused (1)
pub fn find_by_pitch(pitch: Pitch) -> Result<Approximation, Refusal>
    ensures { outcome_by nearest result ≡ nearest_rule pitch.hz }
{
    let pitch = pitch.in_range()?;
    let place = nearest_place(pitch);
    let deviation = Ratio::between_pitches(place.pitch(), pitch);
    Ok(Approximation {
        note: place.note(),
        detuning: deviation.as_float(),
    })
}

// Where the note nearest to a pitch in range stands, by the first digits of the ratio to A4.
fn nearest_place(pitch: Pitch) -> Place
    requires { is_pitch pitch.hz ≡ true }
    ensures { note_at result.octaves result.semitones ≡ nearest_note pitch.hz }
{
    // A pitch in range over 440 Hz is positive and finite.
    let over_a4 = Ratio::between_pitches(Pitch::from_hz(A4_HZ), pitch);
    let binary = over_a4.binary().unwrap();
    // Octaves are counted from 2^-1074, the smallest positive f64.
    let octaves = (binary.octave as i32) - 1074;
    let semitones = within(binary.first);
    Place { octaves, semitones }
}

// How many semitones above the octave the nearest note is: as many as boundaries that the first digits have come to. (A `filter` that is counted takes eight
// times as long.)
fn within(first: u64) -> u32
    requires { first < 2 ^ 32 }
    ensures { result ≡ within first }
{
    BOUNDARIES
        .iter()
        .map(|boundary| u32::from(*boundary <= first))
        .sum()
}

fn note_pitch(note: Note) -> Pitch
    ensures { result.hz ≡ pitch_of note.number }
{
    // Counted from the first octave of the table, so that no number is negative. (A division that asks for the sign takes twice as long.)
    let above = (note.number - (A4 + LOWEST_OCTAVE * 12)) as u32;
    let octaves = LOWEST_OCTAVE + (above / 12) as i32;
    let semitones = above % 12;
    let place = Place { octaves, semitones };
    place.pitch()
}

// 440 Hz times 2^j.
fn octave_pitch(j: i32) -> f64
    requires { (negsuc 30 ≤ℤ j) × (j ≤ℤ pos 35) }
    ensures { result ≡ octave_pitch j }
{
    OCTAVE_PITCHES[(j - LOWEST_OCTAVE) as usize]
}

// R[k], and 2 for 12 semitones, an octave.
fn semitone_factor(k: u32) -> f64
    requires { k < 13 }
    ensures { result ≡ factor_to12 k }
{
    SEMITONE_FACTORS[k as usize]
}
