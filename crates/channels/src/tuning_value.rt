// The values in which a detuning is sent: fine tuning and bend (SPEC 5).

ghost use Rattle.std.specs.Prelude.{◌≡◌, ◌^◌, ◌<◌, pos, ◌≤ℤ◌};
ghost use Rattle.std.specs.Int.Signed.{mag};
ghost use Rattle.channels.specs.declared.tuning_value.TuningKind.TheVariants.{FineTuning, Bend};
ghost use Rattle.channels.specs.TuningValue.{fine_value, bend_value, tuning_rule, tuning_kind_of};
ghost use Rattle.arithmetic.specs.Answers.{outcome, outcome_by};

use arithmetic::pitch::Ratio;
use arithmetic::refusal::Refusal;

// How a tuner tunes a channel (SPEC 5.4).
#[derive(Clone, Copy, Debug, PartialEq, Eq)]
pub enum TuningKind {
    FineTuning = 0,
    Bend = 1,
}

// A number that names none is read as 0 (SPEC 12.2).
impl From<u16> for TuningKind {
    ghost from_gives = { λ number tuning_kind. tuning_kind ≡ tuning_kind_of number };

    fn from(number: u16) -> TuningKind {
        match number {
            1 => TuningKind::Bend,
            _ => TuningKind::FineTuning,
        }
    }
}

impl From<TuningKind> for u16 {
    ghost from_gives = { λ tuning_kind number. tuning_kind_of number ≡ tuning_kind };

    fn from(tuning_kind: TuningKind) -> u16 {
        tuning_kind as u16
    }
}

// A channel's tuning in the steps of its kind.
#[derive(Clone, Copy)]
pub enum Tuning {
    // 0 to 16383, centre 8192.
    Fine(u16),
    // -8192 to 8191.
    Bend(i16),
}

// Of each kind.
#[derive(Clone, Copy)]
pub struct Tunings {
    pub fine: Tuning,
    pub bend: Tuning,
}

// The tuning in which a detuning is sent. Refuses 2 (SPEC 5.3).
// Example: tuning_of(FineTuning, 33/32) is fine value 12556
// Example: tuning_of(Bend, 33/32) is bend 2182
pub fn tuning_of(tuning_kind: TuningKind, detuning: Ratio) -> Result<Tuning, Refusal>
    ensures { outcome result ≡ tuning_rule tuning_kind detuning.float_value }
{
    let tunings = tunings_of(detuning)?;
    Ok(match tuning_kind {
        TuningKind::FineTuning => tunings.fine,
        TuningKind::Bend => tunings.bend,
    })
}

// Those of both kinds, from one measure. Refuses 2 (SPEC 5.3).
pub fn tunings_of(detuning: Ratio) -> Result<Tunings, Refusal>
    ensures fine { outcome_by (λ t. t.fine) result ≡ tuning_rule FineTuning detuning.float_value }
    ensures bend { outcome_by (λ t. t.bend) result ≡ tuning_rule Bend detuning.float_value }
{
    let l = detuning.measure()?;
    Ok(Tunings {
        fine: Tuning::Fine(fine_value(l)),
        bend: Tuning::Bend(bend_value(l)),
    })
}

// 8192 + 3L / 512 rounded down, kept within 0 to 16383 (SPEC 5.1). The shift rounds down.
fn fine_value(l: i64) -> u16
    requires { mag l < 2 ^ 40 }
    ensures { result ≡ fine_value l }
{
    (8192 + ((l * 3) >> 9)).clamp(0, 16383) as u16
}

// 3L / 1024 truncated, kept within -8192 to 8191 (SPEC 5.2).
fn bend_value(l: i64) -> i16
    requires { mag l < 2 ^ 40 }
    ensures { result ≡ bend_value l }
{
    (l * 3 / 1024).clamp(-8192, 8191) as i16
}
