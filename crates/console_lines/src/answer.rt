// The line function: a line answered by the tuner (SPEC 10).

ghost use Rattle.std.specs.Prelude.{◌≡◌};
ghost use Rattle.arithmetic.specs.Answers.{outcome};
ghost use Rattle.senders.specs.Buffer.{CallMeets};
ghost use Rattle.senders.specs.Jit.{view};
ghost use Rattle.console_lines.specs.Line.{meaning};
ghost use Rattle.console_lines.specs.Console.{opened, pitch_of, event_rule, line_rule};

use crate::line::parse;
use crate::show::{show_bytes, show_refusal};
use channels::tuning_value::TuningKind;
use channels::{Pitch, Refusal};
use pools::jit::{PoolingMode, Retrigger};
use senders::event::Event;
use senders::jit::JitTuner;

// The most bytes that a tuner sends for one event: the note-off of a key that is released first, that of a stopped note, a fine tuning of four messages, a
// note-on.
const MOST_BYTES: usize = 21;

// The shortest answer: a line that says that nothing was sent.
const LEAST_ANSWER: usize = 2;

// The tuner of the console: channels 0 and 1, fine tuning, Stop, no retrigger (SPEC 10.1).
#[tactic(auto, unfolding(crate::specs::Console::opened))]
pub fn opened() -> JitTuner
    ensures { view result ≡ opened }
{
    let (tuner, _) = JitTuner::start(
        &[0, 1],
        TuningKind::FineTuning,
        PoolingMode::Stop,
        Retrigger::Off,
    );
    tuner
}

// A line, given without its feed, is answered by a line (SPEC 10.4). Refuses 10; every other refusal is shown in the answer. The tuner is lent room for as many
// bytes as the answer has room to show, three characters each, so that it refuses (10) before it changes where the answer would not fit.
pub fn answer(tuner: &mut JitTuner, line: &[u8], out: &mut [u8]) -> Result<usize, Refusal>
    ensures { CallMeets view (line_rule (view tuner.old) line.now) tuner.old out.old (outcome result) tuner.new out.new }
{
    if out.len() < LEAST_ANSWER {
        return Err(Refusal::BufferTooShort);
    }
    let room = (out.len() / 3).min(MOST_BYTES);
    let mut bytes = [0; MOST_BYTES];
    match play_line(tuner, line, &mut bytes[..room]) {
        Ok(sent) => show_bytes(&bytes[..sent], out),
        Err(Refusal::BufferTooShort) => Err(Refusal::BufferTooShort),
        Err(refusal) => show_refusal(refusal, out),
    }
}

// A line's event played: how many bytes were sent, none for a rejected press. Refuses 13 a malformed line before the tuner hears of it (SPEC 10.2c).
fn play_line(tuner: &mut JitTuner, line: &[u8], out: &mut [u8]) -> Result<usize, Refusal>
    ensures { CallMeets view (event_rule (view tuner.old) (meaning line.now)) tuner.old out.old (outcome result) tuner.new out.new }
{
    let parsed = parse(line)?;
    let event = Event {
        kind: parsed.kind,
        key: parsed.key,
        pitch: pitch_of(parsed.millihertz),
        velocity: parsed.velocity,
    };
    Ok(tuner.play(event, out)?.len())
}

// A pitch in Hz: millihertz as f64, divided by 1000 (SPEC 10.3a).
fn pitch_of(millihertz: u32) -> Pitch
    ensures { result.hz ≡ pitch_of millihertz }
{
    Pitch::from_hz(millihertz as f64 / 1000.0)
}
