// Lines of the input answered as they come, whatever pieces they come in (SPEC 10.6).

ghost use Rattle.std.specs.Prelude.{◌≡◌, ◌≤◌, [], ◌++◌, length};
ghost use Rattle.arithmetic.specs.Answers.{outcome};
ghost use Rattle.senders.specs.Buffer.{CallMeets};
ghost use Rattle.console_lines.specs.ConsoleState.{view, begun_of, clip, start, finish_rule, StepMeets};
ghost use Rattle.console_lines.specs.Internal.{longer_by, line_end_rule};

use crate::answer::{answer, opened};
use channels::Refusal;
use memchr::memchr;
use senders::jit::JitTuner;

// One byte more than the longest line, which says that a line is longer.
const MOST_HELD: usize = 65;

// The line that has begun: as much of it as decides what it means. A count over 65 is read as 65. (An `ArrayVec` would hold the same, but is not `Copy`, as the
// console is.)
#[derive(Clone, Copy)]
struct BegunLine {
    bytes: [u8; MOST_HELD],
    count: usize,
}

impl BegunLine {
    // No line has begun.
    #[tactic(auto, unfolding(crate::specs::ConsoleState::begun_of))]
    fn none() -> BegunLine
        ensures { begun_of result ≡ [] }
    {
        BegunLine {
            bytes: [0; MOST_HELD],
            count: 0,
        }
    }

    // Its bytes.
    #[tactic(auto, unfolding(crate::specs::ConsoleState::begun_of))]
    fn as_slice(&self) -> &[u8]
        ensures { result.now ≡ begun_of self.now }
    {
        &self.bytes[..self.count.min(MOST_HELD)]
    }

    // More bytes of it, as many as are kept.
    fn extend(&mut self, more: &[u8])
        ensures { begun_of self.new ≡ clip (begun_of self.old ++ more.now) }
    {
        let count = self.count.min(MOST_HELD);
        let kept = (MOST_HELD - count).min(more.len());
        self.bytes[count..count + kept].copy_from_slice(&more[..kept]);
        self.count = count + kept;
    }
}

// The tuner, and the line that has begun.
#[derive(Clone, Copy)]
pub struct Console {
    tuner: JitTuner,
    begun: BegunLine,
}

// How many bytes of a piece were used, and how many were written.
#[derive(Clone, Copy, Debug, PartialEq, Eq)]
pub struct Step {
    pub used: usize,
    pub written: usize,
}

impl Console {
    // The console before the input.
    pub fn new() -> Console
        ensures { view result ≡ start }
    {
        Console {
            tuner: opened(),
            begun: BegunLine::none(),
        }
    }

    // Answers the lines that end in a piece of the input, and keeps the line that begins behind them. Where the buffer has no room for the next
    // answer, the rest of the piece, from that line's feed on, is left for another call (SPEC 10.6a).
    pub fn step(&mut self, piece: &[u8], out: &mut [u8]) -> Step
        ensures { StepMeets (view self.old) piece.now out.old out.new (view self.new) result }
    {
        let mut used = 0;
        let mut written = 0;
        while let Some(n) = memchr(b'\n', &piece[used..]) {
            self.lengthen(&piece[used..used + n]);
            let Ok(answered) = self.end_line(&mut out[written..]) else {
                return Step {
                    used: used + n,
                    written,
                };
            };
            used += n + 1;
            written += answered;
        }
        self.lengthen(&piece[used..]);
        Step {
            used: piece.len(),
            written,
        }
    }

    // The end of the input, which ends a line that has begun (SPEC 10.2b). Refuses 10.
    pub fn finish(&mut self, out: &mut [u8]) -> Result<usize, Refusal>
        ensures { CallMeets view (finish_rule (view self.old)) self.old out.old (outcome result) self.new out.new }
    {
        if self.begun.as_slice().is_empty() {
            return Ok(0);
        }
        self.end_line(out)
    }

    // More bytes of the line that has begun, as many as are kept.
    fn lengthen(&mut self, more: &[u8])
        ensures longer { view self.new ≡ longer_by (view self.old) more.now }
        ensures small { length (view self.old).begun ≤ 65 }
    {
        self.begun.extend(more);
    }

    // Answers the line that has begun, which ends here. Refuses 10.
    fn end_line(&mut self, out: &mut [u8]) -> Result<usize, Refusal>
        ensures { CallMeets view (line_end_rule (view self.old)) self.old out.old (outcome result) self.new out.new }
    {
        let written = answer(&mut self.tuner, self.begun.as_slice(), out)?;
        self.begun = BegunLine::none();
        Ok(written)
    }
}
