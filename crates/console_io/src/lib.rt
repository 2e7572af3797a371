// Standard input through the console to standard output (SPEC 10.7).
#![tactic(auto)]

ghost use Rattle.std.specs.Prelude.{◌≡◌, ◌≤◌, false, length, IfOk, IfErr, OnOk};
ghost use Rattle.console_io.specs.Stream.{view, Ran};
ghost use Rattle.console_io.specs.Bytes.{TurnedOver, RanOver, Finished};
ghost use Rattle.console_io.specs.Failure.{FailedAt};

use failure::{Failure, goes_on};
use std::io::{Read, Write};
use std::time::Clock;
use stream::Stream;

pub mod failure;
pub mod stream;

// The longest answer: twenty-one bytes, each with the space or the feed behind it.
const LONGEST_ANSWER: usize = 63;

// Answers the lines of `input` on `output` as they come, read into `piece` and answered from `out`, until the input ends, or a read or a write fails,
// and hands back the stream as it is then, with what failed. What arrives together is read and written together. A buffer too short for an answer, or
// for a byte of input, answers nothing. A proved loop has to end, and nothing says that the input does, so the loop has a number of turns that no run
// uses up: behind them it would fail.
pub fn run<R: Read, W: Write, C: Clock>(
    input: &mut R,
    output: &mut W,
    clock: &C,
    piece: &mut [u8],
    out: &mut [u8],
) -> (Stream, Result<(), Failure>)
    ensures ran { Ran (view result.0 piece.new out.new) }
    ensures bytes { RanOver
        (length piece.old)
        (R.remaining input.old)
        (R.remaining input.new)
        (W.contents output.old)
        (W.contents output.new)
        (view result.0 piece.new out.new) }
    ensures all { OnOk result.1 (63 ≤ length out.old → Finished (view result.0 piece.new out.new)) }
    ensures failed { IfErr result.1 (λ failure. FailedAt failure (view result.0 piece.new out.new)) }
{
    let mut stream = Stream::new();
    if out.len() < LONGEST_ANSWER {
        return (stream, Ok(()));
    }
    for _ in 0..u64::MAX {
        match turn(input, output, clock, &mut stream, piece, out) {
            Ok(true) => {}
            Ok(false) => return (stream, Ok(())),
            Err(failure) => return (stream, Err(failure)),
        }
    }
    (stream, Err(Failure::Endless))
}

// Writes what is answered; or else answers what was read; or else reads (SPEC 10.7). It answers whether there is more to do.
fn turn<R: Read, W: Write, C: Clock>(
    input: &mut R,
    output: &mut W,
    clock: &C,
    stream: &mut Stream,
    piece: &mut [u8],
    out: &mut [u8],
) -> Result<bool, Failure>
    ensures bytes { TurnedOver
        (length piece.old)
        (R.remaining input.old)
        (R.remaining input.new)
        (W.contents output.old)
        (W.contents output.new)
        (view stream.old piece.old out.old)
        (view stream.new piece.new out.new) }
    ensures all { IfOk result (λ more. more ≡ false → Finished (view stream.new piece.new out.new)) }
    ensures failed { IfErr result (λ failure. FailedAt failure (view stream.new piece.new out.new)) }
{
    let unwritten = stream.unwritten(out);
    if !unwritten.is_empty() {
        let put = output.write(unwritten);
        stream.wrote(put.ok(), out);
        goes_on(clock, put).map_err(|e| Failure::Output(e))?;
        return Ok(true);
    }
    if !stream.unanswered(piece).is_empty() {
        stream.answer(piece, out);
        return Ok(true);
    }
    let ended = stream.has_ended();
    if ended {
        return Ok(false);
    }
    let got = input.read(piece);
    stream.read(got.ok(), piece, out);
    goes_on(clock, got).map_err(|e| Failure::Input(e))?;
    Ok(true)
}
