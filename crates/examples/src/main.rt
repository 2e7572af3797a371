// The examples that stand over the engine's functions, as `// Example: QUESTION is ANSWER`. Each is asked here of the function itself, and printed as it stands
// there, without the first word; calls before the last one are separated by semicolons. `tests/doc_examples/run` compares the two.
#![tactic(auto)]

mod messages;
mod notes;
mod pitches;
mod plan_models;
mod plan_tuners;
mod pool_models;
mod pool_tuners;

use arithmetic::refusal::Refusal;
use plans::lists::NoteLists;
use printing::answers::{Answer, Refused, Sent};
use std::io::{BufWriter, Write};
use std::{fmt, io};

// Enough for each call of a tuner here.
const ROOM: usize = 16;

// Two keys for note 69, the second 33/32 higher.
const TWO_KEYS: NoteLists<'static> = NoteLists {
    keys: &[1, 2],
    notes: &[69, 69],
    detunings: &[1.0, 1.03125],
};

// What is asked, and the answer.
fn example(
    out: &mut impl Write,
    question: &str,
    answer: impl fmt::Display + Drop,
) -> io::Result<()> {
    writeln!(out, "{question} is {answer}")
}

// The same of a call that may be refused.
fn answered<T: fmt::Display + Drop>(
    out: &mut impl Write,
    question: &str,
    answer: Result<T, Refusal>,
) -> io::Result<()> {
    example(out, question, Answer(answer.map_err(Refused)))
}

// The bytes that a call wrote at the start of the buffer that was lent to it.
fn sent(buffer: &[u8], count: usize) -> Sent<'_> {
    Sent(buffer.get(..count).unwrap_or(&[]))
}

fn main(rt: HostRuntime) -> io::Result<()> {
    let mut out = BufWriter::new(rt.alloc(), rt.stdout())?;
    notes::all(&mut out)?;
    pitches::all(&mut out)?;
    plan_models::all(&mut out)?;
    pool_models::all(&mut out)?;
    messages::all(&mut out)?;
    pool_tuners::all(&mut out)?;
    plan_tuners::all(&mut out)?;
    out.flush()
}
