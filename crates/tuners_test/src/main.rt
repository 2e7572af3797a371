// Plays whole passages on both tuners. Writes a line for each call, with what was asked and what it answered or sent, below the rule of docs/SPEC.md that is
// tried. Each call is made once more on a copy, with a buffer that is one byte short, or empty where the call sends nothing.
// Each press, release, lookup and stop of a pool tuner is also made by value, on a copy, and a word is written where that answers, sends or leaves another.
#![tactic(auto)]

mod plan;
mod pool;
mod shown;

use std::io;
use std::io::{BufWriter, Write};

fn main(rt: HostRuntime) -> io::Result<()> {
    let mut out = BufWriter::new(rt.alloc(), rt.stdout())?;
    writeln!(
        out,
        "-- SPEC 2.2: behind each answer stands the same call on a copy, with room for one byte less, refused (10), or for none where it sends none"
    )?;
    pool::all(&mut out)?;
    plan::all(&mut out)?;
    out.flush()
}
