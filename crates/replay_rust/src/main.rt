// Replays a stored list of questions, which the comparison's driver wrote without asking this port. What is written is held to the file `stdout`: the lines of
// the list, with a colon and its answer behind each. A line of the list is one of these, where N is a number in decimal, and commas may be left out:
//
//     nearest N mHz                                           the note nearest to a pitch in millihertz
//     values of N millionths                                  the fine value and the bend of a detuning
//     plan by GROUP, channels N                               a plan, on so many channels from 0, of the keys below it
//         key N at N mHz                                      a key of the plan: where it is found
//     pool by GROUP, mode MODE, channels N                    a pool, and what happens to it, in the lines below
//         press key N at N mHz
//         release key N
//         lookup key N
//     plan tuner by KIND, channels N                          the bytes of a plan's tuning
//         key N at N mHz, velocity N                          a key of the plan: the bytes of a press
//     pool tuner by KIND, mode MODE, channels N               the bytes of each event
//         press key N at N mHz, velocity N
//         release key N, velocity N
//         repitch key N at N mHz
//         pressure key N, value N
//         stop
//
// GROUP is Note, NoteLetter or Channel, a pool's NoteLetter or Channel; MODE is Block, Stop or Ignore; KIND is FineTuning or Bend. A blank line ends a plan,
// a pool or a tuner. What stands behind # is a remark, and is written behind the answer as it is: where the rules want another answer than the Rust's, it has
// the Rust's, and why the two differ.
// A function is given what it plays and where it writes: a struct of both would be no plainer.
#![tactic(auto)]

mod answers;
mod line;
mod models;
mod tuners;
mod words;

use crate::answers::Values;
use crate::line::Line;
use crate::models::{open_plan, open_pool, replay_plan, replay_pool};
use crate::tuners::{open_plan_tuner, open_pool_tuner, replay_plan_tuner, replay_pool_tuner};
use crate::words::{float, pitch_of};
use arithmetic::pitch::Ratio;
use arithmetic::tuning::find_by_pitch;
use channels::tuning_value::{TuningKind, tuning_of};
use printing::answers::{Answer, Code, Note};
use std::alloc::Global;
use std::io;
use std::io::{BufWriter, Write};

fn main(rt: HostRuntime) -> io::Result<()> {
    let alloc = rt.alloc();
    let text = io::read_to_string(alloc, rt.reader())?;
    let mut out = BufWriter::new(alloc, rt.stdout())?;
    for paragraph in text.trim_end().split("\n\n") {
        replay(&mut out, paragraph, alloc)?;
        writeln!(out)?;
    }
    out.flush()
}

// The lines between two blank ones, with their answers.
fn replay(out: &mut impl Write, paragraph: &str, alloc: Global) -> io::Result<()> {
    let mut lines = Vec::new(alloc);
    for text in paragraph.lines() {
        lines.push(Line::of(text, alloc)?)?;
    }
    let Some((heading, below)) = lines.split_first() else {
        return Ok(());
    };
    if let Some(model) = open_plan(&heading.words) {
        replay_plan(out, model, heading, below, alloc)
    } else if let Some(model) = open_pool(&heading.words) {
        replay_pool(out, model, heading, below)
    } else if let Some(tuner) = open_plan_tuner(&heading.words) {
        replay_plan_tuner(out, tuner, heading, below, alloc)
    } else if let Some(tuner) = open_pool_tuner(&heading.words) {
        replay_pool_tuner(out, tuner, heading, below)
    } else {
        replay_questions(out, &lines)
    }
}

// Lines of which each is a question of its own, or a remark.
fn replay_questions(out: &mut impl Write, lines: &[Line<'_>]) -> io::Result<()> {
    for line in lines {
        match *line.words {
            ["nearest", pitch, "mHz"] => line.answer(out, nearest(pitch))?,
            ["values", "of", detuning, "millionths"] => line.answer(out, values(detuning))?,
            ["#", ..] => line.copy(out)?,
            _ => line.answer(out, None::<Note>)?,
        }
    }
    Ok(())
}

fn nearest(millihertz: &str) -> Option<Answer<Note, Code>> {
    let nearest = find_by_pitch(pitch_of(millihertz)?);
    let note = nearest.map(|nearest| Note(nearest.note.number()));
    Some(Answer(note.map_err(Code)))
}

fn values(millionths: &str) -> Option<Values> {
    let detuning = Ratio::from_float(float(millionths)? / 1000000.0);
    Some(Values {
        fine: tuning_of(TuningKind::FineTuning, detuning),
        bend: tuning_of(TuningKind::Bend, detuning),
    })
}
