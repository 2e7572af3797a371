// A line of the list: what it asks, and behind # a remark.

use printing::answers::Or;
use std::alloc::{AllocError, Global};
use std::io::Write;
use std::{fmt, io};

#[derive(Drop)]
pub struct Line<'a> {
    asked: &'a str,
    remark: Option<&'a str>,
    // Of what it asks, without commas.
    pub words: Vec<&'a str>,
}

impl<'a> Line<'a> {
    pub fn of(text: &'a str, alloc: Global) -> Result<Line<'a>, AllocError> {
        let (asked, remark) = match text.split_once(" #") {
            Some((asked, remark)) => (asked, Some(remark)),
            None => (text, None),
        };
        let words = asked
            .split_whitespace()
            .map(|word| word.trim_end_matches(','))
            .collect(alloc)?;
        Ok(Line {
            asked,
            remark,
            words,
        })
    }

    // Writes a line that has no answer.
    pub fn copy(&self, out: &mut impl Write) -> io::Result<()> {
        write!(out, "{}", self.asked)?;
        self.end(out)
    }

    // Writes the line with its answer. Nothing is the answer to a line that no list has.
    pub fn answer<T: fmt::Display + Drop>(
        &self,
        out: &mut impl Write,
        answer: Option<T>,
    ) -> io::Result<()> {
        write!(out, "{}: {}", self.asked, Or(answer, "not understood"))?;
        self.end(out)
    }

    fn end(&self, out: &mut impl Write) -> io::Result<()> {
        match self.remark {
            Some(remark) => writeln!(out, " #{remark}"),
            None => writeln!(out),
        }
    }
}
