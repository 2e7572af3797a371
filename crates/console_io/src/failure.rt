// Why a run ended before its input did (SPEC 10.7a).

ghost use Rattle.std.specs.Prelude.{◌≡◌, Err, IfErr, OnOk};
ghost use Rattle.console_io.specs.Failure.{Passes};

use std::error::Error;
use std::io::ErrorKind;
use std::time::{Clock, Duration};
use std::{fmt, io, thread};

// The side that failed, and how; or that no end came in more turns than a run can make.
#[derive(Clone, Copy, Debug)]
pub enum Failure {
    Input(io::Error),
    Output(io::Error),
    Endless,
}

impl fmt::Display for Failure {
    fn fmt<W: fmt::Write>(&self, f: &mut fmt::Formatter<W>) -> fmt::Result {
        match self {
            Failure::Input(e) => write!(f, "standard input: {e}"),
            Failure::Output(e) => write!(f, "standard output: {e}"),
            Failure::Endless => write!(f, "the input has no end"),
        }
    }
}

impl Error for Failure {}

// Whether the program goes on after a read or a write that answered so. One that a signal interrupted, or that can move nothing yet, is made again: the latter
// after a thousandth of a second, in which no processor time is used (SPEC 10.7a).
pub(crate) fn goes_on<C: Clock>(clock: &C, moved: io::Result<usize>) -> io::Result<()>
    ensures ok { OnOk result (IfErr moved Passes) }
    ensures err { IfErr result (λ e. (moved ≡ Err e) × (Passes e → ⊥)) }
{
    let Err(e) = moved else {
        return Ok(());
    };
    match e.kind() {
        ErrorKind::Interrupted => Ok(()),
        ErrorKind::WouldBlock => {
            thread::sleep(clock, Duration::from_millis(1));
            Ok(())
        }
        _ => Err(e),
    }
}
