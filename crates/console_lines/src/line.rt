// The lines of the console program: `kind,key,millihertz,velocity` (SPEC 10.2).

ghost use Rattle.std.specs.Prelude.{◌≡◌, ◌≤◌, [], ◌∷◌, IfSome, IfNone};
ghost use Rattle.arithmetic.specs.Answers.{optional, outcome_by};
ghost use Rattle.arithmetic.specs.Outcome.{refused};
ghost use Rattle.arithmetic.specs.Refusal.{line_malformed};
ghost use Rattle.console_lines.specs.Split.{comma, split};
ghost use Rattle.console_lines.specs.Line.{meaning, parsed, kind_of, number, event_of, of_fields};
ghost use Rattle.console_lines.specs.Internal.{parsed_outcome};

use channels::Refusal;
use senders::event::EventKind;

// The bytes of the longest line (SPEC 10.2b).
const LONGEST_LINE: usize = 64;

// The most digits of a key or a velocity, and of a pitch in millihertz (SPEC 10.2a).
const BYTE_DIGITS: usize = 3;

const PITCH_DIGITS: usize = 9;

// The event of a line, whose pitch is still in millihertz.
#[derive(Clone, Copy, Debug, PartialEq, Eq)]
pub struct ParsedEvent {
    pub kind: EventKind,
    pub key: u8,
    pub millihertz: u32,
    pub velocity: u8,
}

// What a line means, which is given without its feed. Refuses 13 every line that does not have the four fields, separated by commas (SPEC 10.2).
pub fn parse(line: &[u8]) -> Result<ParsedEvent, Refusal>
    ensures { outcome_by parsed result ≡ meaning line.now }
{
    event_of(line).ok_or(Refusal::LineMalformed)
}

// The event of a line that has one.
#[tactic(auto, unfolding(crate::specs::Line::meaning, crate::specs::Line::event_of))]
fn event_of(line: &[u8]) -> Option<ParsedEvent>
    ensures { parsed_outcome result ≡ meaning line.now }
{
    if line.len() > LONGEST_LINE {
        return None;
    }
    let (kind, key, millihertz, velocity) = fields(line)?;
    let kind = kind_of(kind)?;
    let key = number(key, BYTE_DIGITS)?;
    let millihertz = number(millihertz, PITCH_DIGITS)?;
    let velocity = number(velocity, BYTE_DIGITS)?;
    let allowed = match kind {
        EventKind::Press => true,
        EventKind::Release => millihertz == 0,
        EventKind::Repitch => velocity == 0,
    };
    let event = ParsedEvent {
        kind,
        key: u8::try_from(key).ok()?,
        millihertz,
        velocity: u8::try_from(velocity).ok()?,
    };
    allowed.then_some(event)
}

// The four fields of a line that has four.
fn fields(line: &[u8]) -> Option<(&[u8], &[u8], &[u8], &[u8])>
    ensures four { IfSome result (λ f. of_fields (split comma line.now) ≡ event_of (kind_of f.0.now) (number 3 f.1.now) (number 9 f.2.now) (number 3 f.3.now)) }
    ensures others { IfNone result (of_fields (split comma line.now) ≡ refused line_malformed) }
{
    let mut fields = line.split(|&byte| byte == b',');
    let four = (
        fields.next()?,
        fields.next()?,
        fields.next()?,
        fields.next()?,
    );
    match fields.next() {
        Some(_) => None,
        None => Some(four),
    }
}

// The kind that a field names.
#[tactic(auto, unfolding(crate::specs::Line::kind_of, crate::specs::Grammar::word))]
fn kind_of(field: &[u8]) -> Option<EventKind>
    ensures { optional result ≡ kind_of field.now }
{
    if field == b"on".as_slice() {
        Some(EventKind::Press)
    } else if field == b"off".as_slice() {
        Some(EventKind::Release)
    } else if field == b"bend".as_slice() {
        Some(EventKind::Repitch)
    } else {
        None
    }
}

// The number that 1 to `places` digits spell.
#[tactic(auto, unfolding(crate::specs::Line::number))]
fn number(field: &[u8], places: usize) -> Option<u32>
    requires { places ≤ 9 }
    ensures { optional result ≡ number places field.now }
{
    if field.is_empty() || field.len() > places {
        return None;
    }
    let mut number = 0;
    for &byte in field {
        if !byte.is_ascii_digit() {
            return None;
        }
        number = number * 10 + u32::from(byte - b'0');
    }
    Some(number)
}
