// The answer lines of the console program, each with its feed, written into a lent buffer (SPEC 10.4).

ghost use Rattle.std.specs.Prelude.{◌≡◌, ◌<◌};
ghost use Rattle.arithmetic.specs.Refusal.{number};
ghost use Rattle.arithmetic.specs.Answers.{outcome};
ghost use Rattle.senders.specs.Buffer.{WriteMeets, sent};
ghost use Rattle.console_lines.specs.Show.{bytes_line, refusal_line, hex_digit};

use channels::Refusal;
use senders::outgoing::send;

// The line of bytes that are sent, each shown by two digits and what separates it from the next, or the feed. Refuses 10.
pub(crate) fn show_bytes(bytes: &[u8], out: &mut [u8]) -> Result<usize, Refusal>
    ensures { WriteMeets (sent (bytes_line bytes.now)) out.old (outcome result) out.new }
{
    if bytes.is_empty() {
        return send(b"-\n", out);
    }
    if out.len() / 3 < bytes.len() {
        return Err(Refusal::BufferTooShort);
    }
    // The place behind the last byte shown, which is what is answered.
    let mut end = 0;
    for &byte in bytes {
        let shown = [hex_digit(byte / 16), hex_digit(byte % 16), b' '];
        out[end..end + 3].copy_from_slice(&shown);
        end += 3;
    }
    out[end - 1] = b'\n';
    Ok(end)
}

// The line of a refusal, whose number has one digit or two. Refuses 10.
pub(crate) fn show_refusal(refusal: Refusal, out: &mut [u8]) -> Result<usize, Refusal>
    ensures { WriteMeets (sent (refusal_line (number refusal))) out.old (outcome result) out.new }
{
    let number = refusal.number();
    if number < 10 {
        return send(&[b'R', b'0' + number, b'\n'], out);
    }
    send(&[b'R', b'0' + number / 10, b'0' + number % 10, b'\n'], out)
}

// The hexadecimal digit of a number below 16.
fn hex_digit(number: u8) -> u8
    requires { number < 16 }
    ensures { result ≡ hex_digit number }
{
    if number < 10 {
        b'0' + number
    } else {
        b'A' + (number - 10)
    }
}
