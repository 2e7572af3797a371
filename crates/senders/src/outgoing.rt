// Bytes on their way out: a call puts all of its bytes together, and only then tests their room in the caller's buffer.

ghost use Rattle.arithmetic.specs.Answers.{outcome};
ghost use Rattle.senders.specs.Buffer.{WriteMeets, sent};

use channels::Refusal;

// Writes bytes to the buffer's start, and answers how many they are. Refuses 10 (SPEC 1.9b).
pub fn send(bytes: &[u8], out: &mut [u8]) -> Result<usize, Refusal>
    ensures { WriteMeets (sent bytes.now) out.old (outcome result) out.new }
{
    if out.len() < bytes.len() {
        return Err(Refusal::BufferTooShort);
    }
    out[..bytes.len()].copy_from_slice(bytes);
    Ok(bytes.len())
}
