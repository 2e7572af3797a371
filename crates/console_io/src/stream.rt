// The console between two calls of the system (SPEC 10.7), over the buffer of what was read and the buffer of what is to be written.

ghost use Rattle.std.specs.Prelude.{◌≡◌, ℕ, List, [], length, take};
ghost use Rattle.senders.specs.Buffer.{overwrite};
ghost use Rattle.console_io.specs.Stream.{view, part, start, answer_rule, end_rule, read_rule, read_buffer, receive_buffer, write_rule, Leaves};

use console_lines::step::Console;

// A part of a buffer: the bytes from one place to another, as far as it has them.
#[derive(Clone, Copy)]
struct Part {
    start: usize,
    end: usize,
}

impl Part {
    // The first bytes.
    fn first(len: usize) -> Part
        ensures { (buffer : List ℕ) → part result buffer ≡ take len buffer }
    {
        Part { start: 0, end: len }
    }

    // Its bytes.
    fn of<'a>(self, buffer: &'a [u8]) -> &'a [u8]
        ensures { result.now ≡ part self buffer.now }
    {
        let end = self.end.min(buffer.len());
        &buffer[self.start.min(end)..end]
    }
}

// Of the piece one part is still to be answered, of the output one is still to be written. The two buffers are the caller's and come with each call: `run` and
// `turn` promise what these hold at exit, so that a struct with the borrows would have to give them back first, and would be no plainer.
#[derive(Clone, Copy)]
pub struct Stream {
    console: Console,
    unanswered: Part,
    unwritten: Part,
    ended: bool,
}

impl Stream {
    // The stream before the input.
    pub fn new() -> Stream
        ensures { (piece out : List ℕ) → view result piece out ≡ start }
    {
        Stream {
            console: Console::new(),
            unanswered: Part::first(0),
            unwritten: Part::first(0),
            ended: false,
        }
    }

    // What was read and is still to be answered.
    pub fn unanswered<'a>(&self, piece: &'a [u8]) -> &'a [u8]
        ensures { (out : List ℕ) → result.now ≡ (view self.now piece.now out).unanswered }
    {
        self.unanswered.of(piece)
    }

    // What was answered and is still to be written.
    pub fn unwritten<'a>(&self, out: &'a [u8]) -> &'a [u8]
        ensures { (piece : List ℕ) → result.now ≡ (view self.now piece out.now).unwritten }
    {
        self.unwritten.of(out)
    }

    // Whether the input has ended.
    pub fn has_ended(&self) -> bool
        ensures { (piece out : List ℕ) → result ≡ (view self.now piece out).ended }
    {
        self.ended
    }

    // The stream goes on after a read into the piece, which failed, came to the end of the input, or brought so many bytes. An end answers a line that
    // has begun.
    #[tactic(auto, unfolding(crate::specs::Stream::read_rule, crate::specs::Stream::read_buffer))]
    pub fn read(&mut self, got: Option<usize>, piece: &[u8], out: &mut [u8])
        ensures { Leaves
            (read_rule (length out.old) got piece.now (view self.old piece.now out.old))
            (read_buffer got piece.now (view self.old piece.now out.old) out.old)
            (view self.new piece.now out.new)
            out.new }
    {
        let Some(n) = got else {
            return;
        };
        let brought = Part::first(n);
        if brought.of(piece).is_empty() {
            self.end(out);
        } else {
            self.unanswered = brought;
        }
    }

    // The end of the input. Where there is no room for the answer, the stream is as it was.
    fn end(&mut self, out: &mut [u8])
        ensures { (piece : List ℕ)
            → Leaves
            (end_rule (length out.old) (view self.old piece out.old))
            (receive_buffer [] (view self.old piece out.old) out.old)
            (view self.new piece out.new)
            out.new }
    {
        if let Ok(written) = self.console.finish(out) {
            self.unanswered = Part::first(0);
            self.unwritten = Part::first(written);
            self.ended = true;
        }
    }

    // Answers what was read, from the start of the output, as far as there is room (SPEC 10.6a).
    pub fn answer(&mut self, piece: &[u8], out: &mut [u8])
        ensures { let next = answer_rule (length out.old) (view self.old piece.now out.old) in
            Leaves next (overwrite next.unwritten out.old) (view self.new piece.now out.new) out.new }
    {
        let step = self.console.step(self.unanswered.of(piece), out);
        self.unanswered.start += step.used;
        self.unwritten = Part::first(step.written);
    }

    // The stream goes on after a write of what was to be written, which failed or took so many bytes.
    pub fn wrote(&mut self, put: Option<usize>, out: &[u8])
        ensures { (piece : List ℕ) → view self.new piece out.now ≡ write_rule put (view self.old piece out.now) }
    {
        let taken = put.unwrap_or(0).min(self.unwritten.of(out).len());
        self.unwritten.start += taken;
    }
}
