// Keys: how many there are, where a key is found, and both in one number, the key's record, 0 or note + 301 + 1024 * channel.
// Models keep records, since they lie in the memory of programs in C; any number there is read as some record, so that a type for one would be no plainer.

ghost use Rattle.std.specs.Prelude.{◌≡◌};
ghost use Rattle.channels.specs.Places.{is_held, note_of, place_of, record_of, place};

use arithmetic::note::{Note, is_note};

// The number of keys, as `key_count` of specs/ (SPEC 1.1).
pub const KEYS: usize = 256;

// Where a key is found.
#[derive(Clone, Copy)]
pub struct Place {
    pub channel: u8,
    pub note: Note,
}

impl Place {
    // The record of the key that is found there. The channel is read by its remainder by 16 (SPEC 12.1).
    pub fn record(self) -> u16
        ensures { result ≡ record_of self.note.number self.channel }
    {
        (self.note.number() + 301) as u16 + 1024 * (self.channel % 16) as u16
    }
}

// A key that is found.
#[derive(Clone, Copy)]
pub struct HeldKey {
    pub key: u16,
    pub place: Place,
}

// Where the key of a record is found.
pub fn place_of(raw: u16) -> Option<Place>
    ensures { place result ≡ place_of raw }
{
    let note = Note::try_from(note_of(raw)).ok()?;
    let channel = (raw / 1024 % 16) as u8;
    Some(Place { channel, note })
}

// Whether the key of a record is found.
pub fn is_found(raw: u16) -> bool
    ensures { result ≡ is_held (place_of raw) }
{
    is_note(note_of(raw))
}

// The record of a key that sounds a note on a channel, which is read by its remainder by 16; 0 for a number that is no note.
pub fn record_of(note: i32, channel: u8) -> u16
    ensures { result ≡ record_of note channel }
{
    let Ok(note) = Note::try_from(note) else {
        return 0;
    };
    Place { channel, note }.record()
}

// The note of a record, a number below all notes for 0.
pub fn note_of(raw: u16) -> i32
    ensures { result ≡ note_of raw }
{
    (raw % 1024) as i32 - 301
}
