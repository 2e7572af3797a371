// What a tuner sends on its channels: a key's note messages, and a message to all. A tuner's methods are made of these.

ghost use Rattle.std.specs.Prelude.{◌≡◌};
ghost use Rattle.arithmetic.specs.Answers.{optional, outcome};
ghost use Rattle.arithmetic.specs.Note.{midi_number};
ghost use Rattle.channels.specs.ChannelList.{entries};
ghost use Rattle.senders.specs.Buffer.{WriteMeets};
ghost use Rattle.senders.specs.Midi.{bytes_of};
ghost use Rattle.senders.specs.Records.{bytes_in, number_in};
ghost use Rattle.senders.specs.Tuner.{note_messages, on_channel, place_from, is_suppressed, key_rule, to_all_rule};

use crate::data_byte::DataByte;
use crate::midi::ChannelMessageType;
use crate::outgoing::send;
use crate::record::{Kind, RECORD_LEN, Record};
use arithmetic::note::midi_number;
use arrayvec::ArrayVec;
use channels::Refusal;
use channels::channel::Channel;
use channels::list::ChannelList;
use channels::tuning_value::TuningKind;

// A message on each of the sixteen channels.
const MOST_MESSAGES: usize = 16;

// The three messages of a note. An enum, since the rules name the kind too: functions that are passed would be no plainer.
#[derive(Clone, Copy, PartialEq, Eq, Debug)]
pub enum NoteMessage {
    Off,
    On,
    Pressure,
}

impl NoteMessage {
    // The message of a note, any number, on a channel, if MIDI has a number for the note. `value` is its velocity or pressure.
    pub(crate) fn of_note(
        self,
        channel: Channel,
        note: i32,
        value: DataByte,
    ) -> Option<[u8; RECORD_LEN]>
        ensures { bytes_in result ≡ bytes_of (note_messages self channel.number note value.number) }
    {
        let key = data_byte_of(note)?;
        let kind = match self {
            NoteMessage::Off => Kind::NoteOff,
            NoteMessage::On => Kind::NoteOn,
            NoteMessage::Pressure => Kind::PolyphonicKeyPressure,
        };
        let record = Record {
            kind,
            first: key,
            second: value,
        };
        Some(record.on(channel))
    }

    // The message of a note on channel i of a list, if there is one and the list has such a channel.
    pub(crate) fn at_place(
        self,
        channels: ChannelList,
        i: u8,
        note: i32,
        value: DataByte,
    ) -> Option<[u8; RECORD_LEN]>
        ensures { bytes_in result ≡ bytes_of (on_channel (entries channels) i (λ ch. note_messages self ch note value.number)) }
    {
        let channel = channels.entry(i)?;
        self.of_note(channel, note, value)
    }
}

// Writes a message of a key's note on its channel to the buffer's start: nothing for a key that is not found. `found` is where it is: a channel and a note, any
// numbers. Refuses 8, also for such a key, and 10 (SPEC 9.5a).
pub fn send_checked_key(
    channels: ChannelList,
    found: Option<(u8, i32)>,
    note_message: NoteMessage,
    value: u8,
    out: &mut [u8],
) -> Result<usize, Refusal>
    ensures { WriteMeets (key_rule note_message (entries channels) value (place_from (optional found))) out.old (outcome result) out.new }
{
    let value = DataByte::try_from(value)?;
    let Some(message) = found.and_then(|(i, note)| note_message.at_place(channels, i, note, value))
    else {
        return Ok(0);
    };
    send(&message, out)
}

// Writes a message to every channel of a list to the buffer's start, unless the tuner does not pass it on. Refuses 8 from the left, 9, also where nothing is
// sent, and 10 (SPEC 9.4).
#[tactic(auto, using(channels::proofs::ChannelLists::entries_few))]
pub fn send_checked_to_all(
    tuning_kind: TuningKind,
    channels: ChannelList,
    message: ChannelMessageType,
    out: &mut [u8],
) -> Result<usize, Refusal>
    ensures { WriteMeets (to_all_rule tuning_kind (entries channels) message) out.old (outcome result) out.new }
{
    let record = message.check()?;
    if is_suppressed(tuning_kind, message) {
        return Ok(0);
    }
    let mut messages = ArrayVec::<[u8; RECORD_LEN], MOST_MESSAGES>::new();
    // By number, as a list tells its channels (`entry`): an iterator of its own would be no plainer.
    for i in 0..channels.len() {
        if let Some(channel) = channels.entry(i) {
            messages.push(record.on(channel));
        }
    }
    send(messages.as_slice().as_flattened(), out)
}

// Whether a tuner does not pass a message on: it tunes by bends, and the message is one (SPEC 9.4).
fn is_suppressed(tuning_kind: TuningKind, message: ChannelMessageType) -> bool
    ensures { result ≡ is_suppressed tuning_kind message }
{
    tuning_kind == TuningKind::Bend && matches!(message, ChannelMessageType::PitchBendChange { .. })
}

// The number that MIDI has for a note, if it has one (SPEC 1.3a).
#[tactic(auto, using(crate::proofs::Tuners::Channels::midi_number_below))]
fn data_byte_of(note: i32) -> Option<DataByte>
    ensures { number_in result ≡ midi_number note }
{
    let number = midi_number(note)?;
    Some(DataByte { number })
}
