// The pool tuner: a pool model whose presses, releases and repitches are sent as they happen. Each call decides, tests its room, writes its bytes, and only
// then changes the tuner (SPEC 9.1b).

ghost use Rattle.std.specs.Prelude.{◌≡◌, true, Some, IfSome};
ghost use Rattle.std.specs.Float.Ieee.Positive.{positive};
ghost use Rattle.arithmetic.specs.Answers.{outcome, outcome_by};
ghost use Rattle.channels.specs.ChannelList.{entries};
ghost use Rattle.channels.specs.Places.{place};
ghost use Rattle.channels.specs.TuningValue.{tuning_kind_of, sent_as};
ghost use Rattle.pools.specs.PoolAnswers.{registered_view, pressing_view, stopped_note};
ghost use Rattle.pools.specs.Pool.{found};
ghost use Rattle.senders.specs.Buffer.{WriteMeets, CallMeets, sent};
ghost use Rattle.senders.specs.Midi.{bytes_of};
ghost use Rattle.senders.specs.Mts.{tuning_messages};
ghost use Rattle.senders.specs.Records.{bytes_in};
ghost use Rattle.senders.specs.Tuner.{stop_messages, key_rule, key_messages};
ghost use Rattle.senders.specs.declared.tuner.NoteMessage.TheVariants.{Off};
ghost use Rattle.senders.specs.Answers.{press_answer, pressed};
ghost use Rattle.senders.specs.Event.{count};
ghost use Rattle.senders.specs.Jit.{view, start_rule, StartMeets, note_on_rule, note_off_rule, note_pitch_rule, note_attr_rule, global_attr_rule, stop_rule, press_bytes, accepted_messages, release_messages};

use crate::data_byte::DataByte;
use crate::midi::ChannelMessageType;
use crate::mts::{LONGEST_TUNING, tuning_bytes};
use crate::outgoing::send;
use crate::record::RECORD_LEN;
use crate::tuner::{NoteMessage, send_checked_key, send_checked_to_all};
use arrayvec::ArrayVec;
use channels::channel::Channel;
use channels::keys::{KEYS, Place};
use channels::list::ChannelList;
use channels::tuning_value::TuningKind;
use channels::{Note, Pitch, Ratio, Refusal};
use pools::jit::{JitTuningModel, PoolGroupBy, PoolingMode, Pressing, Registered, Retrigger};

// A note-off, a tuning, a note-on.
const LONGEST_REGISTERED: usize = RECORD_LEN + LONGEST_TUNING + RECORD_LEN;

// The note-off of the key that is released first, and these.
const LONGEST_PRESS: usize = RECORD_LEN + LONGEST_REGISTERED;

// A note-off of every key.
const LONGEST_STOP: usize = KEYS * RECORD_LEN;

// What a press came to, and how many bytes it sent: of a rejected press those of the release that it began with (SPEC 9.2, 9.2e).
#[derive(Clone, Copy, Debug, PartialEq, Eq)]
pub enum Pressed {
    Sent(usize),
    Rejected(usize),
}

impl Pressed {
    // How many bytes were sent.
    pub fn len(self) -> usize
        ensures { result ≡ count (pressed self) }
    {
        match self {
            Pressed::Sent(n) => n,
            Pressed::Rejected(n) => n,
        }
    }
}

// A tuner of a pool model (SPEC 9.1). Every content is some tuner, since it lies in the memory of programs in C (SPEC 12.1).
#[repr(C)]
#[derive(Clone, Copy)]
pub struct JitTuner {
    pub model: JitTuningModel,
    tuning_kind: u16,
}

impl JitTuner {
    // A tuner of a model's channels.
    pub fn of(model: JitTuningModel, tuning_kind: TuningKind) -> JitTuner
        ensures model { result.model ≡ model }
        ensures tuning_kind { tuning_kind_of result.tuning_kind ≡ tuning_kind }
    {
        JitTuner {
            model,
            tuning_kind: u16::from(tuning_kind),
        }
    }

    // A tuner of the channels of a list, in which no key is found. Refuses 6 or 7 as the channel list does; the tuner has no channels then (SPEC 9.1a).
    // Example: JitTuner::start([0, 1], Bend, Stop, Off) is channels listed 2
    pub fn start(
        channels: &[u8],
        tuning_kind: TuningKind,
        pooling_mode: PoolingMode,
        retrigger: Retrigger,
    ) -> (JitTuner, Result<ChannelList, Refusal>)
        ensures { (outcome_by entries result.1, view result.0) ≡ start_rule channels.now tuning_kind pooling_mode retrigger }
    {
        let (model, answer) = JitTuningModel::open(
            channels,
            PoolGroupBy::Channel,
            pooling_mode,
            retrigger,
        );
        (JitTuner::of(model, tuning_kind), answer)
    }

    // The tuner becomes one of the channels of a list, in which no key is found. Refuses 6 or 7 as the channel list does; the tuner stays then (SPEC 9.1a).
    #[tactic(auto, unfolding(pools::specs::Pool::open_rule))]
    pub fn restart(
        &mut self,
        channels: &[u8],
        tuning_kind: TuningKind,
        pooling_mode: PoolingMode,
        retrigger: Retrigger,
    ) -> Result<ChannelList, Refusal>
        ensures answer { outcome_by entries result ≡ (start_rule channels.now tuning_kind pooling_mode retrigger).0 }
        ensures started { let rule = start_rule channels.now tuning_kind pooling_mode retrigger in StartMeets rule.0 rule.1 self.old self.new }
    {
        let list = ChannelList::of(channels)?;
        *self = JitTuner::of(
            JitTuningModel::new(list, PoolGroupBy::Channel, pooling_mode, retrigger),
            tuning_kind,
        );
        Ok(list)
    }

    // How the channels are tuned.
    pub fn tuning_kind(&self) -> TuningKind
        ensures { result ≡ tuning_kind_of self.now.tuning_kind }
    {
        TuningKind::from(self.tuning_kind)
    }

    // A press: the note-off of a held key of a tuner with retrigger, then that of the note that the press stops, the tuning, the note-on. It answers how many
    // bytes were sent, those of the release alone where no channel is free. Refuses 8, 1, 11 a held key without retrigger, 10 (SPEC 9.2, 9.2e).
    // Example: JitTuner::start([0, 1], Bend, Stop, Off); note_on(1, 445 Hz, 100) is E0 21 46 90 45 64
    // Example: JitTuner::start([0, 1], Bend, Stop, Off); note_on(1, 440 Hz, 100) is E0 00 40 90 45 64
    // Example: JitTuner::start([0, 1], Bend, Stop, On); note_on(1, 440 Hz, 100); note_on(1, 440 Hz, 100) is 80 45 00 E1 00 40 91 45 64
    pub fn note_on(
        &mut self,
        key: u8,
        pitch: Pitch,
        velocity: u8,
        out: &mut [u8],
    ) -> Result<Pressed, Refusal>
        ensures { CallMeets view (note_on_rule (view self.old) key pitch.hz velocity) self.old out.old (press_answer result) self.new out.new }
    {
        let velocity = DataByte::try_from(velocity)?;
        let press = self.model.allocate_key(key, pitch)?;
        let sent = self.send_press(press, velocity, out)?;
        let Some(registered) = press.registered else {
            let _ = self.model.deregister_key(key);
            return Ok(Pressed::Rejected(sent));
        };
        let note = registered.started_note.number();
        let _ = self.model.register_note(key, note, registered.detuning);
        Ok(Pressed::Sent(sent))
    }

    // A release: the note-off of a key that is found. Refuses 8, 10 (SPEC 9.2a).
    // Example: JitTuner::start([0, 1], Bend, Stop, Off); note_on(1, 440 Hz, 100); note_off(1, 64) is 80 45 40
    pub fn note_off(&mut self, key: u8, velocity: u8, out: &mut [u8]) -> Result<usize, Refusal>
        ensures { CallMeets view (note_off_rule (view self.old) key velocity) self.old out.old (outcome result) self.new out.new }
    {
        let sent = self.send_key(key, NoteMessage::Off, velocity, out)?;
        self.model.deregister_key(key);
        Ok(sent)
    }

    // The tuning of the channel of a key that is found, by the pitch. Refuses 1, and 10 where the key is found (SPEC 9.2b).
    // Example: JitTuner::start([0, 1], Bend, Stop, Off); note_on(1, 440 Hz, 100); note_pitch(1, 445 Hz) is E0 21 46
    #[tactic(auto, using(pools::proofs::Pools::Presses::repitch_measurable))]
    pub fn note_pitch(&self, key: u8, pitch: Pitch, out: &mut [u8]) -> Result<usize, Refusal>
        ensures { WriteMeets (note_pitch_rule (view self.now) key pitch.hz) out.old (outcome result) out.new }
    {
        let Some(repitch) = self.model.repitch_key(key, pitch)? else {
            return Ok(0);
        };
        let Some(channel) = self.model.channels().entry(repitch.place.channel) else {
            return Ok(0);
        };
        let tuning = self.tuning(channel, repitch.detuning);
        send(tuning.as_slice(), out)
    }

    // The pressure of a key that is found. Refuses 8, 10 (SPEC 9.2c).
    pub fn note_attr(&self, key: u8, pressure: u8, out: &mut [u8]) -> Result<usize, Refusal>
        ensures { WriteMeets (note_attr_rule (view self.now) key pressure) out.old (outcome result) out.new }
    {
        self.send_key(key, NoteMessage::Pressure, pressure, out)
    }

    // A message to every channel, except bends of a tuner that tunes by bends. Refuses 8 from the left, 9, also where nothing is sent, and 10 (SPEC 9.4).
    // Example: JitTuner::start([0, 1], Bend, Stop, Off); global_attr(ControlChange(7, 90)) is B0 07 5A B1 07 5A
    pub fn global_attr(&self, message: ChannelMessageType, out: &mut [u8]) -> Result<usize, Refusal>
        ensures { WriteMeets (global_attr_rule (view self.now) message) out.old (outcome result) out.new }
    {
        send_checked_to_all(self.tuning_kind(), self.model.channels(), message, out)
    }

    // Every key that is found is released with velocity 0, by rising key. Refuses 10 (SPEC 9.2d).
    // Example: JitTuner::start([0, 1], Bend, Stop, Off); note_on(1, 440 Hz, 100); stop() is 80 45 00
    pub fn stop(&mut self, out: &mut [u8]) -> Result<usize, Refusal>
        ensures { CallMeets view (stop_rule (view self.old)) self.old out.old (outcome result) self.new out.new }
    {
        let sent = self.send_releases(out)?;
        self.model.stop();
        Ok(sent)
    }

    // A lookup: where the key is found (SPEC 9.6).
    pub fn access_key(&self, key: u8) -> Option<Place>
        ensures { place result ≡ found (view self.now).pool key }
    {
        self.model.access_key(key)
    }
}

// The bytes of a call. Each function that sends them writes them to the buffer's start, and refuses 10.
impl JitTuner {
    // A message of a key's note: nothing for a key that is not found. Refuses 8 too, also for such a key.
    #[tactic(auto, unfolding(channels::specs::Places::place))]
    fn send_key(
        &self,
        key: u8,
        message: NoteMessage,
        value: u8,
        out: &mut [u8],
    ) -> Result<usize, Refusal>
        ensures { WriteMeets (key_rule message (view self.now).pool.channels value (found (view self.now).pool key)) out.old (outcome result) out.new }
    {
        let found = self
            .model
            .access_key(key)
            .map(|place| (place.channel, place.note.number()));
        send_checked_key(self.model.channels(), found, message, value, out)
    }

    // The note-off of the key that is released first, with velocity 0, and the messages of the press, if it is accepted.
    fn send_press(
        &self,
        press: Pressing,
        velocity: DataByte,
        out: &mut [u8],
    ) -> Result<usize, Refusal>
        requires { IfSome press.registered (λ r. positive r.detuning ≡ true) }
        ensures { WriteMeets (sent (press_bytes (view self.now) velocity.number (pressing_view press))) out.old (outcome result) out.new }
    {
        let mut bytes = ArrayVec::<u8, LONGEST_PRESS>::new();
        if let Some(message) = self.released_message(press.released) {
            bytes.try_extend_from_slice(&message).unwrap();
        }
        if let Some(registered) = press.registered {
            let messages = self.registered_bytes(registered, velocity);
            bytes.try_extend_from_slice(messages.as_slice()).unwrap();
        }
        send(bytes.as_slice(), out)
    }

    // The note-off of a key that is released, with velocity 0.
    #[tactic(auto, unfolding(channels::specs::Places::place))]
    fn released_message(&self, released: Option<Place>) -> Option<[u8; RECORD_LEN]>
        ensures { bytes_in result ≡ bytes_of (key_messages Off (view self.now).pool.channels 0 (place released)) }
    {
        let place = released?;
        NoteMessage::Off.at_place(
            self.model.channels(),
            place.channel,
            place.note.number(),
            DataByte::ZERO,
        )
    }

    // A press on the channel that the model has found for it: the note-off of the stopped note with the new velocity, the tuning, the note-on.
    fn registered_bytes(
        &self,
        press: Registered,
        velocity: DataByte,
    ) -> ArrayVec<u8, LONGEST_REGISTERED>
        requires { positive press.detuning ≡ true }
        ensures { result.items ≡ bytes_of (accepted_messages (view self.now) velocity.number (registered_view (Some press))) }
    {
        let mut bytes = ArrayVec::<u8, LONGEST_REGISTERED>::new();
        let Some(channel) = self.model.channels().entry(press.channel) else {
            return bytes;
        };
        let tuning = self.tuning(channel, press.detuning);
        if let Some(message) = stop_message(channel, press.stopped_note, velocity) {
            bytes.try_extend_from_slice(&message).unwrap();
        }
        bytes.try_extend_from_slice(tuning.as_slice()).unwrap();
        if let Some(message) = NoteMessage::On.of_note(
            channel,
            press.started_note.number(),
            velocity,
        ) {
            bytes.try_extend_from_slice(&message).unwrap();
        }
        bytes
    }

    // The releases of all found keys.
    fn send_releases(&self, out: &mut [u8]) -> Result<usize, Refusal>
        ensures { WriteMeets (sent (bytes_of (release_messages (view self.now)))) out.old (outcome result) out.new }
    {
        let channels = self.model.channels();
        let mut bytes = ArrayVec::<u8, LONGEST_STOP>::new();
        for held in self.model.held_keys() {
            let place = held.place;
            if let Some(message) = NoteMessage::Off.at_place(
                channels,
                place.channel,
                place.note.number(),
                DataByte::ZERO,
            ) {
                bytes.try_extend_from_slice(&message).unwrap();
            }
        }
        send(bytes.as_slice(), out)
    }

    // The bytes of a channel's tuning by a detuning that can be measured. It and `send_press` ask this, and no type says it: models answer any
    // f64 (`register_note`), so that a type would be made, with the same proof, where these are called, and be no plainer.
    #[tactic(auto, using(crate::proofs::Tuners::Tunings::tuning_accepted, crate::proofs::Tuners::Tunings::is_value))]
    fn tuning(&self, channel: Channel, detuning: f64) -> ArrayVec<u8, LONGEST_TUNING>
        requires { positive detuning ≡ true }
        ensures { result.items ≡ bytes_of (tuning_messages channel.number (sent_as (tuning_kind_of self.now.tuning_kind) detuning)) }
    {
        tuning_bytes(self.tuning_kind(), channel, Ratio::from_float(detuning)).unwrap()
    }
}

// The note-off of the note that a press stops, if it stops one.
fn stop_message(
    channel: Channel,
    stopped: Option<Note>,
    velocity: DataByte,
) -> Option<[u8; RECORD_LEN]>
    ensures { bytes_in result ≡ bytes_of (stop_messages channel.number (stopped_note stopped) velocity.number) }
{
    NoteMessage::Off.of_note(channel, stopped?.number(), velocity)
}

// By value: the tuner goes in and is handed back (SPEC 9.7).
impl JitTuner {
    // A press.
    pub fn pressed(
        mut self,
        key: u8,
        pitch: Pitch,
        velocity: u8,
        out: &mut [u8],
    ) -> (JitTuner, Result<Pressed, Refusal>)
        ensures { CallMeets view (note_on_rule (view self) key pitch.hz velocity) self out.old (press_answer result.1) result.0 out.new }
    {
        let answer = self.note_on(key, pitch, velocity, out);
        (self, answer)
    }

    // A release.
    pub fn released(
        mut self,
        key: u8,
        velocity: u8,
        out: &mut [u8],
    ) -> (JitTuner, Result<usize, Refusal>)
        ensures { CallMeets view (note_off_rule (view self) key velocity) self out.old (outcome result.1) result.0 out.new }
    {
        let answer = self.note_off(key, velocity, out);
        (self, answer)
    }

    // A lookup.
    pub fn looked_up(self, key: u8) -> Option<Place>
        ensures { place result ≡ found (view self).pool key }
    {
        self.access_key(key)
    }

    // The release of every found key.
    pub fn stopped(mut self, out: &mut [u8]) -> (JitTuner, Result<usize, Refusal>)
        ensures { CallMeets view (stop_rule (view self)) self out.old (outcome result.1) result.0 out.new }
    {
        let answer = self.stop(out);
        (self, answer)
    }
}
