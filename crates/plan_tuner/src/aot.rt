// The plan tuner: a plan model whose tunings are sent when it is tuned, so that its keys then send notes alone. A tuning is planned in a copy, its bytes are
// put together and written where there is room for them, and only then does the tuner change (SPEC 9.1b).

ghost use Rattle.std.specs.Prelude.{◌≡◌, true, IfSome};
ghost use Rattle.std.specs.Float.Ieee.Positive.{positive};
ghost use Rattle.arithmetic.specs.Answers.{optional, outcome, outcome_by};
ghost use Rattle.channels.specs.ChannelList.{entries};
ghost use Rattle.channels.specs.TuningValue.{tuning_kind_of};
ghost use Rattle.plans.specs.Plan.{access_answer, empty, view as plan_view, Measurable};
ghost use Rattle.senders.specs.Buffer.{WriteMeets, CallMeets, sent};
ghost use Rattle.senders.specs.Midi.{bytes_of};
ghost use Rattle.senders.specs.Tuner.{key_rule};
ghost use Rattle.plan_tuner.specs.Aot.{view, start_rule, StartMeets, tuning_rule, plan_sent, PlanOptimal};
ghost use Rattle.plan_tuner.specs.Aot.{bytes_in, channel_messages, plan_messages, found};
ghost use Rattle.plan_tuner.specs.Aot.{note_on_rule, note_off_rule, note_attr_rule, global_attr_rule, stop_rule};

use arrayvec::ArrayVec;
use channels::keys::Place;
use channels::list::ChannelList;
use channels::tuning_value::TuningKind;
use channels::{Ratio, Refusal};
use plans::aot::{AotTuningModel, GroupBy, Planned};
use plans::lists::TuningLists;
use senders::midi::ChannelMessageType;
use senders::mts::{LONGEST_TUNING, tuning_bytes};
use senders::outgoing::send;
use senders::tuner::{NoteMessage, send_checked_key, send_checked_to_all};

// A tuner of a plan model. Every content is some tuner (SPEC 12.1), since it lies in the memory of programs in C, which compare it too: its kind has eight
// bytes, so that there is no padding.
#[repr(C)]
#[derive(Clone, Copy)]
pub struct AotTuner {
    pub model: AotTuningModel,
    tuning_kind: u64,
}

// What a tuning that is not refused comes to (SPEC 9.3). It is no Result, since a plan that needs more channels than there are is no error but an answer.
#[derive(Clone, Copy, Debug, PartialEq, Eq)]
pub enum PlanSent {
    // How many channels the plan uses, and how many bytes were written at the buffer's start.
    Tuned { channels: u16, written: usize },
    // How many channels it would need; there are fewer.
    Untuned(u16),
}

// Methods that a pool tuner has too (`of`, `start`, `restart`, `tuning_kind`, `note_attr`, `global_attr`, `access_key`) are each one call of what both tuners
// share in senders/src/tuner.rt, or of their model: a trait over both would state each contract once more, and be no plainer.
impl AotTuner {
    // A tuner of a model's channels.
    pub fn of(model: AotTuningModel, tuning_kind: TuningKind) -> AotTuner
        ensures model { result.model ≡ model }
        ensures tuning_kind { tuning_kind_of result.tuning_kind ≡ tuning_kind }
    {
        AotTuner {
            model,
            tuning_kind: u64::from(u16::from(tuning_kind)),
        }
    }

    // A tuner of the channels of a list, without a plan. Refuses 6 or 7 as the channel list does; the tuner has no channels then (SPEC 9.1a).
    pub fn start(
        channels: &[u8],
        tuning_kind: TuningKind,
    ) -> (AotTuner, Result<ChannelList, Refusal>)
        ensures { (outcome_by entries result.1, view result.0) ≡ start_rule channels.now tuning_kind }
    {
        let (model, answer) = AotTuningModel::open(channels, GroupBy::Channel);
        (AotTuner::of(model, tuning_kind), answer)
    }

    // The tuner becomes one of the channels listed, without a plan.
    pub fn reset(&mut self, channels: ChannelList, group_by: GroupBy, tuning_kind: TuningKind)
        ensures { view self.new ≡ record { plan = empty (entries channels) group_by; tuning_kind = tuning_kind } }
    {
        self.model.reset(channels, group_by);
        self.tuning_kind = u64::from(u16::from(tuning_kind));
    }

    // The tuner becomes one of the channels of a list, without a plan. Refuses 6 or 7 as the channel list does; the tuner stays then (SPEC 9.1a).
    #[tactic(auto, unfolding(plans::specs::Plan::open_rule))]
    pub fn restart(
        &mut self,
        channels: &[u8],
        tuning_kind: TuningKind,
    ) -> Result<ChannelList, Refusal>
        ensures answer { outcome_by entries result ≡ (start_rule channels.now tuning_kind).0 }
        ensures started { let rule = start_rule channels.now tuning_kind in StartMeets rule.0 rule.1 self.old self.new }
    {
        let list = ChannelList::of(channels)?;
        self.reset(list, GroupBy::Channel, tuning_kind);
        Ok(list)
    }

    // How the channels are tuned.
    #[tactic(auto, unfolding(channels::specs::TuningValue::tuning_kind_of))]
    pub fn tuning_kind(&self) -> TuningKind
        ensures { result ≡ tuning_kind_of self.now.tuning_kind }
    {
        u16::try_from(self.tuning_kind).map_or(TuningKind::FineTuning, TuningKind::from)
    }

    // Plans the keys of lists, and tunes each channel used, in order. Refuses 12, then line by line 4, 3, 5 of notes and 1, 5 of pitches; then 10, unless there
    // are too few channels (SPEC 9.3).
    // Example: AotTuner::start([0, 1], Bend); set_tuning([1, 2], [69, 69], [1, 33/32]) is tuned, channels used 2: E0 00 40 E1 06 51
    // Example: AotTuner::start([0, 1], Bend); set_tuning(pitches [1, 2], [440, 445]) is tuned, channels used 2: E0 00 40 E1 21 46
    pub fn set_tuning<L: TuningLists>(
        &mut self,
        lists: &L,
        out: &mut [u8],
    ) -> Result<PlanSent, Refusal>
        ensures meets { CallMeets view (tuning_rule (view self.old) (L.lines lists.now)) self.old out.old (plan_sent result) self.new out.new }
        ensures optimal { PlanOptimal (view self.old) (L.lines lists.now) (plan_sent result) (view self.new) }
    {
        let mut next = self.model;
        let sent = match next.set_tuning(lists)? {
            Planned::Tuned(channels) => {
                let written = send_tunings(&next, self.tuning_kind(), out)?;
                PlanSent::Tuned { channels, written }
            }
            Planned::Untuned(channels) => PlanSent::Untuned(channels),
        };
        self.model = next;
        Ok(sent)
    }

    // A press: the note-on of a key of the plan. Refuses 8, 10 (SPEC 9.3a).
    // Example: AotTuner::start([0, 1], Bend); set_tuning([1, 2], [69, 69], [1, 33/32]); note_on(2, 100) is 91 45 64
    // Example: AotTuner::start([0, 1], Bend); set_tuning([1, 2], [69, 69], [1, 33/32]); note_on(3, 100) is no bytes
    pub fn note_on(&self, key: u8, velocity: u8, out: &mut [u8]) -> Result<usize, Refusal>
        ensures { WriteMeets (note_on_rule (view self.now) key velocity) out.old (outcome result) out.new }
    {
        self.send_note(key, NoteMessage::On, velocity, out)
    }

    // A release: the note-off of a key of the plan. Refuses 8, 10 (SPEC 9.3a).
    pub fn note_off(&self, key: u8, velocity: u8, out: &mut [u8]) -> Result<usize, Refusal>
        ensures { WriteMeets (note_off_rule (view self.now) key velocity) out.old (outcome result) out.new }
    {
        self.send_note(key, NoteMessage::Off, velocity, out)
    }

    // The pressure of a key of the plan. Refuses 8, 10 (SPEC 9.3a).
    pub fn note_attr(&self, key: u8, pressure: u8, out: &mut [u8]) -> Result<usize, Refusal>
        ensures { WriteMeets (note_attr_rule (view self.now) key pressure) out.old (outcome result) out.new }
    {
        self.send_note(key, NoteMessage::Pressure, pressure, out)
    }

    // A message to every channel, except bends of a tuner that tunes by bends. Refuses 8 from the left, 9, also where nothing is sent, and 10 (SPEC 9.4).
    pub fn global_attr(&self, message: ChannelMessageType, out: &mut [u8]) -> Result<usize, Refusal>
        ensures { WriteMeets (global_attr_rule (view self.now) message) out.old (outcome result) out.new }
    {
        send_checked_to_all(self.tuning_kind(), self.model.channels(), message, out)
    }

    // Sends nothing: a plan tuner does not know which keys are pressed, so whoever pressed one releases it (SPEC 9.3b).
    pub fn stop(&self, out: &mut [u8]) -> Result<usize, Refusal>
        ensures { WriteMeets (stop_rule (view self.now)) out.old (outcome result) out.new }
    {
        Ok(0)
    }

    // A lookup: where the key is in the plan (SPEC 9.6).
    pub fn access_key(&self, key: u8) -> Option<Place>
        ensures { access_answer result ≡ (view self.now).plan.keys key }
    {
        self.model.access_key(key)
    }

    // Whether there is a plan (SPEC 6.4b).
    pub fn tuned(&self) -> bool
        ensures { result ≡ (view self.now).plan.tuned }
    {
        self.model.tuned()
    }

    // A message of the note of a key of the plan. Refuses 8, 10.
    fn send_note(
        &self,
        key: u8,
        message: NoteMessage,
        value: u8,
        out: &mut [u8],
    ) -> Result<usize, Refusal>
        ensures { let t = view self.now in WriteMeets (key_rule message t.plan.channels value (found t key)) out.old (outcome result) out.new }
    {
        let found = self
            .access_key(key)
            .map(|place| (place.channel, place.note.number()));
        send_checked_key(self.model.channels(), found, message, value, out)
    }
}

// The tuning of each of the sixteen channels.
const LONGEST_PLAN: usize = 16 * LONGEST_TUNING;

// Writes the tunings of a plan's channels, in order, to the buffer's start. Refuses 10.
fn send_tunings(
    model: &AotTuningModel,
    tuning_kind: TuningKind,
    out: &mut [u8],
) -> Result<usize, Refusal>
    requires { Measurable (plan_view model.now) }
    ensures { WriteMeets (sent (bytes_of (plan_messages tuning_kind (plan_view model.now)))) out.old (outcome result) out.new }
{
    let channels = model.channels();
    let mut bytes = ArrayVec::<u8, LONGEST_PLAN>::new();
    for i in 0..model.num_channels() {
        let detuning = model.detuning(i, 0);
        if let Some(tuning) = tuning(tuning_kind, channels, i, detuning) {
            bytes.try_extend_from_slice(tuning.as_slice()).unwrap();
        }
    }
    send(bytes.as_slice(), out)
}

// The bytes of the tuning of channel i of a list, if there is such a channel and it has a detuning, which can be measured (`tuning` of senders says why no
// type says so).
fn tuning(
    tuning_kind: TuningKind,
    channels: ChannelList,
    i: u16,
    detuning: Option<f64>,
) -> Option<ArrayVec<u8, LONGEST_TUNING>>
    requires { IfSome detuning (λ d. positive d ≡ true) }
    ensures { bytes_in result ≡ bytes_of (channel_messages tuning_kind (entries channels) i (optional detuning)) }
{
    let detuning = detuning?;
    let Ok(i) = u8::try_from(i) else {
        return None;
    };
    let channel = channels.entry(i)?;
    let bytes = tuning_bytes(tuning_kind, channel, Ratio::from_float(detuning));
    Some(bytes.unwrap())
}
