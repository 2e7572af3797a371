// The keys of a plan in the order of their detunings (SPEC 6.3): the lines of its lists, checked one by one, and put in order.

ghost use Rattle.std.specs.Prelude.{◌≡◌, []};
ghost use Rattle.plans.specs.PlanInternal.{Adds, Checked, Filled, Holds, before_in};
ghost use Rattle.plans.specs.KeyLine.{key_line};

use crate::lists::{KeyTuning, TuningLists};
use arithmetic::refusal::Refusal;
use arrayvec::ArrayVec;
use channels::keys::{KEYS, Place, is_found};

// Keys by rising detuning, equal ones in the order of their lines; and by key a record, which has the note, and the detuning.
// That they are so (`Filled`) is asked by three private functions and is not the type's: `add` changes the fields one after another, `place_keys` the
// records alone, so that a type that says so would have to be taken apart and made again there, and be no plainer.
#[derive(Drop)]
pub struct SortedKeys {
    pub order: ArrayVec<u8, KEYS>,
    // Beside the detunings, as they lie in C's memory: a plan is copied there whole.
    pub records: [u16; KEYS],
    pub detunings: [f64; KEYS],
}

impl SortedKeys {
    // The lines of lists in order. Refuses 12, then line by line what a line is refused for by itself, and 5 (SPEC 6.1b).
    pub fn of<L: TuningLists>(lists: &L) -> Result<SortedKeys, Refusal>
        ensures { Checked (L.lines lists.now) result }
    {
        let n = lists.len()?;
        let mut keys = SortedKeys::none();
        for i in 0..n {
            let line = lists.line(i)?;
            keys.add(line)?;
        }
        Ok(keys)
    }

    // No keys.
    fn none() -> SortedKeys
        ensures { Holds result [] }
    {
        SortedKeys {
            order: ArrayVec::new(),
            records: [0; KEYS],
            detunings: [0.0; KEYS],
        }
    }

    // One line more. Refuses 5.
    fn add(&mut self, line: KeyTuning) -> Result<(), Refusal>
        requires { Filled self.old }
        ensures { Adds (key_line line) result self.old self.new }
    {
        let key = line.key as usize;
        if is_found(self.records[key]) {
            return Err(Refusal::KeyTwice);
        }
        let at = self.place(line);
        self.order.insert(at, line.key);
        let place = Place {
            channel: 0,
            note: line.note,
        };
        self.records[key] = place.record();
        self.detunings[key] = line.detuning;
        Ok(())
    }

    // How many keys come before a line's: those whose own detuning is no higher.
    fn place(&self, line: KeyTuning) -> usize
        requires { Filled self.now }
        ensures { result ≡ before_in self.now line.detuning }
    {
        let detuning = line.detuning;
        let keys = self.order.as_slice();
        keys.partition_point(|&key| self.detunings[key as usize] <= detuning)
    }
}
