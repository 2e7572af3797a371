// What a pool model is opened with besides its channels: which notes share a pool, what a press does that finds no free channel, and whether a held key may be
// pressed again (SPEC 7.1a, 7.3, 7.2d).

ghost use Rattle.std.specs.Prelude.{◌≡◌, ◌<◌};
ghost use Rattle.pools.specs.Pool.{pool_of};
ghost use Rattle.pools.specs.View.{group_by_of, pooling_mode_of, retrigger_of};

use arithmetic::note::Note;

// Which notes share a pool: those of a letter, or all (SPEC 7.1a).
#[derive(Clone, Copy, Debug, PartialEq, Eq)]
pub enum PoolGroupBy {
    NoteLetter = 0,
    Channel = 1,
}

// What a press does that finds no free channel (SPEC 7.3).
#[derive(Clone, Copy, Debug, PartialEq, Eq)]
pub enum PoolingMode {
    Block = 0,
    Stop = 1,
    Ignore = 2,
}

// Whether a press of a held key releases it first, or is refused (SPEC 7.2d).
#[derive(Clone, Copy, Debug, PartialEq, Eq)]
pub enum Retrigger {
    Off = 0,
    On = 1,
}

// A number that names none is read as 0 (SPEC 12.2).
impl From<u16> for PoolGroupBy {
    ghost from_gives = { λ number group. group ≡ group_by_of number };

    #[tactic(auto, unfolding(crate::specs::View::group_by_of))]
    fn from(number: u16) -> PoolGroupBy {
        match number {
            1 => PoolGroupBy::Channel,
            _ => PoolGroupBy::NoteLetter,
        }
    }
}

// A number that names none is read as 0 (SPEC 12.2).
impl From<u16> for PoolingMode {
    ghost from_gives = { λ number mode. mode ≡ pooling_mode_of number };

    #[tactic(auto, unfolding(crate::specs::View::pooling_mode_of))]
    fn from(number: u16) -> PoolingMode {
        match number {
            1 => PoolingMode::Stop,
            2 => PoolingMode::Ignore,
            _ => PoolingMode::Block,
        }
    }
}

// A number that names none is read as 0 (SPEC 12.2).
impl From<u16> for Retrigger {
    ghost from_gives = { λ number retrigger. retrigger ≡ retrigger_of number };

    #[tactic(auto, unfolding(crate::specs::View::retrigger_of))]
    fn from(number: u16) -> Retrigger {
        match number {
            1 => Retrigger::On,
            _ => Retrigger::Off,
        }
    }
}

impl From<PoolGroupBy> for u16 {
    ghost from_gives = { λ group number. group_by_of number ≡ group };

    #[tactic(auto, unfolding(crate::specs::View::group_by_of))]
    fn from(group: PoolGroupBy) -> u16 {
        group as u16
    }
}

impl From<PoolingMode> for u16 {
    ghost from_gives = { λ mode number. pooling_mode_of number ≡ mode };

    #[tactic(auto, unfolding(crate::specs::View::pooling_mode_of))]
    fn from(mode: PoolingMode) -> u16 {
        mode as u16
    }
}

impl From<Retrigger> for u16 {
    ghost from_gives = { λ retrigger number. retrigger_of number ≡ retrigger };

    #[tactic(auto, unfolding(crate::specs::View::retrigger_of))]
    fn from(retrigger: Retrigger) -> u16 {
        retrigger as u16
    }
}

impl PoolGroupBy {
    // The number of a note's pool.
    #[tactic(auto, using(arithmetic::proofs::Notes::Bounds::letter_below), unfolding(crate::specs::Pool::pool_of))]
    pub(crate) fn pool_of(self, note: Note) -> usize
        ensures pool { result ≡ pool_of self note.number }
        ensures few { result < 12 }
    {
        match self {
            PoolGroupBy::NoteLetter => note.letter() as usize,
            PoolGroupBy::Channel => 0,
        }
    }
}
