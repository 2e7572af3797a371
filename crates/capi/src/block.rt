// The blocks of the caller's memory (`include/tarvoued.h`). Every content of a block is some tuner, and some model (SPEC 12.1).

use plan_tuner::aot::AotTuner;
use senders::jit::JitTuner;

pub type Plan = AotTuner;

const _: () = prove!(size_of::<Plan>() == 324 * 8 && align_of::<Plan>() == 8);

pub type Pool = JitTuner;

const _: () = prove!(size_of::<Pool>() == 677 * 2 && align_of::<Pool>() == 2);
