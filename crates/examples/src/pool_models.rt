// A pool model, SPEC 7.
use crate::{answered, example};
use arithmetic::pitch::Pitch;
use pools::jit::{JitTuningModel, PoolGroupBy, PoolingMode, Retrigger};
use printing::answers::{At, Held, Listed, Or, Pressed, Retuned};
use printing::decimal::Form::CutOff;
use std::io;
use std::io::Write;

pub fn all(out: &mut impl Write) -> io::Result<()> {
    open(out)?;
    presses(out)?;
    retriggered(out)?;
    none_free(out)?;
    lookups(out)?;
    releases(out)?;
    repitch(out)?;
    of_two_channels(out)
}

fn of(channels: &[u8], pooling_mode: PoolingMode) -> JitTuningModel {
    JitTuningModel::open(channels, PoolGroupBy::Channel, pooling_mode, Retrigger::Off).0
}

// A model of one channel in which key 1 is held for 440 Hz.
fn held(pooling_mode: PoolingMode) -> JitTuningModel {
    of(&[0], pooling_mode).pressed(1, Pitch::from_hz(440.0)).0
}

// What a press of a key answers.
fn press(
    out: &mut impl Write,
    question: &str,
    model: JitTuningModel,
    key: u8,
    hz: f64,
) -> io::Result<()> {
    let (_, answer) = model.pressed(key, Pitch::from_hz(hz));
    answered(out, question, answer.map(|press| Pressed(press, CutOff)))
}

fn open(out: &mut impl Write) -> io::Result<()> {
    let (_, answer) = JitTuningModel::open(
        &[0, 16],
        PoolGroupBy::Channel,
        PoolingMode::Stop,
        Retrigger::Off,
    );
    answered(
        out,
        "JitTuningModel::open([0, 16], Channel, Stop, Off)",
        answer.map(Listed),
    )
}

fn presses(out: &mut impl Write) -> io::Result<()> {
    press(
        out,
        "open([0], Channel, Stop, Off); register_key(1, 445 Hz)",
        of(&[0], PoolingMode::Stop),
        1,
        445.0,
    )?;
    press(
        out,
        "open([0], Channel, Stop, Off); register_key(1, 440 Hz); register_key(1, 440 Hz)",
        held(PoolingMode::Stop),
        1,
        440.0,
    )
}

// A press of a held key of a model with retrigger.
fn retriggered(out: &mut impl Write) -> io::Result<()> {
    let (model, _) = JitTuningModel::open(
        &[0],
        PoolGroupBy::Channel,
        PoolingMode::Stop,
        Retrigger::On,
    );
    press(
        out,
        "open([0], Channel, Stop, On); register_key(1, 55 Hz); register_key(1, 55 Hz)",
        model.pressed(1, Pitch::from_hz(55.0)).0,
        1,
        55.0,
    )
}

fn none_free(out: &mut impl Write) -> io::Result<()> {
    press(
        out,
        "open([0], Channel, Stop, Off); register_key(1, 440 Hz); register_key(2, 880 Hz)",
        held(PoolingMode::Stop),
        2,
        880.0,
    )?;
    press(
        out,
        "open([0], Channel, Block, Off); register_key(1, 440 Hz); register_key(2, 880 Hz)",
        held(PoolingMode::Block),
        2,
        880.0,
    )
}

fn lookups(out: &mut impl Write) -> io::Result<()> {
    let mut model = held(PoolingMode::Stop);
    example(
        out,
        "open([0], Channel, Stop, Off); register_key(1, 440 Hz); access_key(1)",
        Or(model.access_key(1).map(At::from), "not found"),
    )?;
    example(
        out,
        "open([0], Channel, Stop, Off); register_key(1, 440 Hz); next_key(0)",
        Or(model.next_key(0).map(Held), "no key"),
    )?;
    model.stop();
    example(
        out,
        "open([0], Channel, Stop, Off); register_key(1, 440 Hz); stop(); access_key(1)",
        Or(model.access_key(1).map(At::from), "not found"),
    )
}

fn releases(out: &mut impl Write) -> io::Result<()> {
    let mut model = held(PoolingMode::Stop);
    example(
        out,
        "open([0], Channel, Stop, Off); register_key(1, 440 Hz); deregister_key(1)",
        Or(model.deregister_key(1).map(At::from), "not found"),
    )
}

fn repitch(out: &mut impl Write) -> io::Result<()> {
    let model = held(PoolingMode::Stop);
    let repitched = model
        .repitch_key(1, Pitch::from_hz(445.0))
        .map(|repitched| Or(
            repitched.map(|repitched| Retuned(repitched, CutOff)),
            "not found",
        ));
    answered(
        out,
        "open([0], Channel, Stop, Off); register_key(1, 440 Hz); repitch_key(1, 445 Hz)",
        repitched,
    )
}

// What a press would answer, and what it answers.
fn of_two_channels(out: &mut impl Write) -> io::Result<()> {
    let model = of(&[0, 1], PoolingMode::Stop);
    let would = model
        .allocate_key(1, Pitch::from_hz(445.0))
        .map(|press| Pressed(press, CutOff));
    answered(
        out,
        "open([0, 1], Channel, Stop, Off); allocate_key(1, 445 Hz)",
        would,
    )?;
    press(
        out,
        "open([0, 1], Channel, Stop, Off); register_key(1, 445 Hz)",
        model,
        1,
        445.0,
    )
}
