// What the words of a line stand for.

use crate::line::Line;
use arithmetic::pitch::Pitch;
use channels::tuning_value::TuningKind;
use plans::aot::GroupBy;
use pools::jit::{PoolGroupBy, PoolingMode};
use std::alloc::{AllocError, Global};

const CHANNELS: [u8; 16] = [0, 1, 2, 3, 4, 5, 6, 7, 8, 9, 10, 11, 12, 13, 14, 15];

// So many channels from 0.
pub fn first_channels(count: &str) -> Option<&'static [u8]> {
    CHANNELS.get(..count.parse().ok()?)
}

pub fn byte(number: &str) -> Option<u8> {
    number.parse().ok()
}

// A number of at most 32 bits, as the list has no other.
pub fn float(number: &str) -> Option<f64> {
    let whole: u32 = number.parse().ok()?;
    Some(whole as f64)
}

pub fn hertz(millihertz: &str) -> Option<f64> {
    Some(float(millihertz)? / 1000.0)
}

pub fn pitch_of(millihertz: &str) -> Option<Pitch> {
    Some(Pitch::from_hz(hertz(millihertz)?))
}

pub fn group(name: &str) -> Option<GroupBy> {
    match name {
        "Note" => Some(GroupBy::Note),
        "NoteLetter" => Some(GroupBy::NoteLetter),
        "Channel" => Some(GroupBy::Channel),
        _ => None,
    }
}

pub fn pool_group(name: &str) -> Option<PoolGroupBy> {
    match name {
        "NoteLetter" => Some(PoolGroupBy::NoteLetter),
        "Channel" => Some(PoolGroupBy::Channel),
        _ => None,
    }
}

pub fn mode(name: &str) -> Option<PoolingMode> {
    match name {
        "Block" => Some(PoolingMode::Block),
        "Stop" => Some(PoolingMode::Stop),
        "Ignore" => Some(PoolingMode::Ignore),
        _ => None,
    }
}

pub fn tuning_kind(name: &str) -> Option<TuningKind> {
    match name {
        "FineTuning" => Some(TuningKind::FineTuning),
        "Bend" => Some(TuningKind::Bend),
        _ => None,
    }
}

// What the heading of a pool says behind "pool", or of a pool tuner behind "pool tuner".
#[derive(Drop)]
pub struct PoolSettings<'a> {
    pub by: &'a str,
    pub mode: PoolingMode,
    pub channels: &'static [u8],
}

pub fn pool_settings<'a>(words: &[&'a str]) -> Option<PoolSettings<'a>> {
    match *words {
        ["by", by, "mode", pooling_mode, "channels", count] => {
            let mode = mode(pooling_mode)?;
            let channels = first_channels(count)?;
            Some(PoolSettings { by, mode, channels })
        }
        _ => None,
    }
}

// The key of a plan's line, and its pitch in Hz.
pub fn key_of(words: &[&str]) -> Option<(u8, f64)> {
    match *words {
        ["key", key, "at", pitch, "mHz", ..] => Some((byte(key)?, hertz(pitch)?)),
        _ => None,
    }
}

// The keys of a plan, and their pitches.
pub fn keys_of(lines: &[Line<'_>], alloc: Global) -> Result<(Vec<u8>, Vec<f64>), AllocError> {
    let mut keys = Vec::new(alloc);
    let mut pitches = Vec::new(alloc);
    for line in lines {
        if let Some((key, pitch)) = key_of(&line.words) {
            keys.push(key)?;
            pitches.push(pitch)?;
        }
    }
    Ok((keys, pitches))
}
