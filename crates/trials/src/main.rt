#![tactic(auto)]

mod files;
mod library;
mod limits;
mod trying;

use crate::trying::{Record, trial};
use std::io;

// The sample file: three questions.
const SAMPLE: [Record; 14] = [
    *b"T\0\0\x01\0\0\0\0",
    *b"T\0\0\x02\0\0\0\0",
    *b"T\0\0\x03\0\0\0\0",
    *b"P=\0\x01\0\0\0\0",
    *b"P=\x01\x02\0\0\0\0",
    *b"E=\0\x02\0\0\0\0",
    *b"AU\0\0\0\0\0\0",
    *b"P=\0\x01\0\0\0\0",
    *b"E=\0\x01\0\0\0\0",
    *b"WU\0\0\0\0\0\0",
    *b"PL\0\x01\x02\0\0\0",
    *b"P<\x01\x02\xfd\0\0\0",
    *b"E<\0\x02\0\0\0\0",
    *b"AD\x03\0\0\0\0\0",
];

// The sample file up to each of its questions.
fn sample_lines(rt: &impl Print) -> io::Result<()> {
    trial(rt, "empty file", &[&SAMPLE[..0]])?;
    trial(rt, "sample, first question", &[&SAMPLE[..7]])?;
    trial(rt, "sample, second question", &[&SAMPLE[..10]])?;
    trial(rt, "sample, third question", &[&SAMPLE])
}

fn main(rt: HostRuntime) -> io::Result<()> {
    sample_lines(&rt)?;
    files::all(&rt)?;
    limits::all(&rt)?;
    library::all(&rt)
}
