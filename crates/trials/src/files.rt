use crate::trying::{Record, cut_trial, trial};
use std::io;

// A record cut short after each of its bytes, and whole.
fn cut_files(rt: &impl Print) -> io::Result<()> {
    let file = b"T\0\0\x01\0\0\0\0";
    for count in 1..=8 {
        let plural = if count == 1 { "" } else { "s" };
        cut_trial(rt, format_args!("{count} byte{plural}"), &file[..count])?;
    }
    Ok(())
}

// The term with a number in a table of all shapes: by turns a name, one argument and two.
fn term(number: u8) -> Record {
    let (before, second) = (number.saturating_sub(1), number.saturating_sub(2));
    match number % 3 {
        0 => [b'T', 0, 0, number, 0, 0, 0, 0],
        1 => [b'T', 1, 1, 0, before, 0, 0, 0],
        _ => [b'T', 2, 1, 0, before, second, 0, 0],
    }
}

// A term, and the number of one, behind the last that a table has room for.
fn full_tables(rt: &impl Print) -> io::Result<()> {
    let mut terms = [Record::default(); 24];
    for (row, number) in terms.iter_mut().zip(0..24) {
        *row = term(number);
    }
    let ask = [*b"AU\0\0\0\0\0\0"];
    let present = [term(23)];
    let new = [*b"T\0\x01\x01\0\0\0\0"];
    let last = [*b"P=\x17\x17\0\0\0\0"];
    let behind = [*b"P=\x17\x18\0\0\0\0"];
    trial(rt, "24 terms of all shapes", &[&terms, &last, &ask])?;
    trial(rt, "a 25th term", &[&terms, &new, &ask])?;
    trial(
        rt,
        "a present term in a full table",
        &[&terms, &present, &last, &ask],
    )?;
    trial(
        rt,
        "no 25th term in a full table",
        &[&terms, &present, &behind, &ask],
    )
}

pub fn all(rt: &impl Print) -> io::Result<()> {
    cut_files(rt)?;
    full_tables(rt)
}
