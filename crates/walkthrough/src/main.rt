#![tactic(auto)]

mod choices;
mod deadlines;
mod locks;
mod stop;
mod telling;

use crate::stop::Stop;
use book::Book;
use diagrams::Row;
use std::io;

// What it is about, in four lines.
fn introduce(rt: &impl Print) -> io::Result<()> {
    println!(rt;
        "A navigation unit. The tile prefetch, of low priority, holds the cache lock; the map"
    )?;
    println!(rt;
        "rendering runs; an urgent reroute waits behind both. What can be true together?"
    )?;
    println!(rt;
        "A choice is a set of statements, by their numbers. It is dropped if they cannot all"
    )?;
    println!(rt; "be true, and kept otherwise.")
}

// The walkthrough, over one book.
fn walk(rt: &impl Print) -> Result<(), Stop> {
    let mut rows = [Row::default(); 4096];
    let mut book = Book::open(&mut rows);
    introduce(rt)?;
    locks::tell(rt, &mut book)?;
    deadlines::tell(rt, &mut book)
}

// A refusal is told in a line; where printing fails, the program does.
fn main(rt: HostRuntime) -> io::Result<()> {
    match walk(&rt) {
        Err(Stop::Printing(error)) => Err(error),
        Err(refusal) => println!(rt; "{refusal}"),
        Ok(()) => Ok(()),
    }
}
