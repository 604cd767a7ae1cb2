#![tactic(auto)]

use book::Book;
use diagrams::Row;
use equality::Term;
use session::Session;
use std::io::{Read, Write};
use terms::TermTable;

// Prints the lines of a run over the records.
fn serve(rt: &HostRuntime, records: &[u8]) -> anyhow::Result<()> {
    let mut rows = [Row::default(); 4096];
    let mut terms = [Term::default(); 24];
    let mut work = [0u32; 16384];
    let mut table = TermTable::open(&mut terms);
    let mut book = Book::open(&mut rows);
    let mut session = Session::new(&mut table, &mut book, &mut work);
    let mut out = rt.stdout();
    session.run(records, |line| out.write_all(line.text()))?;
    Ok(())
}

fn main(rt: HostRuntime) -> anyhow::Result<()> {
    let mut records = Vec::new(rt.alloc());
    rt.stdin().read_to_end(&mut records)?;
    serve(&rt, &records)
}
