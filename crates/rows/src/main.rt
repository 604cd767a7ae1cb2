#![tactic(auto)]

use book::Book;
use diagrams::Row;
use equality::Term;
use session::Session;
use std::convert::Infallible;
use std::io::Read;
use terms::TermTable;

// How many rows are in use after a run over the records, of which no line is printed.
fn rows_after(records: &[u8]) -> u16 {
    let mut rows = [Row::default(); 4096];
    let mut terms = [Term::default(); 24];
    let mut work = [0u32; 16384];
    let mut table = TermTable::open(&mut terms);
    let mut book = Book::open(&mut rows);
    let mut session = Session::new(&mut table, &mut book, &mut work);
    let Ok(()) = session.run::<Infallible, _>(records, |_| Ok(()));
    session.rows_in_use()
}

fn main(rt: HostRuntime) -> anyhow::Result<()> {
    let mut records = Vec::new(rt.alloc());
    rt.stdin().read_to_end(&mut records)?;
    println!(rt; "{}", rows_after(&records))?;
    Ok(())
}
