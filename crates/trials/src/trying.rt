ghost use Rattle.std.specs.Prelude.{◌≤◌};

use arrayvec::ArrayVec;
use book::Book;
use diagrams::Row;
use equality::Term;
use records::Line;
use session::Session;
use std::convert::Infallible;
use std::fmt::Display;
use std::io;
use std::io::Write;
use terms::TermTable;

// A record of a file.
pub type Record = [u8; 8];

// A trial: its name, and the parts of its file, one after the other.
pub type Trial<'t> = (&'t str, &'t [&'t [Record]]);

// The file of a trial has at most so many bytes: 257 records.
const MOST_BYTES: usize = 2056;

// The last line that a run over a file prints, in so much memory.
fn last_line<const ROWS: usize, const TERMS: usize, const WORK: usize>(file: &[u8]) -> Line
    requires rows { ROWS ≤ 65536 }
    requires terms { TERMS ≤ 65536 }
    requires work { WORK ≤ 65536 }
{
    let mut rows = [Row::default(); ROWS];
    let mut terms = [Term::default(); TERMS];
    let mut work = [0u32; WORK];
    let mut table = TermTable::open(&mut terms);
    let mut book = Book::open(&mut rows);
    let mut session = Session::new(&mut table, &mut book, &mut work);
    let mut last = Line::new();
    let Ok(()) = session.run(file, |line| {
        last = line;
        Ok::<(), Infallible>(())
    });
    last
}

// Prints the name of a trial and its line.
fn show(rt: &impl Print, name: impl Display + Drop, line: &Line) -> io::Result<()> {
    print!(rt; "{name}: ")?;
    match line.text() {
        [] => println!(rt; "nothing"),
        text => rt.write_all(text),
    }
}

// A trial of a file of records.
pub fn trial(rt: &impl Print, name: &str, parts: &[&[Record]]) -> io::Result<()> {
    let mut file = ArrayVec::<u8, MOST_BYTES>::new();
    for part in parts {
        file.write_all(part.as_flattened())?;
    }
    show(rt, name, &last_line::<4096, 24, 16384>(file.as_slice()))
}

// A trial of a file that ends within its first record.
pub fn cut_trial(rt: &impl Print, name: impl Display + Drop, file: &[u8]) -> io::Result<()> {
    show(rt, name, &last_line::<1, 1, 1>(file))
}
