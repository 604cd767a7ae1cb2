use arrayvec::ArrayString;
use book::{Book, Inquiry};
use diagrams::Row;
use differences::{Bound, Differences};
use equality::Term;
use std::fmt::Write;
use std::io;
use terms::{Equality, Relation, TermTable};
use theory::{Refusal, Theory};

// A call was refused that no trial expects to be.
fn refused<F: Refusal>(fault: F) -> io::Error {
    let mut words = ArrayString::<16>::new();
    match write!(words, "refused {}", fault.number()) {
        Ok(()) => io::Error::other(words.as_str()),
        Err(error) => error.into(),
    }
}

// Asks in these rows and numbers to work in, and prints the choices that belong and the rows in use, or the refusal.
fn ask<T: Theory>(
    rt: &impl Print,
    name: &str,
    inquiry: &Inquiry<'_, T>,
    rows: &mut [Row],
    work: &mut [u32],
) -> io::Result<()> {
    let mut book = Book::open(rows);
    let (number, _) = match book.question(inquiry, work) {
        Ok(answer) => answer,
        Err(fault) => return println!(rt; "{name}: refused {}", fault.number()),
    };
    print!(rt; "{name}: rows {}, choices", book.rows_in_use())?;
    for choice in 0..1u16 << inquiry.predicates.len().min(8) {
        if book.read(number, choice).map_err(refused)? {
            print!(rt; " {choice}")?;
        }
    }
    println!(rt; ".")
}

// A question: its name, its predicates and its goals.
type Case<'c> = (&'c str, &'c [u16], &'c [u16]);

// Asks each question with room enough. It is not inlined, so that this room lies on the stack only while it asks.
#[inline(never)]
fn ask_all<T: Theory>(rt: &impl Print, theory: &T, cases: &[Case<'_>]) -> io::Result<()> {
    for (name, predicates, goals) in cases {
        let mut rows = [Row::default(); 4096];
        let mut work = [0u32; 8192];
        let inquiry = Inquiry {
            theory,
            predicates,
            goals,
        };
        ask(rt, name, &inquiry, &mut rows, &mut work)?;
    }
    Ok(())
}

// A term of a symbol and its arguments, of which an unused one is 0.
fn term(symbol: u16, arity: u8, left: u8, right: u8) -> Term {
    Term {
        symbol,
        arity,
        left,
        right,
    }
}

// The terms a, b, c, d, f(a), f(b), f(a, c) and f(b, c), in the order of their numbers.
fn eight_terms() -> [Term; 8] {
    [
        term(1, 0, 0, 0),
        term(2, 0, 0, 0),
        term(3, 0, 0, 0),
        term(4, 0, 0, 0),
        term(9, 1, 0, 0),
        term(9, 1, 1, 0),
        term(9, 2, 0, 2),
        term(9, 2, 1, 2),
    ]
}

// Adds terms, none of which is refused.
fn add_all(table: &mut TermTable<'_>, terms: &[Term]) -> io::Result<()> {
    for term in terms {
        table.add(*term).map_err(refused)?;
    }
    Ok(())
}

// The fact that two terms are equal.
fn equal(theory: &Equality<'_, '_>, left: u8, right: u8) -> io::Result<u16> {
    theory.fact(Relation::Equal, left, right).map_err(refused)
}

// What equalities follow from others.
fn equalities(rt: &impl Print) -> io::Result<()> {
    let mut rows = [Term::default(); 24];
    let mut table = TermTable::open(&mut rows);
    add_all(&mut table, &eight_terms())?;
    let theory = Equality::new(&table);
    let a_b = equal(&theory, 0, 1)?;
    let five = [
        a_b,
        equal(&theory, 0, 2)?,
        equal(&theory, 1, 2)?,
        equal(&theory, 1, 3)?,
        equal(&theory, 2, 3)?,
    ];
    ask_all(
        rt,
        &theory,
        &[
            ("a = b, goal b = a", &[a_b], &[equal(&theory, 1, 0)?]),
            ("nothing, goal a = a", &[], &[equal(&theory, 0, 0)?]),
            ("a = b, goal f(a) = f(b)", &[a_b], &[equal(&theory, 4, 5)?]),
            (
                "a = b, goal f(a, c) = f(b, c)",
                &[a_b],
                &[equal(&theory, 6, 7)?],
            ),
            (
                "a = b, goal f(a) = f(b, c)",
                &[a_b],
                &[equal(&theory, 4, 7)?],
            ),
            ("a = b, goal a = c", &[a_b], &[equal(&theory, 0, 2)?]),
            (
                "a = b, a = c, b = c, b = d, c = d, goal a = d",
                &five,
                &[equal(&theory, 0, 3)?],
            ),
        ],
    )
}

// What bounds follow from others, and which cannot all hold.
fn bounds(rt: &impl Print) -> io::Result<()> {
    let theory = Differences::new(3).map_err(refused)?;
    let at_most = |left, right, constant| {
        theory
            .fact(Bound::AtMost, left, right, constant)
            .map_err(refused)
    };
    let below = |left, right, constant| {
        theory
            .fact(Bound::Below, left, right, constant)
            .map_err(refused)
    };
    let chain = [at_most(0, 1, 2)?, below(1, 2, -3)?];
    let pair = [at_most(0, 1, -15)?, at_most(1, 0, -15)?];
    let ring = [at_most(0, 1, 15)?, at_most(1, 2, -8)?, at_most(2, 0, -8)?];
    ask_all(
        rt,
        &theory,
        &[
            ("x < x + 0", &[below(0, 0, 0)?], &[]),
            ("x <= x + 0", &[at_most(0, 0, 0)?], &[]),
            (
                "x <= y + 2, y < z - 3, goal x < z",
                &chain,
                &[below(0, 2, 0)?],
            ),
            ("x <= y - 15, y <= x - 15", &pair, &[]),
            ("x <= y + 15, y <= z - 8, z <= x - 8", &ring, &[]),
        ],
    )
}

// The first question of the sample, a = b, b = c, goal a = c, in the least room that it needs and in less. The last
// two books are opened in the rows that the first one used.
fn rooms(rt: &impl Print) -> io::Result<()> {
    let mut terms = [Term::default(); 3];
    let mut table = TermTable::open(&mut terms);
    add_all(&mut table, &eight_terms()[..3])?;
    let theory = Equality::new(&table);
    let inquiry = Inquiry {
        theory: &theory,
        predicates: &[equal(&theory, 0, 1)?, equal(&theory, 1, 2)?],
        goals: &[equal(&theory, 0, 2)?],
    };
    let mut three = [Row::default(); 3];
    let mut two = [Row::default(); 2];
    let mut enough = [0u32; 38];
    let mut short = [0u32; 37];
    ask(rt, "13: 3 rows", &inquiry, &mut three, &mut enough)?;
    ask(rt, "13: 2 rows", &inquiry, &mut two, &mut enough)?;
    ask(
        rt,
        "12: 38 numbers to work in for 18 facts",
        &inquiry,
        &mut three,
        &mut enough,
    )?;
    ask(
        rt,
        "12: 37 numbers to work in for 18 facts",
        &inquiry,
        &mut three,
        &mut short,
    )
}

// The last fact of three terms, and the number behind it.
fn facts(rt: &impl Print) -> io::Result<()> {
    let mut terms = [Term::default(); 3];
    let mut table = TermTable::open(&mut terms);
    add_all(&mut table, &eight_terms()[..3])?;
    let theory = Equality::new(&table);
    ask_all(
        rt,
        &theory,
        &[
            ("11: the last of 18 facts", &[17], &[]),
            ("11: a predicate that is no fact", &[18], &[]),
            ("11: a goal that is no fact", &[], &[18]),
        ],
    )
}

// A book in which nothing is in use holds 0 and 1.
fn readings(rt: &impl Print) -> io::Result<()> {
    let mut rows = [Row::default(); 1];
    let book = Book::open(&mut rows);
    for number in 0..3 {
        match book.read(number, 0) {
            Ok(belongs) => println!(rt; "14: {number} in an empty book: {belongs}")?,
            Err(fault) => println!(rt;
                "14: {number} in an empty book: refused {}",
                fault.number()
            )?,
        }
    }
    Ok(())
}

pub fn all(rt: &impl Print) -> io::Result<()> {
    equalities(rt)?;
    bounds(rt)?;
    rooms(rt)?;
    facts(rt)?;
    readings(rt)
}
