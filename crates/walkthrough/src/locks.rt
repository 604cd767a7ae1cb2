use crate::choices::Choice;
use crate::stop::Stop;
use crate::telling::{Statement, Teller, tell_statements};
use book::Book;
use equality::Term;
use std::fmt;
use terms::{Equality, Relation, TermTable};

// The terms of the scene, each by its number in the table. The task awaited is the one that holds the lock that reroute
// waits for: holder(waits(reroute)).
#[derive(Clone, Copy)]
enum Thing {
    Prefetch,
    Render,
    Reroute,
    Cache,
    Running,
    Holder,
    Waits,
    Awaited,
}

// The symbols of the functions `holder` and `waits`, above those of the names.
const HOLDER: u16 = 10;

const WAITS: u16 = 11;

// A name without arguments.
fn named(symbol: u16) -> Term {
    Term {
        symbol,
        ..Term::default()
    }
}

// A function of one argument.
fn of(symbol: u16, argument: Thing) -> Term {
    Term {
        symbol,
        arity: 1,
        left: argument as u8,
        right: 0,
    }
}

// The terms, in the order of their numbers.
fn enter(table: &mut TermTable<'_>) -> Result<(), Stop> {
    let terms = [
        named(1),
        named(2),
        named(3),
        named(4),
        named(5),
        of(HOLDER, Thing::Cache),
        of(WAITS, Thing::Reroute),
        of(HOLDER, Thing::Waits),
    ];
    for term in terms {
        table.add(term)?;
    }
    Ok(())
}

// What may be said of tasks and locks.
#[derive(Clone, Copy)]
struct Claim {
    words: &'static str,
    left: Thing,
    relation: Relation,
    right: Thing,
}

impl fmt::Display for Claim {
    fn fmt<W: fmt::Write>(&self, f: &mut fmt::Formatter<W>) -> fmt::Result {
        f.write_str(self.words)
    }
}

impl Statement<Equality<'_, '_>> for Claim {
    fn fact(self, theory: &Equality<'_, '_>) -> Result<u16, Stop> {
        Ok(theory.fact(self.relation, self.left as u8, self.right as u8)?)
    }
}

// The statements whose choices are told, each at its position.
const PREDICATES: [Claim; 6] = [
    Claim {
        words: "prefetch holds the cache lock: holder(cache) = prefetch",
        left: Thing::Holder,
        relation: Relation::Equal,
        right: Thing::Prefetch,
    },
    Claim {
        words: "render runs: running = render",
        left: Thing::Running,
        relation: Relation::Equal,
        right: Thing::Render,
    },
    Claim {
        words: "reroute waits for the cache lock: waits(reroute) = cache",
        left: Thing::Waits,
        relation: Relation::Equal,
        right: Thing::Cache,
    },
    Claim {
        words: "render holds the cache lock: holder(cache) = render",
        left: Thing::Holder,
        relation: Relation::Equal,
        right: Thing::Render,
    },
    Claim {
        words: "the task that reroute waits for runs: holder(waits(reroute)) = running",
        left: Thing::Awaited,
        relation: Relation::Equal,
        right: Thing::Running,
    },
    Claim {
        words: "prefetch and render are two tasks: prefetch != render",
        left: Thing::Prefetch,
        relation: Relation::Different,
        right: Thing::Render,
    },
];

// The opposite of the last predicate.
const ONE_TASK: Claim = Claim {
    words: "prefetch and render are one task, against 5: prefetch = render",
    left: Thing::Prefetch,
    relation: Relation::Equal,
    right: Thing::Render,
};

// The steps by which the path of the lock inversion with 4 is dropped.
const STEPS: [Claim; 4] = [
    Claim {
        words: "reroute waits for the holder of the cache lock: holder(waits(reroute)) = holder(cache)",
        left: Thing::Awaited,
        relation: Relation::Equal,
        right: Thing::Holder,
    },
    Claim {
        words: "reroute waits for prefetch: holder(waits(reroute)) = prefetch",
        left: Thing::Awaited,
        relation: Relation::Equal,
        right: Thing::Prefetch,
    },
    Claim {
        words: "reroute waits for render: holder(waits(reroute)) = render",
        left: Thing::Awaited,
        relation: Relation::Equal,
        right: Thing::Render,
    },
    ONE_TASK,
];

// What some cases of the first four predicates force.
const GOAL: Claim = Claim {
    words: "reroute waits for a task that does not run: holder(waits(reroute)) != running",
    left: Thing::Awaited,
    relation: Relation::Different,
    right: Thing::Running,
};

// Tells who holds which lock.
pub fn tell(rt: &impl Print, book: &mut Book<'_>) -> Result<(), Stop> {
    let mut rows = [Term::default(); 24];
    let mut table = TermTable::open(&mut rows);
    enter(&mut table)?;
    let theory = Equality::new(&table);
    tell_choices(rt, book, &theory)?;
    tell_goal(rt, book, &theory)
}

// Which statements cannot all be true, and why.
fn tell_choices(
    rt: &impl Print,
    book: &mut Book<'_>,
    theory: &Equality<'_, '_>,
) -> Result<(), Stop> {
    println!(rt; "\nWho holds which lock, by equality of terms:")?;
    tell_statements(rt, &PREDICATES)?;
    let mut teller = Teller::new(rt, book, theory, &PREDICATES)?;
    let answer = teller.ask(&[])?;
    let inversion = Choice(0b100111);
    let contrary = Choice(0b110111);
    teller.tell_minimal(answer)?;
    teller.tell_reading(answer, inversion, "the path of the lock inversion")?;
    teller.tell_reading(answer, contrary, "the same path with 4, because")?;
    teller.tell_steps(contrary, &STEPS)
}

// That prefetch and render are two tasks is granted: the second goal is its opposite.
fn tell_goal(rt: &impl Print, book: &mut Book<'_>, theory: &Equality<'_, '_>) -> Result<(), Stop> {
    let mut teller = Teller::new(rt, book, theory, &PREDICATES[..4])?;
    let wanted = GOAL.fact(theory)?;
    let granted = ONE_TASK.fact(theory)?;
    println!(rt; "\nThe goal: {GOAL}")?;
    println!(rt; "A case says yes to some of 0 to 3 and no to the others; 5 is granted.")?;
    teller.tell_cases(&[wanted, granted], &[granted])
}
