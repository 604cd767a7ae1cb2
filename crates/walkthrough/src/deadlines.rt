use crate::choices::Choice;
use crate::stop::Stop;
use crate::telling::{Statement, Teller, tell_statements};
use book::Book;
use differences::{Bound, Differences};
use std::fmt;

// The ticks of the scene, each a variable: prefetch takes the lock, render starts, the lock is free, reroute is asked
// for, starts, and is done.
#[derive(Clone, Copy)]
enum Tick {
    Prefetch,
    Render,
    Free,
    Asked,
    Reroute,
    Done,
}

// How many ticks there are.
const TICKS: u8 = 6;

// What may be said of starts and deadlines: how the left tick is bounded by the right one plus the constant.
#[derive(Clone, Copy)]
struct Claim {
    words: &'static str,
    left: Tick,
    bound: Bound,
    right: Tick,
    constant: i8,
}

impl fmt::Display for Claim {
    fn fmt<W: fmt::Write>(&self, f: &mut fmt::Formatter<W>) -> fmt::Result {
        f.write_str(self.words)
    }
}

impl Statement<Differences> for Claim {
    fn fact(self, theory: &Differences) -> Result<u16, Stop> {
        Ok(theory.fact(self.bound, self.left as u8, self.right as u8, self.constant)?)
    }
}

// The statements whose choices are told, each at its position.
const PREDICATES: [Claim; 8] = [
    Claim {
        words: "render runs first, at least 9 ticks before the lock is free: render <= free - 9",
        left: Tick::Render,
        bound: Bound::AtMost,
        right: Tick::Free,
        constant: -9,
    },
    Claim {
        words: "reroute starts once the lock is free: free <= reroute",
        left: Tick::Free,
        bound: Bound::AtMost,
        right: Tick::Reroute,
        constant: 0,
    },
    Claim {
        words: "reroute takes at least 4 ticks: reroute <= done - 4",
        left: Tick::Reroute,
        bound: Bound::AtMost,
        right: Tick::Done,
        constant: -4,
    },
    Claim {
        words: "reroute is asked for by the time render starts: asked <= render",
        left: Tick::Asked,
        bound: Bound::AtMost,
        right: Tick::Render,
        constant: 0,
    },
    Claim {
        words: "reroute meets its deadline, 12 ticks after it is asked for: done <= asked + 12",
        left: Tick::Done,
        bound: Bound::AtMost,
        right: Tick::Asked,
        constant: 12,
    },
    Claim {
        words: "prefetch goes first, render starts once the lock is free: free <= render",
        left: Tick::Free,
        bound: Bound::AtMost,
        right: Tick::Render,
        constant: 0,
    },
    Claim {
        words: "prefetch holds the lock for at least 5 ticks: prefetch <= free - 5",
        left: Tick::Prefetch,
        bound: Bound::AtMost,
        right: Tick::Free,
        constant: -5,
    },
    Claim {
        words: "render starts at most 3 ticks after prefetch: render <= prefetch + 3",
        left: Tick::Render,
        bound: Bound::AtMost,
        right: Tick::Prefetch,
        constant: 3,
    },
];

// The steps by which the lock inversion with the deadline met is dropped.
const STEPS: [Claim; 4] = [
    Claim {
        words: "reroute starts at least 9 ticks after render: render <= reroute - 9",
        left: Tick::Render,
        bound: Bound::AtMost,
        right: Tick::Reroute,
        constant: -9,
    },
    Claim {
        words: "reroute is done at least 13 ticks after render starts: render <= done - 13",
        left: Tick::Render,
        bound: Bound::AtMost,
        right: Tick::Done,
        constant: -13,
    },
    Claim {
        words: "reroute is done at least 13 ticks after it is asked for: asked <= done - 13",
        left: Tick::Asked,
        bound: Bound::AtMost,
        right: Tick::Done,
        constant: -13,
    },
    Claim {
        words: "reroute is asked for before it is asked for: asked <= asked - 1",
        left: Tick::Asked,
        bound: Bound::AtMost,
        right: Tick::Asked,
        constant: -1,
    },
];

// What some cases of the first four predicates force.
const GOAL: Claim = Claim {
    words: "reroute misses its deadline: asked < done - 12",
    left: Tick::Asked,
    bound: Bound::Below,
    right: Tick::Done,
    constant: -12,
};

// Tells of starts and deadlines.
pub fn tell(rt: &impl Print, book: &mut Book<'_>) -> Result<(), Stop> {
    let theory = Differences::new(TICKS)?;
    tell_choices(rt, book, &theory)?;
    tell_goal(rt, book, &theory)
}

// Which statements cannot all be true, and why.
fn tell_choices(rt: &impl Print, book: &mut Book<'_>, theory: &Differences) -> Result<(), Stop> {
    println!(rt; "\nStarts and deadlines, by differences of ticks:")?;
    tell_statements(rt, &PREDICATES)?;
    let mut teller = Teller::new(rt, book, theory, &PREDICATES)?;
    let answer = teller.ask(&[])?;
    let inversion = Choice(0b1111);
    let inherited = Choice(0b1111110);
    let contrary = Choice(0b11111);
    teller.tell_minimal(answer)?;
    teller.tell_reading(answer, inversion, "the path of the lock inversion")?;
    teller.tell_reading(
        answer,
        inherited,
        "the deadline met when prefetch goes first",
    )?;
    teller.tell_reading(
        answer,
        contrary,
        "the lock inversion with the deadline met, because",
    )?;
    teller.tell_steps(contrary, &STEPS)
}

// Which cases make reroute miss its deadline.
fn tell_goal(rt: &impl Print, book: &mut Book<'_>, theory: &Differences) -> Result<(), Stop> {
    let mut teller = Teller::new(rt, book, theory, &PREDICATES[..4])?;
    let wanted = GOAL.fact(theory)?;
    println!(rt; "\nThe goal: {GOAL}")?;
    println!(rt; "A case says yes to some of 0 to 3 and no to the others.")?;
    teller.tell_cases(&[wanted], &[])
}
