#![tactic(auto)]
// One book for several theories: three questions with a refused one between them, an abstraction and two joins, and then
// which of the answers are equal. It puts to use what is proved of whole runs, as a tool would that compares answers.
ghost use Rattle.std.specs.Prelude.{◌≡◌, List, MatchResult};
ghost use Rattle.theory.specs.Abstraction.{ask, with_opposites};
ghost use Rattle.theory.specs.Means.{meaning};
ghost use Rattle.diagrams.specs.Books.{book_of};
ghost use Rattle.book.specs.Runs.{impossible, Given, Run};
ghost use Rattle.comparison.specs.declared.Stopped.TheVariants.{Question as byQuestion, Join as byJoin};
ghost use Rattle.comparison.specs.Comparing.{Leads, Compared};

pub use book::Inquiry;
use book::{Book, BookFault, QuestionFault};
use diagrams::Operation;
use theory::Theory;

// Which answers have the number of the first question's.
#[derive(Clone, Copy)]
pub struct Comparison {
    pub second: bool,
    pub third: bool,
    pub cases: bool,
    pub union: bool,
    pub intersection: bool,
}

// Why there is no comparison: a call was refused.
#[derive(Clone, Copy, PartialEq, Eq)]
pub enum Stopped {
    Question(QuestionFault),
    Join(BookFault),
}

// Both conversions are written by hand, since the contract of `?` needs `from_gives`.
impl From<QuestionFault> for Stopped {
    ghost from_gives = { λ fault r. r ≡ byQuestion fault };

    fn from(fault: QuestionFault) -> Stopped {
        Stopped::Question(fault)
    }
}

impl From<BookFault> for Stopped {
    ghost from_gives = { λ fault r. r ≡ byJoin fault };

    fn from(fault: BookFault) -> Stopped {
        Stopped::Join(fault)
    }
}

// Asks the three questions, one with no place to work in between them, which is refused, then the first as an abstraction;
// joins the first two answers and the abstraction's; and tells which answers have the number of the first.
pub fn compare<A: Theory, B: Theory, C: Theory>(
    book: &mut Book<'_>,
    first: &Inquiry<'_, A>,
    second: &Inquiry<'_, B>,
    third: &Inquiry<'_, C>,
    work: &mut [u32],
) -> Result<Comparison, Stopped>
    ensures held { book.new.lent.rows.ghost_name ≡ book.old.lent.rows.ghost_name }
    ensures compared { MatchResult result (λ equal. (before : List Given) → Run (book_of book.old.lent.rows.now book.old.lent.count) before → Compared (book_of book.new.lent.rows.now book.new.lent.count) before (impossible (meaning A.Theory first.now.theory.now) (ask first.now.predicates.now first.now.goals.now)) (impossible (meaning B.Theory second.now.theory.now) (ask second.now.predicates.now second.now.goals.now)) (impossible (meaning C.Theory third.now.theory.now) (ask third.now.predicates.now third.now.goals.now)) (impossible (meaning A.Theory first.now.theory.now) (ask (with_opposites (meaning A.Theory first.now.theory.now) first.now.predicates.now) first.now.goals.now)) equal) (λ _. Leads (book_of book.old.lent.rows.now book.old.lent.count) (book_of book.new.lent.rows.now book.new.lent.count)) }
{
    let (one, _) = book.question(first, work)?;
    let (two, _) = book.question(second, work)?;
    let _ = book.question(second, &mut []);
    let (three, _) = book.question(third, work)?;
    let (cases, _) = book.abstraction(first, work)?;
    let union = book.join(Operation::Union, one, two)?;
    let intersection = book.join(Operation::Intersection, union, cases)?;
    Ok(Comparison {
        second: one == two,
        third: one == three,
        cases: one == cases,
        union: one == union,
        intersection: one == intersection,
    })
}
