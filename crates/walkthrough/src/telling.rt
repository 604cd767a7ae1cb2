use crate::choices::Choice;
use crate::stop::Stop;
use arrayvec::ArrayVec;
use book::{Book, Inquiry, QuestionFault};
use std::fmt::Display;
use std::io;
use std::ops::Range;
use theory::Theory;

// What may be said in a theory: its words, and the number of its fact.
pub trait Statement<T>: Copy + Display {
    fn fact(self, theory: &T) -> Result<u16, Stop>;
}

// A teller keeps at most so many predicates: one more than any question takes, so that the book refuses a longer list.
const MOST_PREDICATES: usize = 17;

// An answer is a set of choices, by its number in the book.
#[derive(Clone, Copy)]
pub struct Answer(u16);

// Asks about predicates, which are statements of a theory, and tells what the book answers.
// A lifetime for each reference: with one for all, the checker does not cover what makes a teller, since then "a struct
// holds at one lifetime parameter two references at two lifetimes of the signature".
#[derive(Drop)]
pub struct Teller<'r, 'l, 'b, 't, R, T> {
    rt: &'r R,
    book: &'l mut Book<'b>,
    theory: &'t T,
    predicates: ArrayVec<u16, MOST_PREDICATES>,
}

impl<'r, 'l, 'b, 't, R: Print, T: Theory> Teller<'r, 'l, 'b, 't, R, T> {
    // Takes statements as predicates.
    pub fn new<S: Statement<T>>(
        rt: &'r R,
        book: &'l mut Book<'b>,
        theory: &'t T,
        statements: &[S],
    ) -> Result<Self, Stop> {
        let mut predicates = ArrayVec::new();
        for statement in statements {
            let fact = statement.fact(theory)?;
            let _kept = predicates.try_push(fact);
        }
        Ok(Teller {
            rt,
            book,
            theory,
            predicates,
        })
    }
}

impl<R: Print, T: Theory> Teller<'_, '_, '_, '_, R, T> {
    // Which choices of the predicates are impossible while every goal is false.
    pub fn ask(&mut self, goals: &[u16]) -> Result<Answer, Stop> {
        self.answer(goals, |book, inquiry, work| book.question(inquiry, work))
    }

    // Which full cases of the predicates force some goal to be true.
    fn ask_cases(&mut self, goals: &[u16]) -> Result<Answer, Stop> {
        self.answer(goals, |book, inquiry, work| book.abstraction(inquiry, work))
    }

    // What the book answers, asked in one of its two ways.
    fn answer<F>(&mut self, goals: &[u16], asked: F) -> Result<Answer, Stop>
    where
        F: FnOnce(&mut Book<'_>, &Inquiry<'_, T>, &mut [u32]) -> Result<(u16, u16), QuestionFault>,
        requires { F.IsAlwaysCallable asked }
    {
        let inquiry = Inquiry {
            theory: self.theory,
            predicates: self.predicates.as_slice(),
            goals,
        };
        let mut work = [0u32; 8192];
        let (number, _) = asked(self.book, &inquiry, &mut work)?;
        Ok(Answer(number))
    }

    // The choices of the predicates, by their bits.
    fn choices(&self) -> Range<u16> {
        0..1 << self.predicates.len().min(8)
    }

    // Whether the choice belongs to the answer.
    fn reads(&self, answer: Answer, choice: Choice) -> Result<bool, Stop> {
        Ok(self.book.read(answer.0, choice.0)?)
    }

    // Whether the choice belongs to the answer while no choice with one position less does.
    fn is_minimal(&self, answer: Answer, choice: Choice) -> Result<bool, Stop> {
        for position in (0..16).filter(|position| choice.has(*position)) {
            if self.reads(answer, choice.without(position))? {
                return Ok(false);
            }
        }
        self.reads(answer, choice)
    }

    // The choice without the positions that it can do without and still belong.
    fn least(&self, answer: Answer, choice: Choice) -> Result<Choice, Stop> {
        (0..16).try_fold(choice, |least, position| {
            let fewer = least.without(position);
            Ok(if self.reads(answer, fewer)? {
                fewer
            } else {
                least
            })
        })
    }

    // The minimal choices of an answer.
    pub fn tell_minimal(&self, answer: Answer) -> Result<(), Stop> {
        for choice in self.choices().map(Choice) {
            if self.is_minimal(answer, choice)? {
                println!(self.rt;
                    "  impossible, and possible with any one of them left out:{choice}"
                )?;
            }
        }
        Ok(())
    }

    // What the answer says of one choice.
    pub fn tell_reading(&self, answer: Answer, choice: Choice, words: &str) -> Result<(), Stop> {
        let verdict = if self.reads(answer, choice)? {
            "dropped"
        } else {
            "kept"
        };
        println!(self.rt; "  {verdict}:{choice}, {words}")?;
        Ok(())
    }

    // The steps of the reasoning by which a choice is dropped. Each is asked as a goal, and told with the least positions of
    // the choice that it follows from.
    pub fn tell_steps<S: Statement<T>>(&mut self, choice: Choice, steps: &[S]) -> Result<(), Stop> {
        for step in steps {
            let answer = self.ask(&[step.fact(self.theory)?])?;
            if self.reads(answer, choice)? {
                let enough = self.least(answer, choice)?;
                println!(self.rt; "    from{enough}: {step}")?;
            } else {
                println!(self.rt; "    not from{choice}: {step}")?;
            }
        }
        Ok(())
    }

    // The full cases that force a goal. One that is impossible by the goals granted alone cannot occur; a statement is
    // granted by a goal that is its opposite, which stands among the goals too.
    pub fn tell_cases(&mut self, goals: &[u16], granted: &[u16]) -> Result<(), Stop> {
        let forced = self.ask_cases(goals)?;
        let absurd = self.ask_cases(granted)?;
        for case in self.choices().map(Choice) {
            let full = case.full_case(self.predicates.len());
            if self.reads(absurd, full)? {
                println!(self.rt; "  cannot occur: only{case}")?;
            } else if self.reads(forced, full)? {
                println!(self.rt; "  forces the goal: only{case}")?;
            }
        }
        Ok(())
    }
}

// The statements, each with its number.
pub fn tell_statements<S: Display>(rt: &impl Print, statements: &[S]) -> io::Result<()> {
    for (position, statement) in statements.iter().enumerate() {
        println!(rt; "  {position}  {statement}")?;
    }
    Ok(())
}
