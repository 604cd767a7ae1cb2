ghost use Rattle.std.specs.Prelude.{◌≡◌, ◌<◌, [], IfSome, IsSome, IfOk, OnErr, is_ok, is_some, if◌then◌else◌};
ghost use Rattle.arrayvec.specs.ArrayVec.{array_vec_len};
ghost use Rattle.records.specs.Pending.{predicates_of, goals_of};
ghost use Rattle.records.specs.Records.{record_of};
ghost use Rattle.session.specs.Taking.{facts_refused, first_refusal, predicates_after, goals_after, asks, Accepted, TableAfter};

use crate::answers::{Answer, abstraction, first_ordinal, question};
use crate::faults::Fault;
use crate::stated::{Stated, facts_of};
use arrayvec::ArrayVec;
use book::{Book, Inquiry, QuestionFault};
use differences::Differences;
use equality::Term;
use records::{Line, Pending, Record, RecordFault, TheoryName, answer_line, read};
use terms::{Equality, TermTable};

// A session numbers at most so many answers.
const MOST_ANSWERS: usize = 256;

// How far a session has come: what waits for the next question, and the numbers of the answers given so far.
#[derive(Drop)]
pub struct Progress {
    pending: Pending,
    answers: ArrayVec<u16, MOST_ANSWERS>,
}

impl Progress {
    // Nothing asked and nothing waiting.
    pub fn new() -> Progress
        ensures waiting { (predicates_of result.pending ≡ []) × (goals_of result.pending ≡ []) }
        ensures answers { result.answers.items ≡ [] }
    {
        Progress {
            pending: Pending::new(),
            answers: ArrayVec::new(),
        }
    }

    // Takes one record over a table and a book, which are lent for this call alone: nothing to print for a term, a predicate
    // or a goal, the answer's line for a question or an abstraction. A refused record leaves what waits.
    pub fn take(
        &mut self,
        table: &mut TermTable<'_>,
        book: &mut Book<'_>,
        work: &mut [u32],
        bytes: &[u8],
    ) -> Result<Option<Line>, Fault>
        ensures refused { IfSome (first_refusal self.old table.old.lent.count (record_of bytes.now)) (λ fault. result ≡ Err fault) }
        ensures accepted { Accepted (record_of bytes.now) (first_refusal self.old table.old.lent.count (record_of bytes.now)) result }
        ensures table { TableAfter (record_of bytes.now) table.old.lent.rows.now table.old.lent.count table.new.lent.rows.now table.new.lent.count result }
        ensures predicates { predicates_of self.new.pending ≡ (if is_ok result then predicates_after (record_of bytes.now) (predicates_of self.old.pending) else predicates_of self.old.pending) }
        ensures goals { goals_of self.new.pending ≡ (if is_ok result then goals_after (record_of bytes.now) (goals_of self.old.pending) else goals_of self.old.pending) }
        ensures answers { OnErr result (self.new.answers.items ≡ self.old.answers.items) }
        ensures line { IfOk result (λ line. is_some line ≡ asks (record_of bytes.now)) }
    {
        match read(bytes)? {
            Record::Term {
                arity,
                symbol,
                left,
                right,
            } => {
                table.add(Term {
                    symbol,
                    arity,
                    left,
                    right,
                })?;
                Ok(None)
            }
            Record::Predicate(statement) => {
                self.pending.add_predicate(statement)?;
                Ok(None)
            }
            Record::Goal(statement) => {
                self.pending.add_goal(statement)?;
                Ok(None)
            }
            Record::Question(_) | Record::Abstraction(_) if self.answers.is_full() => {
                Err(RecordFault::TooManyAnswers.into())
            }
            Record::Question(TheoryName::Terms) => {
                self.answer(book, work, &Equality::new(table), question)
            }
            Record::Question(TheoryName::Differences(variables)) => {
                self.answer(book, work, &Differences::new(variables)?, question)
            }
            Record::Abstraction(TheoryName::Terms) => {
                self.answer(book, work, &Equality::new(table), abstraction)
            }
            Record::Abstraction(TheoryName::Differences(variables)) => {
                self.answer(book, work, &Differences::new(variables)?, abstraction)
            }
        }
    }

    // Asks what waits, and gives the answer's line.
    fn answer<
        T: Stated,
        F: FnOnce(&mut Book<'_>, &Inquiry<'_, T>, &mut [u32]) -> Result<Answer, QuestionFault>,
    >(
        &mut self,
        book: &mut Book<'_>,
        work: &mut [u32],
        theory: &T,
        ask: F,
    ) -> Result<Option<Line>, Fault>
        requires room { array_vec_len self.old.answers < 256 }
        requires ask { F.IsAlwaysCallable ask }
        ensures refused { IfSome (facts_refused (T.stated theory.now) (predicates_of self.old.pending) (goals_of self.old.pending)) (λ fault. result ≡ Err fault) }
        ensures predicates { predicates_of self.new.pending ≡ (if is_ok result then [] else predicates_of self.old.pending) }
        ensures goals { goals_of self.new.pending ≡ (if is_ok result then [] else goals_of self.old.pending) }
        ensures line { IfOk result IsSome }
        ensures answers { OnErr result (self.new.answers.items ≡ self.old.answers.items) }
    {
        let predicates = facts_of::<T, 16>(theory, self.pending.predicates())?;
        let goals = facts_of::<T, 8>(theory, self.pending.goals())?;
        let inquiry = Inquiry {
            theory,
            predicates: predicates.as_slice(),
            goals: goals.as_slice(),
        };
        let answer = ask(book, &inquiry, work)?;
        Ok(Some(self.note(book, answer)))
    }

    // Gives the answer its ordinal and its line, and lets what waited go.
    fn note(&mut self, book: &Book<'_>, answer: Answer) -> Line
        requires { array_vec_len self.old.answers < 256 }
        ensures predicates { predicates_of self.new.pending ≡ [] }
        ensures goals { goals_of self.new.pending ≡ [] }
    {
        let first = first_ordinal(self.answers.as_slice(), answer.number);
        self.answers.push(answer.number);
        self.pending.clear();
        answer_line(self.answers.len() as u16, answer.count(book), first as u16)
    }
}
