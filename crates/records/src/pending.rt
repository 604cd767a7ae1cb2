ghost use Rattle.std.specs.Prelude.{◌≡◌, ◌≤◌, [], length};
ghost use Rattle.std.specs.List.{slice_get};
ghost use Rattle.records.specs.declared.faults.RecordFault.TheVariants.{TooManyPredicates, TooManyGoals};
ghost use Rattle.records.specs.Pending.{predicates_of, goals_of, with_one, if_room};

use crate::faults::RecordFault;
use crate::record::Statement;
use arrayvec::ArrayVec;

// The most predicates and goals that may wait for one question.
const MOST_PREDICATES: usize = 16;

const MOST_GOALS: usize = 8;

// The predicates and goals that wait for the next question, in the order in which they came.
#[derive(Drop)]
pub struct Pending {
    predicates: ArrayVec<Statement, MOST_PREDICATES>,
    goals: ArrayVec<Statement, MOST_GOALS>,
}

impl Pending {
    // Nothing waits.
    pub fn new() -> Pending
        ensures predicates { predicates_of result ≡ [] }
        ensures goals { goals_of result ≡ [] }
    {
        Pending {
            predicates: ArrayVec::new(),
            goals: ArrayVec::new(),
        }
    }

    // One more predicate, unless as many wait as may.
    pub fn add_predicate(&mut self, statement: Statement) -> Result<(), RecordFault>
        ensures answer { result ≡ if_room 16 TooManyPredicates (predicates_of self.old) }
        ensures predicates { predicates_of self.new ≡ with_one 16 (predicates_of self.old) statement }
        ensures goals { goals_of self.new ≡ goals_of self.old }
    {
        self.predicates
            .try_push(statement)
            .or(Err(RecordFault::TooManyPredicates))
    }

    // One more goal, unless as many wait as may. Its limit and its refusal are its own, so it is no instance of the one above.
    pub fn add_goal(&mut self, statement: Statement) -> Result<(), RecordFault>
        ensures answer { result ≡ if_room 8 TooManyGoals (goals_of self.old) }
        ensures predicates { predicates_of self.new ≡ predicates_of self.old }
        ensures goals { goals_of self.new ≡ with_one 8 (goals_of self.old) statement }
    {
        self.goals
            .try_push(statement)
            .or(Err(RecordFault::TooManyGoals))
    }

    // Lets go of all that waits.
    pub fn clear(&mut self)
        ensures predicates { predicates_of self.new ≡ [] }
        ensures goals { goals_of self.new ≡ [] }
    {
        self.predicates.clear();
        self.goals.clear();
    }

    // The predicates that wait.
    pub fn predicates(&self) -> &[Statement]
        ensures these { result.now ≡ predicates_of self.now }
        ensures few { length result.now ≤ 16 }
    {
        self.predicates.as_slice()
    }

    // The goals that wait.
    pub fn goals(&self) -> &[Statement]
        ensures these { result.now ≡ goals_of self.now }
        ensures few { length result.now ≤ 8 }
    {
        self.goals.as_slice()
    }

    // How many predicates wait.
    pub fn predicate_count(&self) -> usize
        ensures { result ≡ length (predicates_of self.now) }
    {
        self.predicates.len()
    }

    // How many goals wait.
    pub fn goal_count(&self) -> usize
        ensures { result ≡ length (goals_of self.now) }
    {
        self.goals.len()
    }

    // The k-th predicate that waits, counted from 0.
    pub fn predicate(&self, k: usize) -> Option<Statement>
        ensures { result ≡ slice_get (predicates_of self.now) k }
    {
        self.predicates().get(k).copied()
    }

    // The k-th goal that waits, counted from 0.
    pub fn goal(&self, k: usize) -> Option<Statement>
        ensures { result ≡ slice_get (goals_of self.now) k }
    {
        self.goals().get(k).copied()
    }
}
