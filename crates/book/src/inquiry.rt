ghost use Rattle.std.specs.Prelude.{◌≡◌, None, Some, MatchResult, length};
ghost use Rattle.theory.specs.Abstraction.{ask};
ghost use Rattle.theory.specs.Means.{meaning};
ghost use Rattle.theory.specs.Rounds.{Proper};
ghost use Rattle.book.specs.Questions.{all_facts, first_fault};

use crate::faults::QuestionFault;
use theory::Theory;

// A question about a theory: its predicates and its goals, by the numbers of their facts.
#[derive(Drop)]
pub struct Inquiry<'q, T> {
    pub theory: &'q T,
    pub predicates: &'q [u16],
    pub goals: &'q [u16],
}

// A goal count that every question keeps to.
const MOST_GOALS: usize = 8;

fn are_facts(facts: u16, numbers: &[u16]) -> bool
    ensures { result ≡ all_facts facts numbers.now }
{
    numbers.iter().all(|number| *number < facts)
}

impl<T: Theory> Inquiry<'_, T> {
    // The checks before the rows, in their order; `limit` is the most predicates, `work` how long the work slice is.
    pub(crate) fn check(&self, limit: usize, work: usize) -> Result<(), QuestionFault>
        ensures { MatchResult result (λ _. first_fault (T.Theory.facts self.now.theory.now) limit self.now.predicates.now self.now.goals.now work ≡ None) (λ fault. first_fault (T.Theory.facts self.now.theory.now) limit self.now.predicates.now self.now.goals.now work ≡ Some fault) }
    {
        let facts = self.theory.facts();
        if self.predicates.len() > limit {
            return Err(QuestionFault::TooManyPredicates);
        }
        if self.goals.len() > MOST_GOALS {
            return Err(QuestionFault::TooManyGoals);
        }
        if !are_facts(facts, self.predicates) || !are_facts(facts, self.goals) {
            return Err(QuestionFault::NoFact);
        }
        if work < 2 * (facts as usize + 1) {
            return Err(QuestionFault::ShortWork);
        }
        Ok(())
    }
}

// An inquiry that has passed its checks: it has few predicates and goals, and all of them are facts.
#[derive(Drop)]
pub(crate) struct Checked<'q, T: Theory> {
    pub(crate) theory: &'q T,
    pub(crate) predicates: &'q [u16],
    pub(crate) goals: &'q [u16],
    ghost proper: { Proper (meaning T.Theory theory.now) (ask predicates.now goals.now) },
}
