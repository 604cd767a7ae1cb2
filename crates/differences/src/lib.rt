#![tactic(auto)]

ghost use Rattle.std.specs.Prelude.{◌≡◌, ◌-◌, ◌<◌, ◌≤◌, MatchOption, MatchResult};
ghost use Rattle.theory.specs.declared.faults.TheoryFault.TheVariants.{TooManyVariables};
ghost use Rattle.theory.specs.Theory.{Lawful};
ghost use Rattle.potentials.specs.Differences.{Within, number, difference, first, second, fact_count, sum_count, sum_rule, loop_rule, differences};
ghost use Rattle.potentials.proofs.Laws.{differences_lawful};
ghost use Rattle.differences.specs.Facts.{fact_of, strictness, fact_made};

mod parts;

use parts::{CONSTANTS, Parts, added};
pub use theory::Refusal;
use theory::{Conclusion, FactFault, Rule, Theory, TheoryFault};

// How many variables there may be.
const MOST_VARIABLES: u8 = 8;

// How many pairs of constants there are.
const PAIRS: u32 = CONSTANTS * CONSTANTS;

// How a fact bounds its left variable: by ≤ or by <.
#[derive(Clone, Copy, PartialEq, Eq, PartialOrd, Ord)]
pub enum Bound {
    AtMost = 0,
    Below = 1,
}

impl Bound {
    // The bound with this number.
    fn of(number: u32) -> Bound
        requires { number < 2 }
        ensures { strictness result ≡ number }
    {
        if number == 0 {
            Bound::AtMost
        } else {
            Bound::Below
        }
    }

    // The bound of the opposite fact: not ≤ is <, and not < is ≤.
    fn opposite(self) -> Bound
        ensures { strictness result ≡ 1 - strictness self }
    {
        match self {
            Bound::AtMost => Bound::Below,
            Bound::Below => Bound::AtMost,
        }
    }
}

// The theory of facts x ≤ y + c and x < y + c between so many variables, with constants from -15 to 15.
#[derive(Clone, Copy)]
pub struct Differences {
    variables: u8,
    ghost few: { variables ≤ 8 },
}

impl Differences {
    // The theory over these variables; more than 8 are refused.
    #[tactic(auto, using(potentials::proofs::Laws::differences_lawful))]
    pub fn new(variables: u8) -> Result<Differences, TheoryFault>
        ensures made { MatchResult result (λ d. (variables ≤ 8) × (d.variables ≡ variables)) (λ e. (8 < variables) × (e ≡ TooManyVariables)) }
        ensures laws { variables ≤ 8 → Lawful (differences variables) }
    {
        if variables > MOST_VARIABLES {
            return Err(TheoryFault::TooManyVariables);
        }
        Ok(Differences { variables })
    }

    pub fn variables(&self) -> u8
        ensures { result ≡ self.now.variables }
    {
        self.variables
    }

    // The number of the fact that the left variable is at most, or below, the right one plus the constant.
    pub fn fact(&self, bound: Bound, left: u8, right: u8, constant: i8) -> Result<u16, FactFault>
        ensures { result ≡ fact_made self.now.variables bound left right constant }
    {
        if left >= self.variables || right >= self.variables {
            return Err(FactFault::NoVariable);
        }
        if !(-15..=15).contains(&constant) {
            return Err(FactFault::ConstantOutOfRange);
        }
        Ok(self.number(Parts {
            bound,
            left: left.into(),
            right: right.into(),
            constant: (constant + 15) as u32,
        }))
    }

    // How many facts there are: one for two variables, a bound and a constant.
    fn fact_count(self) -> u32
        ensures { result ≡ fact_count self.variables }
    {
        let v = u32::from(self.variables);
        2 * CONSTANTS * (v * v)
    }

    // How many places there are for sums: one for three variables, two bounds and two constants.
    fn sum_count(self) -> u32
        ensures { result ≡ sum_count self.variables }
    {
        let v = u32::from(self.variables);
        4 * PAIRS * (v * v * v)
    }

    // The number of a fact of the theory.
    #[tactic(auto, unfolding(potentials::specs::Differences::number))]
    fn number(self, parts: Parts) -> u16
        requires { Within self.variables (fact_of parts) }
        ensures { result ≡ number self.variables (fact_of parts) }
    {
        let v = u32::from(self.variables);
        (((parts.bound as u32 * v + parts.left) * v + parts.right) * CONSTANTS
            + parts.constant) as u16
    }

    // The fact with this number in its parts; none past the last fact.
    #[tactic(auto, using(potentials::proofs::Numbers::difference_within), unfolding(potentials::specs::Differences::difference))]
    fn parts(self, fact: u32) -> Option<Parts>
        ensures { MatchOption result (fact_count self.variables ≤ fact) (λ p. (fact < fact_count self.variables) × (fact_of p ≡ difference self.variables fact)) }
    {
        if fact >= self.fact_count() {
            return None;
        }
        let v = u32::from(self.variables);
        let ends = fact / CONSTANTS;
        Some(Parts {
            bound: Bound::of(ends / v / v),
            left: ends / v % v,
            right: ends % v,
            constant: fact % CONSTANTS,
        })
    }

    // The two facts whose sum stands at a place.
    #[tactic(auto, using(potentials::proofs::Numbers::first_within), unfolding(potentials::specs::Differences::first, potentials::specs::Differences::second))]
    fn premises(self, place: u32) -> (Parts, Parts)
        requires { place < sum_count self.variables }
        ensures one { fact_of result.0 ≡ first self.variables place }
        ensures two { fact_of result.1 ≡ second self.variables place }
    {
        let v = u32::from(self.variables);
        let ends = place / PAIRS;
        let meeting = ends / v % v;
        let bounds = ends / v / v / v;
        let first = Parts {
            bound: Bound::of(bounds / 2),
            left: ends / v / v % v,
            right: meeting,
            constant: place / CONSTANTS % CONSTANTS,
        };
        let second = Parts {
            bound: Bound::of(bounds % 2),
            left: meeting,
            right: ends % v,
            constant: place % CONSTANTS,
        };
        (first, second)
    }

    // The rule that adds two facts which meet in a variable.
    // The constants come first: where the place is empty, the divisions by v are saved.
    #[tactic(auto, unfolding(potentials::specs::Differences::sum_rule, potentials::specs::Differences::first, potentials::specs::Differences::second))]
    fn sum_rule(self, place: u32) -> Option<Rule>
        requires { place < sum_count self.variables }
        ensures { result ≡ sum_rule self.variables (first self.variables place) (second self.variables place) }
    {
        let constant = added(place / CONSTANTS % CONSTANTS, place % CONSTANTS)?;
        let (first, second) = self.premises(place);
        let sum = first.sum(second, constant);
        Some(Rule::Both(
            self.number(first),
            self.number(second),
            Conclusion::Fact(self.number(sum)),
        ))
    }

    // The rule by which an impossible fact gives the contradiction.
    #[tactic(auto, unfolding(potentials::specs::Differences::loop_rule))]
    fn loop_rule(self, fact: u32) -> Option<Rule>
        ensures { result ≡ loop_rule self.variables fact }
    {
        let impossible = self.parts(fact)?.impossible();
        impossible.then_some(Rule::From(fact as u16, Conclusion::Contradiction))
    }
}

impl Theory for Differences {
    ghost facts = { λ t. (differences t.variables).facts };

    ghost places = { λ t. (differences t.variables).places };

    ghost rule = { λ t. (differences t.variables).rule };

    ghost opposite = { λ t. (differences t.variables).opposite };

    ghost models = { λ t. (differences t.variables).models };

    ghost truth = { λ t. (differences t.variables).truth };

    ghost lawful = { λ t. differences_lawful t.variables t.few };

    fn facts(&self) -> u16 {
        self.fact_count() as u16
    }

    fn places(&self) -> u32 {
        self.sum_count() + self.fact_count()
    }

    // The sums come first, then a place for each fact.
    #[tactic(auto, unfolding(potentials::specs::Differences::rule_at))]
    fn rule(&self, place: u32) -> Option<Rule> {
        match place.checked_sub(self.sum_count()) {
            None => self.sum_rule(place),
            Some(fact) => self.loop_rule(fact),
        }
    }

    #[tactic(auto, using(potentials::proofs::Numbers::difference_within), unfolding(potentials::specs::Differences::opposite_of))]
    fn opposite(&self, fact: u16) -> Option<u16> {
        let parts = self.parts(fact.into())?;
        Some(self.number(parts.reversed()))
    }
}
