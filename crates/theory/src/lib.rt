#![tactic(auto)]

ghost use Rattle.std.specs.Prelude.{◌≡◌, ℕ, Bool, List, ℤ, Option};
ghost use Rattle.theory.specs.declared.Rule.{Rule};
ghost use Rattle.theory.specs.Theory.{Lawful};

mod faults;

pub use faults::{FactFault, Refusal, TheoryFault};

// What a rule gives: a fact, by its number, or the contradiction.
#[derive(Clone, Copy)]
pub enum Conclusion {
    Fact(u16),
    Contradiction,
}

// A rule, by the number of its premises: none, one or two facts.
#[derive(Clone, Copy)]
pub enum Rule {
    Always(Conclusion),
    From(u16, Conclusion),
    Both(u16, u16, Conclusion),
}

// A theory answers four questions by its meaning, on every number, and asking changes nothing.
// The ghost members are its meaning; saturation and book know nothing else of a theory.
pub trait Theory {
    // how many facts there are, and how many rule places
    ghost facts: { Self → ℕ };

    ghost places: { Self → ℕ };
    // the rule at a place, and the opposite of a fact
    ghost rule: { Self → ℕ → Option Rule };

    ghost opposite: { Self → ℕ → Option ℕ };
    // which lists of whole numbers are models, and which facts a model makes true
    ghost models: { Self → List ℤ → Bool };

    ghost truth: { Self → List ℤ → ℕ → Bool };

    // every implementation shows that its numbers keep to their limits, and the three laws
    ghost lawful: { (t : Self) → Lawful (record { facts = facts t; places = places t; rule = rule t; opposite = opposite t; models = models t; truth = truth t }) };

    fn facts(&self) -> u16
        ensures { result ≡ facts self.now };

    fn places(&self) -> u32
        ensures { result ≡ places self.now };

    fn rule(&self, place: u32) -> Option<Rule>
        ensures { result ≡ rule self.now place };

    fn opposite(&self, fact: u16) -> Option<u16>
        ensures { result ≡ opposite self.now fact };
}
