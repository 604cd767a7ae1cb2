ghost use Rattle.std.specs.Prelude.{◌≡◌, ◌+◌, ◌-◌, ◌<◌, ◌≤◌, MatchOption};

use crate::Bound;

// How many constants there are: those from -15 to 15.
pub const CONSTANTS: u32 = 31;

// How the constant 0 is held: c is held as c + 15.
pub const ZERO: u32 = 15;

// A fact in its parts, which are the digits of its number.
#[derive(Clone, Copy)]
pub struct Parts {
    pub bound: Bound,
    pub left: u32,
    pub right: u32,
    pub constant: u32,
    ghost in_range: { constant ≤ 30 },
}

impl Parts {
    ghost use Rattle.potentials.specs.Differences.{reversed, sum, impossible};
    ghost use Rattle.differences.specs.Facts.{fact_of};

    // The opposite: not x ≤ y + c says y < x - c.
    pub fn reversed(self) -> Parts
        ensures { fact_of result ≡ reversed (fact_of self) }
    {
        Parts {
            bound: self.bound.opposite(),
            left: self.right,
            right: self.left,
            constant: 2 * ZERO - self.constant,
        }
    }

    // The sum with a fact that this one meets, by the sum of their constants: below where one of the two is.
    pub fn sum(self, second: Parts, constant: u32) -> Parts
        requires { (self.constant + second.constant ≤ 45) × (constant ≡ self.constant + second.constant - 15) }
        ensures { fact_of result ≡ sum (fact_of self) (fact_of second) }
    {
        Parts {
            bound: self.bound.max(second.bound),
            left: self.left,
            right: second.right,
            constant,
        }
    }

    // No value meets the fact: x ≤ x + c with c < 0, or x < x + c with c ≤ 0.
    #[tactic(auto, unfolding(potentials::specs::Differences::impossible))]
    pub fn impossible(self) -> bool
        ensures { result ≡ impossible (fact_of self) }
    {
        self.left == self.right && self.constant < ZERO + self.bound as u32
    }
}

// The constant of a sum, from two as they are held: none above 15, and -15 for a lower one.
pub fn added(c: u32, d: u32) -> Option<u32>
    requires { (c < 31) × (d < 31) }
    ensures { MatchOption result (45 < c + d) (λ w. (c + d ≤ 45) × (w ≡ c + d - 15)) }
{
    let sum = (c + d).saturating_sub(ZERO);
    (sum < CONSTANTS).then_some(sum)
}
