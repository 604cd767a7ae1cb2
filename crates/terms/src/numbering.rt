ghost use Rattle.std.specs.Prelude.{◌≡◌, ◌*◌, ◌/◌, ◌%◌, ◌<◌, ◌≤◌};
ghost use Rattle.theory.specs.declared.Conclusion.TheVariants.{Fact, Contradiction};
ghost use Rattle.theory.specs.declared.Rule.TheVariants.{Always, From, Both};
ghost use Rattle.equality.specs.Equality.{equal, differ, opposite_at};

use theory::{Conclusion, Rule};

// How the facts and the rule places over a number of terms are numbered.
// The number of a term is a u16 here and not the table's u8: widening it made each place a twelfth slower.
#[derive(Clone, Copy)]
pub(crate) struct Numbering {
    pub(crate) terms: u16,
    ghost few: { terms ≤ 24 },
}

impl Numbering {
    // As many as there are pairs of terms.
    pub(crate) fn square(self) -> u16
        ensures value { result ≡ self.terms * self.terms }
        ensures small { result ≤ 576 }
    {
        self.terms * self.terms
    }

    // As many as there are triples of terms.
    pub(crate) fn cube(self) -> u32
        ensures value { result ≡ self.terms * self.terms * self.terms }
        ensures small { result ≤ 13824 }
    {
        self.square() as u32 * self.terms as u32
    }

    // The number of the fact i = j.
    pub(crate) fn equal(self, i: u16, j: u16) -> u16
        requires first { i < self.terms }
        requires second { j < self.terms }
        ensures value { result ≡ equal self.terms i j }
        ensures small { result < 576 }
    {
        i * self.terms + j
    }

    // The number of the fact i ≠ j.
    pub(crate) fn differ(self, i: u16, j: u16) -> u16
        requires first { i < self.terms }
        requires second { j < self.terms }
        ensures { result ≡ differ self.terms i j }
    {
        self.square() + self.equal(i, j)
    }

    // The opposite of a fact: of i = j it is i ≠ j, and the other way round.
    pub(crate) fn opposite(self, fact: u16) -> Option<u16>
        ensures { result ≡ opposite_at self.terms fact }
    {
        let square = self.square();
        if fact < square {
            Some(square + fact)
        } else if fact < 2 * square {
            Some(fact - square)
        } else {
            None
        }
    }

    // The two terms for which a place stands, in a group of as many places as there are pairs of terms.
    pub(crate) fn pair(self, place: u32) -> (u16, u16)
        requires { place < self.terms * self.terms }
        ensures first { result.0 ≡ place / self.terms }
        ensures second { result.1 ≡ place % self.terms }
        ensures terms { (result.0 < self.terms) × (result.1 < self.terms) }
    {
        let terms = self.terms as u32;
        ((place / terms) as u16, (place % terms) as u16)
    }

    // The three terms for which a place stands, in a group of as many places as there are triples of terms.
    pub(crate) fn triple(self, place: u32) -> (u16, u16, u16)
        requires { place < self.terms * self.terms * self.terms }
        ensures first { result.0 ≡ place / self.terms / self.terms }
        ensures second { result.1 ≡ place / self.terms % self.terms }
        ensures third { result.2 ≡ place % self.terms }
        ensures terms { (result.0 < self.terms) × (result.1 < self.terms) × (result.2 < self.terms) }
    {
        let terms = self.terms as u32;
        let (i, j) = self.pair(place / terms);
        (i, j, (place % terms) as u16)
    }

    // Nothing gives i = i.
    pub(crate) fn same(self, i: u16) -> Rule
        requires { i < self.terms }
        ensures { result ≡ Always (Fact (equal self.terms i i)) }
    {
        Rule::Always(Conclusion::Fact(self.equal(i, i)))
    }

    // i = j gives j = i.
    pub(crate) fn turned(self, i: u16, j: u16) -> Rule
        requires first { i < self.terms }
        requires second { j < self.terms }
        ensures { result ≡ From (equal self.terms i j) (Fact (equal self.terms j i)) }
    {
        Rule::From(self.equal(i, j), Conclusion::Fact(self.equal(j, i)))
    }

    // i = j and j = k give i = k.
    pub(crate) fn chained(self, i: u16, j: u16, k: u16) -> Rule
        requires first { i < self.terms }
        requires second { j < self.terms }
        requires third { k < self.terms }
        ensures { result ≡ Both (equal self.terms i j) (equal self.terms j k) (Fact (equal self.terms i k)) }
    {
        Rule::Both(
            self.equal(i, j),
            self.equal(j, k),
            Conclusion::Fact(self.equal(i, k)),
        )
    }

    // i = j and i ≠ j give the contradiction.
    pub(crate) fn clashing(self, i: u16, j: u16) -> Rule
        requires first { i < self.terms }
        requires second { j < self.terms }
        ensures { result ≡ Both (equal self.terms i j) (differ self.terms i j) Contradiction }
    {
        Rule::Both(
            self.equal(i, j),
            self.differ(i, j),
            Conclusion::Contradiction,
        )
    }
}
