ghost use Rattle.std.specs.Prelude.{◌≡◌, ◌<◌};
ghost use Rattle.theory.specs.Theory.{Lawful};
ghost use Rattle.equality.specs.Equality.{equality, rule_at, Place.Applied};
ghost use Rattle.equality.proofs.Laws.{equality_is_lawful};
ghost use Rattle.terms.specs.Facts.{terms_of, made_fact};

use crate::TermTable;
use theory::{Conclusion, FactFault, Rule, Theory};

// How a fact relates two terms.
#[derive(Clone, Copy, PartialEq, Eq)]
pub enum Relation {
    Equal,
    Different,
}

// The theory of equality over the terms of a table.
#[derive(Drop)]
pub struct Equality<'t, 'a> {
    table: &'t TermTable<'a>,
}

impl<'t, 'a> Equality<'t, 'a> {
    pub fn new(table: &'t TermTable<'a>) -> Self
        ensures same { result.table.now ≡ table.now }
        ensures lawful { Lawful (equality (terms_of table.now)) }
    {
        Equality { table }
    }
}

impl Equality<'_, '_> {
    // The number of the fact that relates two terms.
    pub fn fact(&self, relation: Relation, left: u8, right: u8) -> Result<u16, FactFault>
        ensures { result ≡ made_fact self.now.table.now.lent.count relation left right }
    {
        let numbering = self.table.numbering();
        let (i, j) = (left as u16, right as u16);
        if i >= numbering.terms || j >= numbering.terms {
            return Err(FactFault::NoTerm);
        }
        Ok(match relation {
            Relation::Equal => numbering.equal(i, j),
            Relation::Different => numbering.differ(i, j),
        })
    }

    // If two terms have one symbol and one number of arguments, at least 1, equality of their arguments gives theirs.
    fn applied(&self, i: u16, j: u16) -> Option<Rule>
        requires first { i < self.now.table.now.lent.count }
        requires second { j < self.now.table.now.lent.count }
        ensures { result ≡ rule_at (terms_of self.now.table.now) (Applied i j) }
    {
        let numbering = self.table.numbering();
        let x = self.table.term(i);
        let y = self.table.term(j);
        if x.symbol != y.symbol || x.arity != y.arity {
            return None;
        }
        let given = Conclusion::Fact(numbering.equal(i, j));
        match x.arity {
            0 => None,
            1 => Some(Rule::From(numbering.equal(x.left as u16, y.left as u16), given)),
            _ => Some(Rule::Both(
                numbering.equal(x.left as u16, y.left as u16),
                numbering.equal(x.right as u16, y.right as u16),
                given,
            )),
        }
    }
}

impl Theory for Equality<'_, '_> {
    ghost facts = { λ e. (equality (terms_of e.table.now)).facts };

    ghost places = { λ e. (equality (terms_of e.table.now)).places };

    ghost rule = { λ e. (equality (terms_of e.table.now)).rule };

    ghost opposite = { λ e. (equality (terms_of e.table.now)).opposite };

    ghost models = { λ e. (equality (terms_of e.table.now)).models };

    ghost truth = { λ e. (equality (terms_of e.table.now)).truth };

    ghost lawful = { λ e. equality_is_lawful (terms_of e.table.now) e.table.now.table };

    fn facts(&self) -> u16 {
        2 * self.table.numbering().square()
    }

    fn places(&self) -> u32 {
        let numbering = self.table.numbering();
        let square = numbering.square() as u32;
        numbering.terms as u32 + square + numbering.cube() + square + square
    }

    // The places stand in groups, one behind another; each group is named with its first place.
    fn rule(&self, place: u32) -> Option<Rule> {
        let numbering = self.table.numbering();
        let square = numbering.square() as u32;
        let turns = numbering.terms as u32;
        let chains = turns + square;
        let applications = chains + numbering.cube();
        let clashes = applications + square;
        if place < turns {
            Some(numbering.same(place as u16))
        } else if place < chains {
            let (i, j) = numbering.pair(place - turns);
            Some(numbering.turned(i, j))
        } else if place < applications {
            let (i, j, k) = numbering.triple(place - chains);
            Some(numbering.chained(i, j, k))
        } else if place < clashes {
            let (i, j) = numbering.pair(place - applications);
            self.applied(i, j)
        } else if place < clashes + square {
            let (i, j) = numbering.pair(place - clashes);
            Some(numbering.clashing(i, j))
        } else {
            None
        }
    }

    fn opposite(&self, fact: u16) -> Option<u16> {
        self.table.numbering().opposite(fact)
    }
}
