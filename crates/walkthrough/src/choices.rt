ghost use Rattle.std.specs.Prelude.{◌<◌, IsTrue};

use std::fmt;

// A set of positions, one bit for each.
#[derive(Clone, Copy)]
pub struct Choice(pub u16);

impl Choice {
    // Whether a position is chosen.
    pub fn has(self, position: u32) -> bool
        ensures { IsTrue result → position < 16 }
    {
        position < 16 && (self.0 >> position) % 2 == 1
    }

    // The choice with the position left out.
    pub fn without(self, position: u32) -> Choice {
        if self.has(position) {
            Choice(self.0 ^ (1 << position))
        } else {
            self
        }
    }

    // The full case that says yes to the predicates chosen and no to the others: of each pair of positions the even one
    // for a yes, and the odd one for a no.
    pub fn full_case(self, predicates: usize) -> Choice {
        let full = (0..predicates.min(8) as u32)
            .map(|k| if self.has(k) { 2 * k } else { 2 * k + 1 })
            .fold(0, |full, position| full | 1 << position);
        Choice(full)
    }
}

// The positions, with a space before each.
impl fmt::Display for Choice {
    fn fmt<W: fmt::Write>(&self, f: &mut fmt::Formatter<W>) -> fmt::Result {
        for position in (0..16).filter(|position| self.has(*position)) {
            write!(f, " {position}")?;
        }
        Ok(())
    }
}
