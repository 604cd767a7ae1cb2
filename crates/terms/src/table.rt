ghost use Rattle.std.specs.Prelude.{◌≡◌, ◌<◌, ◌≤◌, length, take, Some, None, MatchResult};
ghost use Rattle.equality.specs.Equality.{Table, no_term, term_at};
ghost use Rattle.register.specs.Rows.{Cleared};
ghost use Rattle.terms.specs.Adding.{refusal, Adds};

use crate::TermFault;
use crate::numbering::Numbering;
use equality::Term;
use register::{Index, Register};

const MOST_TERMS: usize = 24;

// Terms in lent rows, each argument an earlier term, no two the same.
#[derive(Drop)]
pub struct TermTable<'a> {
    lent: Register<'a, Term>,
    ghost within: { lent.count ≤ length lent.rows.now },
    ghost few: { lent.count ≤ 24 },
    ghost table: { Table (take lent.count lent.rows.now) },
}

impl<'a> TermTable<'a> {
    // A table without terms: the first 24 rows, or all if fewer, are zeroed.
    pub fn open(rows: &'a mut [Term]) -> Self
        ensures held { result.lent.rows.ghost_name ≡ rows.entry.ghost_name }
        ensures cleared { Cleared rows.old 0 24 no_term result.lent.rows.now }
        ensures none { result.lent.count ≡ 0 }
    {
        TermTable {
            lent: Register::open(rows, MOST_TERMS as u16, Term::default()),
        }
    }

    pub fn len(&self) -> u8
        ensures { result ≡ self.now.lent.count }
    {
        self.lent.count as u8
    }

    // How the facts and the rule places over the terms are numbered.
    pub(crate) fn numbering(&self) -> Numbering
        ensures { result.terms ≡ self.now.lent.count }
    {
        Numbering {
            terms: self.lent.count,
        }
    }

    // A term of the table, whose arguments are terms of the table.
    pub(crate) fn term(&self, number: u16) -> Term
        requires { number < self.now.lent.count }
        ensures value { result ≡ term_at (take self.now.lent.count self.now.lent.rows.now) number }
        ensures left { 1 ≤ result.arity → result.left < self.now.lent.count }
        ensures right { 2 ≤ result.arity → result.right < self.now.lent.count }
    {
        self.lent.rows[number as usize]
    }

    // The number of the term: of the one that is there, or of a new one behind the others.
    pub fn add(&mut self, term: Term) -> Result<u8, TermFault>
        ensures held { self.new.lent.rows.ghost_name ≡ self.old.lent.rows.ghost_name }
        ensures adds { Adds self.old.lent.rows.now self.old.lent.count term self.new.lent.rows.now self.new.lent.count result }
    {
        self.admit(term)?;
        self.put(term)
    }

    // Tells why the term may not stand behind those in the table, if it may not.
    fn admit(&self, term: Term) -> Result<(), TermFault>
        ensures { MatchResult result (λ _. refusal self.now.lent.count term ≡ None) (λ fault. refusal self.now.lent.count term ≡ Some fault) }
    {
        let count = self.lent.count;
        let left = term.left as u16;
        let right = term.right as u16;
        if term.arity > 2 {
            return Err(TermFault::TooManyArguments);
        }
        if term.arity >= 1 && left >= count || term.arity >= 2 && right >= count {
            return Err(TermFault::NoEarlierTerm);
        }
        if term.arity < 1 && left != 0 || term.arity < 2 && right != 0 {
            return Err(TermFault::UnusedNotZero);
        }
        Ok(())
    }

    // Adds a term that may stand in the table, through an index that is made for this call only.
    fn put(&mut self, term: Term) -> Result<u8, TermFault>
        requires { refusal self.old.lent.count term ≡ None }
        ensures held { self.new.lent.rows.ghost_name ≡ self.old.lent.rows.ghost_name }
        ensures adds { Adds self.old.lent.rows.now self.old.lent.count term self.new.lent.rows.now self.new.lent.count result }
    {
        let mut heads = [0u16; 1];
        let mut next = [0u16; MOST_TERMS];
        let mut index = Index {
            heads: &mut heads,
            next: &mut next,
        };
        self.lent.link_rows(&mut index);
        let at = self
            .lent
            .put(&mut index, MOST_TERMS as u16, term)
            .ok_or(TermFault::TableFull)?;
        Ok(at as u8)
    }
}
