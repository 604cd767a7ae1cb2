ghost use Rattle.std.specs.Prelude.{◌≡◌, ◌+◌, ◌<◌, ◌≤◌, min, max, length, IfSome};
ghost use Rattle.register.specs.Chains.{Indexed, Put};
ghost use Rattle.diagrams.specs.Diagram.{position_of, row_hash};
ghost use Rattle.diagrams.specs.Books.{KeptBook, capacity, union_or_intersection};
ghost use Rattle.diagrams.specs.Making.{child};
ghost use Rattle.diagrams.specs.Applying.{Fit, Makes, Applies, Step};
ghost use Rattle.diagrams.specs.declared.Operation.TheVariants.{Union, Intersection};
ghost use Rattle.book.specs.Scratch.{entry, table_of, Notes, Recalls, Right, Remembers};
ghost use Rattle.book.specs.Growing.{Enlarged};

use crate::scratch::{Entry, look_up, write_down};
use crate::shortcuts::{merge, row_of, short};
use diagrams::{NoRoom, Operation, Row};
use register::{Index, Register};

// A book uses at most so many rows, so that each has a number of 16 bits behind 0 and 1.
pub const MOST_ROWS: u16 = 65534;

// The rows of a book at work, with an index through which equal rows are found, and results computed before.
#[derive(Drop)]
pub(crate) struct Manager<'b, 'r, 'm> {
    pub(crate) register: &'b mut Register<'r, Row>,
    pub(crate) heads: &'m mut [u16],
    pub(crate) next: &'m mut [u16],
    pub(crate) unions: &'m mut [Entry],
    pub(crate) intersections: &'m mut [Entry],
    ghost kept: { KeptBook register.now.rows.now register.now.count },
    ghost indexed: { Indexed row_hash register.now.rows.now register.now.count heads.now next.now },
    ghost room: { capacity register.now.rows.now ≤ length next.now },
    ghost unions_right: { Remembers Union register.now.rows.now register.now.count unions.now },
    ghost intersections_right: { Remembers Intersection register.now.rows.now register.now.count intersections.now },
}

// The first position that two numbers ask for, and the numbers of both their halves without it and with it.
#[derive(Clone, Copy)]
struct Split {
    position: u8,
    without: (u16, u16),
    with: (u16, u16),
}

// Makes two slices the index of the rows in use.
pub(crate) fn link(register: &Register<'_, Row>, heads: &mut [u16], next: &mut [u16])
    requires rows { register.now.count ≤ length register.now.rows.now }
    requires some { 0 < length heads.old }
    requires room { register.now.count ≤ length next.old }
    ensures indexed { Indexed row_hash register.now.rows.now register.now.count heads.new next.new }
{
    register.link_rows(&mut Index { heads, next });
}

// The place of a row, through the index in two slices.
fn put(
    register: &mut Register<'_, Row>,
    heads: &mut [u16],
    next: &mut [u16],
    row: Row,
) -> Option<u16>
    ensures held { register.new.rows.ghost_name ≡ register.old.rows.ghost_name }
    ensures put { Indexed row_hash register.old.rows.now register.old.count heads.old next.old → Put row_hash 65534 register.old.rows.now register.old.count heads.old next.old row register.new.rows.now register.new.count heads.new next.new result }
{
    register.put(&mut Index { heads, next }, MOST_ROWS, row)
}

impl Manager<'_, '_, '_> {
    // The first position that two numbers of rows ask for.
    fn first(&self, a: u16, b: u16) -> u8
        requires left { (2 ≤ a) × (a < self.now.register.now.count + 2) }
        requires right { (2 ≤ b) × (b < self.now.register.now.count + 2) }
        ensures { result ≡ min (position_of self.now.register.now.rows.now a) (position_of self.now.register.now.rows.now b) }
    {
        let x = self.register.rows[a as usize - 2];
        let y = self.register.rows[b as usize - 2];
        x.position.min(y.position)
    }

    // The number of a row's half at a position.
    fn half(&self, n: u16, position: u8, taken: bool) -> u16
        requires { (2 ≤ n) × (n < self.now.register.now.count + 2) }
        ensures { result ≡ child self.now.register.now.rows.now position n taken }
    {
        let x = self.register.rows[n as usize - 2];
        if x.position != position {
            return n;
        }
        if taken { x.with } else { x.without }
    }

    fn split(&self, a: u16, b: u16) -> Split
        requires left { (2 ≤ a) × (a < self.now.register.now.count + 2) }
        requires right { (2 ≤ b) × (b < self.now.register.now.count + 2) }
        ensures { Step self.now.register.now.rows.now self.now.register.now.count a b result.position result.without.0 result.without.1 result.with.0 result.with.1 }
    {
        let position = self.first(a, b);
        Split {
            position,
            without: (self.half(a, position, false), self.half(b, position, false)),
            with: (self.half(a, position, true), self.half(b, position, true)),
        }
    }

    // The number of the set whose halves at a position are given: the halves' own where they are one, else that of their
    // row, which is put behind the rows in use where it is new.
    pub(crate) fn make(&mut self, position: u8, without: u16, with: u16) -> Result<u16, NoRoom>
        requires fit { Fit self.old.register.now.rows.now self.old.register.now.count position without with }
        ensures held { self.new.register.ghost_name ≡ self.old.register.ghost_name }
        ensures names { (self.new.heads.ghost_name ≡ self.old.heads.ghost_name) × (self.new.next.ghost_name ≡ self.old.next.ghost_name) }
        ensures tables { (self.new.unions ≡ self.old.unions) × (self.new.intersections ≡ self.old.intersections) }
        ensures enlarged { Enlarged self.old.register.now self.new.register.now }
        ensures made { Makes self.old.register.now.rows.now self.old.register.now.count self.new.register.now.rows.now self.new.register.now.count position without with result }
    {
        if merge(without, with) {
            return Ok(without);
        }
        let row = row_of(position, without, with);
        let Some(at) = put(self.register, self.heads, self.next, row) else {
            return Err(NoRoom);
        };
        Ok(at + 2)
    }

    // The result of the operation on two numbers, in either order, if it was computed before. The table is chosen by a `match`
    // here and below: an operation is a value that calls hand on, and a closure for each would say no more.
    fn recall(&self, op: Operation, a: u16, b: u16) -> Option<u16>
        ensures { IfSome result (λ n. Recalls (table_of op self.now.unions.now self.now.intersections.now) (min a b) (max a b) n) }
    {
        match op {
            Operation::Union => look_up(self.unions, a.min(b), a.max(b)),
            Operation::Intersection => look_up(self.intersections, a.min(b), a.max(b)),
        }
    }

    // Writes a right result down for the operation and both orders of its numbers.
    fn remember(&mut self, op: Operation, a: u16, b: u16, result_number: u16)
        requires { Right op self.old.register.now.rows.now self.old.register.now.count (entry (min a b) (max a b) result_number) }
        ensures same { self.new.register ≡ self.old.register }
        ensures index { (self.new.heads ≡ self.old.heads) × (self.new.next ≡ self.old.next) }
        ensures names { (self.new.unions.ghost_name ≡ self.old.unions.ghost_name) × (self.new.intersections.ghost_name ≡ self.old.intersections.ghost_name) }
        ensures written { Notes op (min a b) (max a b) result_number self.old.unions.now self.old.intersections.now self.new.unions.now self.new.intersections.now }
    {
        match op {
            Operation::Union => write_down(self.unions, a.min(b), a.max(b), result_number),
            Operation::Intersection => write_down(
                self.intersections,
                a.min(b),
                a.max(b),
                result_number,
            ),
        }
    }

    // The number of the union or the intersection of two held numbers. Short cuts first, then a result computed before;
    // only then the rows: both halves at the first position that either number asks for, and the row of the two.
    pub(crate) fn apply(&mut self, op: Operation, a: u16, b: u16) -> Result<u16, NoRoom>
        requires left { a < self.old.register.now.count + 2 }
        requires right { b < self.old.register.now.count + 2 }
        ensures held { self.new.register.ghost_name ≡ self.old.register.ghost_name }
        ensures index { (self.new.heads.ghost_name ≡ self.old.heads.ghost_name) × (self.new.next.ghost_name ≡ self.old.next.ghost_name) }
        ensures tables { (self.new.unions.ghost_name ≡ self.old.unions.ghost_name) × (self.new.intersections.ghost_name ≡ self.old.intersections.ghost_name) }
        ensures enlarged { Enlarged self.old.register.now self.new.register.now }
        ensures applied { Applies self.old.register.now.rows.now self.old.register.now.count self.new.register.now.rows.now self.new.register.now.count (union_or_intersection op self.old.register.now.rows.now a b) result }
    {
        if let Some(n) = short(op, a, b) {
            return Ok(n);
        }
        if let Some(n) = self.recall(op, a, b) {
            return Ok(n);
        }
        let split = self.split(a, b);
        let without = self.apply(op, split.without.0, split.without.1)?;
        let with = self.apply(op, split.with.0, split.with.1)?;
        let n = self.make(split.position, without, with)?;
        self.remember(op, a, b, n);
        Ok(n)
    }
}
