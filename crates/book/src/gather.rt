ghost use Rattle.std.specs.Prelude.{◌≡◌, ◌+◌, ◌-◌, ◌<◌, ◌≤◌, length, IfOk, slice_index};
ghost use Rattle.theory.specs.Theory.{Names, conclusion};
ghost use Rattle.saturation.specs.Stages.{slot as slot_of};
ghost use Rattle.book.specs.Growing.{Enlarged};
ghost use Rattle.book.specs.Steps.{asked_for, Holding, Stepped, Gathers, Meets, Derived, Positioned};

use crate::manager::Manager;
use crate::work::Work;
use diagrams::{NoRoom, Operation};
use theory::{Conclusion, Rule};

// That the numbers of both halves are held by the book is asked for by each step below. A struct of the manager and the halves
// could say it once, but is not covered ("a call at a lifetime and at an intersection of lifetimes of which that one is a
// part"); nor is one of all their slices ("a place is written behind a reference that is lent").

// Unites the set of a slot with the set of a number.
fn gather(
    manager: &mut Manager<'_, '_, '_>,
    numbers: &mut [u32],
    slot: usize,
    number: u16,
) -> Result<(), NoRoom>
    requires numbers { Holding numbers.old manager.old.register.now.count }
    requires slot { slot < length numbers.old }
    requires number { number < manager.old.register.now.count + 2 }
    ensures held { manager.new.register.ghost_name ≡ manager.old.register.ghost_name }
    ensures index { (manager.new.heads.ghost_name ≡ manager.old.heads.ghost_name) × (manager.new.next.ghost_name ≡ manager.old.next.ghost_name) }
    ensures tables { (manager.new.unions.ghost_name ≡ manager.old.unions.ghost_name) × (manager.new.intersections.ghost_name ≡ manager.old.intersections.ghost_name) }
    ensures enlarged { Enlarged manager.old.register.now manager.new.register.now }
    ensures numbers { Holding numbers.new manager.new.register.now.count }
    ensures gathers { Gathers manager.old.register.now numbers.old manager.new.register.now numbers.new slot number result }
{
    let gathered = numbers[slot] as u16;
    numbers[slot] = manager.apply(Operation::Union, gathered, number)?.into();
    Ok(())
}

// The facts that a rule asks for: none, or two, of which the second may be the first again.
fn asked_for(rule: Rule) -> Option<(u16, u16)>
    ensures { result ≡ asked_for rule }
{
    match rule {
        Rule::Always(_) => None,
        Rule::From(a, _) => Some((a, a)),
        Rule::Both(a, b, _) => Some((a, b)),
    }
}

// What a rule gives.
fn given(rule: Rule) -> Conclusion
    ensures { result ≡ conclusion rule }
{
    match rule {
        Rule::Always(given) | Rule::From(_, given) | Rule::Both(_, _, given) => given,
    }
}

impl Work<'_> {
    // The choices that have a position, united with what its predicate has gathered.
    pub(crate) fn gather_position(
        &mut self,
        manager: &mut Manager<'_, '_, '_>,
        position: u8,
        fact: u16,
    ) -> Result<(), NoRoom>
        requires standing { Holding self.old.standing.now manager.old.register.now.count }
        requires gathered { Holding self.old.gathered.now manager.old.register.now.count }
        requires position { position < 16 }
        requires fact { fact < length self.old.standing.now }
        ensures stepped { Stepped manager.old manager.new self.old self.new }
        ensures positioned { Positioned position fact manager.old.register.now self.old manager.new.register.now self.new result }
    {
        let chosen = manager.make(position, 0, 1)?;
        gather(manager, self.standing, fact as usize, chosen)
    }

    // The intersection of what a rule's premises had before the round: all choices where there is none.
    fn premises(&self, manager: &mut Manager<'_, '_, '_>, rule: Rule) -> Result<u16, NoRoom>
        requires standing { Holding self.now.standing.now manager.old.register.now.count }
        requires names { Names (length self.now.standing.now) rule }
        ensures held { manager.new.register.ghost_name ≡ manager.old.register.ghost_name }
        ensures index { (manager.new.heads.ghost_name ≡ manager.old.heads.ghost_name) × (manager.new.next.ghost_name ≡ manager.old.next.ghost_name) }
        ensures tables { (manager.new.unions.ghost_name ≡ manager.old.unions.ghost_name) × (manager.new.intersections.ghost_name ≡ manager.old.intersections.ghost_name) }
        ensures enlarged { Enlarged manager.old.register.now manager.new.register.now }
        ensures number { IfOk result (λ n. n < manager.new.register.now.count + 2) }
        ensures meets { Meets manager.old.register.now self.now manager.new.register.now rule result }
    {
        let Some((a, b)) = asked_for(rule) else {
            return Ok(1);
        };
        let left = self.standing[a as usize] as u16;
        let right = self.standing[b as usize] as u16;
        manager.apply(Operation::Intersection, left, right)
    }

    // The slot of what a rule gives.
    fn slot_of(&self, rule: Rule) -> usize
        ensures { result ≡ slot_of (length self.now.standing.now - 1) (conclusion rule) }
    {
        match given(rule) {
            Conclusion::Fact(fact) => fact as usize,
            Conclusion::Contradiction => self.contradiction(),
        }
    }

    // One place: what the premises of its rule have together is united with what its conclusion has gathered.
    pub(crate) fn derive(
        &mut self,
        manager: &mut Manager<'_, '_, '_>,
        rule: Rule,
    ) -> Result<(), NoRoom>
        requires standing { Holding self.old.standing.now manager.old.register.now.count }
        requires gathered { Holding self.old.gathered.now manager.old.register.now.count }
        requires names { Names (length self.old.standing.now - 1) rule }
        ensures stepped { Stepped manager.old manager.new self.old self.new }
        ensures derived { Derived rule manager.old.register.now self.old manager.new.register.now self.new result }
    {
        let together = self.premises(manager, rule)?;
        let slot = self.slot_of(rule);
        gather(manager, self.gathered, slot, together)
    }
}
