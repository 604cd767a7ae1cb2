ghost use Rattle.std.specs.Prelude.{◌≡◌, ℕ, ◌+◌, ◌*◌, ◌<◌, ◌≤◌, ◌++◌, drop, length, replicate, slice_index, ◌≢◌, IsTrue};
ghost use Rattle.diagrams.specs.Books.{KeptBook, capacity};
ghost use Rattle.theory.specs.Abstraction.{ask};
ghost use Rattle.theory.specs.Means.{meaning};
ghost use Rattle.book.specs.Growing.{Enlarged};
ghost use Rattle.book.specs.Steps.{Holding, Stepped, Starts, Opposes, Rounded, Turns, RoundsEnd, Saturates};

use crate::inquiry::Checked;
use crate::manager::{Manager, link};
use crate::scratch::Entry;
use crate::work::Work;
use diagrams::{NoRoom, Row};
use register::Register;
use theory::Theory;

// What denying a goal starts with: its opposite.
fn denied<T: Theory>(theory: &T, goal: u16) -> Option<u16>
    ensures { result ≡ T.Theory.opposite theory.now goal }
{
    theory.opposite(goal)
}

// Takes over what was gathered; whether some set has changed. Sets are compared by their numbers, since one set has one.
fn settle(standing: &mut [u32], gathered: &mut [u32]) -> bool
    requires { length gathered.old ≡ length standing.old }
    ensures taken { standing.new ≡ gathered.old }
    ensures kept { gathered.new ≡ gathered.old }
    ensures changed { IsTrue result → standing.old ≢ gathered.old }
    ensures same { (IsTrue result → ⊥) → standing.old ≡ gathered.old }
{
    let changed = *standing != *gathered;
    standing.copy_from_slice(gathered);
    changed
}

// What stands before the first round is also what it has gathered so far. Both are taken as `&mut`: the check loses what a
// field holds that is lent as `&`.
fn begin(standing: &mut [u32], gathered: &mut [u32])
    requires { length gathered.old ≡ length standing.old }
    ensures standing { standing.new ≡ standing.old }
    ensures gathered { gathered.new ≡ standing.old }
{
    gathered.copy_from_slice(standing);
}

// What a saturation gives: the number of the choices that have the contradiction, and how many rounds gained.
fn outcome(number: u32, gaining: u16) -> (u16, u16)
    requires { number < 65536 }
    ensures number { result.0 ≡ number }
    ensures rounds { result.1 ≡ gaining }
{
    (number as u16, gaining)
}

impl Work<'_> {
    // Each predicate's fact gathers the choices that have its position.
    fn start_predicates(
        &mut self,
        manager: &mut Manager<'_, '_, '_>,
        predicates: &[u16],
    ) -> Result<(), NoRoom>
        requires standing { Holding self.old.standing.now manager.old.register.now.count }
        requires gathered { Holding self.old.gathered.now manager.old.register.now.count }
        requires few { length predicates.now ≤ 16 }
        requires facts { (k : ℕ) → k < length predicates.now → slice_index predicates.now k < length self.old.standing.now }
        ensures stepped { Stepped manager.old manager.new self.old self.new }
        ensures starts { Starts predicates.now manager.old.register.now self.old manager.new.register.now self.new result }
    {
        for (position, fact) in predicates.iter().enumerate() {
            self.gather_position(manager, position as u8, *fact)?;
        }
        Ok(())
    }

    // Every choice starts with the opposites of all goals.
    fn start_goals<T: Theory>(&mut self, theory: &T, goals: &[u16])
        requires { T.Theory.facts theory.now ≤ length self.old.standing.now }
        ensures standing { self.new.standing.ghost_name ≡ self.old.standing.ghost_name }
        ensures gathered { self.new.gathered ≡ self.old.gathered }
        ensures long { length self.new.standing.now ≡ length self.old.standing.now }
        ensures holding { (count : ℕ) → Holding self.old.standing.now count → Holding self.new.standing.now count }
        ensures opposes { Opposes (meaning T.Theory theory.now) goals.now self.old self.new }
    {
        for goal in goals {
            let Some(opposite) = denied(theory, *goal) else {
                continue;
            };
            self.standing[opposite as usize] = 1;
        }
    }

    // One round: every place in its order. Places are numbers that a theory is asked for, and no list.
    fn round<T: Theory>(
        &mut self,
        manager: &mut Manager<'_, '_, '_>,
        theory: &T,
    ) -> Result<(), NoRoom>
        requires standing { Holding self.old.standing.now manager.old.register.now.count }
        requires gathered { Holding self.old.gathered.now manager.old.register.now.count }
        requires long { length self.old.standing.now ≡ T.Theory.facts theory.now + 1 }
        ensures stepped { Stepped manager.old manager.new self.old self.new }
        ensures rounded { Rounded (meaning T.Theory theory.now) manager.old.register.now self.old manager.new.register.now self.new result }
    {
        for place in 0..theory.places() {
            let Some(rule) = theory.rule(place) else {
                continue;
            };
            self.derive(manager, rule)?;
        }
        Ok(())
    }

    // One round, and whether it has changed some set.
    fn next_round<T: Theory>(
        &mut self,
        manager: &mut Manager<'_, '_, '_>,
        theory: &T,
    ) -> Result<bool, NoRoom>
        requires standing { Holding self.old.standing.now manager.old.register.now.count }
        requires gathered { Holding self.old.gathered.now manager.old.register.now.count }
        requires long { length self.old.standing.now ≡ T.Theory.facts theory.now + 1 }
        ensures stepped { Stepped manager.old manager.new self.old self.new }
        ensures turns { Turns (meaning T.Theory theory.now) manager.old.register.now self.old manager.new.register.now self.new result }
    {
        self.round(manager, theory)?;
        Ok(settle(self.standing, self.gathered))
    }

    // Rounds up to the first that changes no set: the number of the contradiction's choices, and how many rounds gained.
    fn rounds<T: Theory>(
        &mut self,
        manager: &mut Manager<'_, '_, '_>,
        theory: &T,
    ) -> Result<(u16, u16), NoRoom>
        requires standing { Holding self.old.standing.now manager.old.register.now.count }
        requires gathered { Holding self.old.gathered.now manager.old.register.now.count }
        requires long { length self.old.standing.now ≡ T.Theory.facts theory.now + 1 }
        ensures stepped { Stepped manager.old manager.new self.old self.new }
        ensures ends { RoundsEnd (meaning T.Theory theory.now) manager.old.register.now self.old manager.new.register.now result }
    {
        let facts = theory.facts();
        for gaining in 0..facts + 2 {
            let changed = self.next_round(manager, theory)?;
            if !changed {
                return Ok(outcome(self.standing[facts as usize], gaining));
            }
        }
        Ok(outcome(self.standing[facts as usize], facts + 2))
    }

    // Start sets, then rounds.
    fn saturate<T: Theory>(
        &mut self,
        manager: &mut Manager<'_, '_, '_>,
        inquiry: &Checked<'_, T>,
    ) -> Result<(u16, u16), NoRoom>
        requires standing { (k : ℕ) → slice_index self.old.standing.now k ≡ 0 }
        requires gathered { (k : ℕ) → slice_index self.old.gathered.now k ≡ 0 }
        requires long { length self.old.standing.now ≡ T.Theory.facts inquiry.now.theory.now + 1 }
        ensures stepped { Stepped manager.old manager.new self.old self.new }
        ensures saturates { Saturates (meaning T.Theory inquiry.now.theory.now) (ask inquiry.now.predicates.now inquiry.now.goals.now) manager.old.register.now manager.new.register.now result }
    {
        self.start_predicates(manager, inquiry.predicates)?;
        self.start_goals(inquiry.theory, inquiry.goals);
        begin(self.standing, self.gathered);
        self.rounds(manager, inquiry.theory)
    }
}

// A saturation in the two halves of the part of a work slice that it uses, which are zeroed first, and by the guard again.
fn guarded<T: Theory>(
    manager: &mut Manager<'_, '_, '_>,
    inquiry: &Checked<'_, T>,
    standing: &mut [u32],
    gathered: &mut [u32],
) -> Result<(u16, u16), NoRoom>
    requires standing { length standing.old ≡ T.Theory.facts inquiry.now.theory.now + 1 }
    requires gathered { length gathered.old ≡ T.Theory.facts inquiry.now.theory.now + 1 }
    ensures held { manager.new.register.ghost_name ≡ manager.old.register.ghost_name }
    ensures enlarged { Enlarged manager.old.register.now manager.new.register.now }
    ensures standing { standing.new ≡ replicate (length standing.old) 0 }
    ensures gathered { gathered.new ≡ replicate (length gathered.old) 0 }
    ensures saturates { Saturates (meaning T.Theory inquiry.now.theory.now) (ask inquiry.now.predicates.now inquiry.now.goals.now) manager.old.register.now manager.new.register.now result }
{
    standing.fill(0);
    gathered.fill(0);
    let mut work = Work { standing, gathered };
    work.saturate(manager, inquiry)
}

// A saturation with an index and tables of its own, on the stack. The caller chooses their sizes, so that a small question
// does not pay for the largest. Why the arrays stand here and in `joins::within`, is said there.
pub(crate) fn within<T: Theory, const HEADS: usize, const ROWS: usize, const PAIRS: usize>(
    register: &mut Register<'_, Row>,
    inquiry: &Checked<'_, T>,
    numbers: &mut [u32],
) -> Result<(u16, u16), NoRoom>
    requires kept { KeptBook register.old.rows.now register.old.count }
    requires heads { (0 < HEADS) × (HEADS ≤ 65536) }
    requires few_rows { ROWS ≤ 65536 }
    requires few_pairs { PAIRS ≤ 65536 }
    requires rows { capacity register.old.rows.now ≤ ROWS }
    requires used { 2 * (T.Theory.facts inquiry.now.theory.now + 1) ≤ length numbers.old }
    ensures enlarged { Enlarged register.old register.new }
    ensures work { numbers.new ≡ replicate (2 * (T.Theory.facts inquiry.now.theory.now + 1)) 0 ++ drop (2 * (T.Theory.facts inquiry.now.theory.now + 1)) numbers.old }
    ensures saturates { Saturates (meaning T.Theory inquiry.now.theory.now) (ask inquiry.now.predicates.now inquiry.now.goals.now) register.old register.new result }
{
    let mut heads = [0u16; HEADS];
    let mut next = [0u16; ROWS];
    let mut unions = [Entry::default(); PAIRS];
    let mut intersections = [Entry::default(); PAIRS];
    link(register, &mut heads, &mut next);
    let mut manager = Manager {
        register,
        heads: &mut heads,
        next: &mut next,
        unions: &mut unions,
        intersections: &mut intersections,
    };
    let half = inquiry.theory.facts() as usize + 1;
    let (used, _) = numbers.split_at_mut(2 * half);
    let (standing, gathered) = used.split_at_mut(half);
    guarded(&mut manager, inquiry, standing, gathered)
}
