ghost use Rattle.std.specs.Prelude.{◌≡◌, ℕ, ◌≤◌, length, Result, MatchResult};
ghost use Rattle.records.specs.declared.record.Statement.{Statement};
ghost use Rattle.session.specs.declared.faults.Fault.{Fault};
ghost use Rattle.session.specs.Stated.{terms_stated, differences_stated, all_stated};

use crate::faults::Fault;
use arrayvec::ArrayVec;
use differences::{Bound, Differences};
use records::{RecordFault, Relation, Statement};
use terms::Equality;
use theory::Theory;

// A theory whose facts can be stated in records.
pub trait Stated: Theory {
    // the number of the fact that a record states, or why there is none
    ghost stated: { Self → Statement → Result ℕ Fault };

    fn state(&self, statement: Statement) -> Result<u16, Fault>
        ensures { result ≡ stated self.now statement };
}

impl Stated for Equality<'_, '_> {
    ghost stated = { λ e. terms_stated e.table.now.lent.count };

    // Equality has = and ≠, and no constant.
    fn state(&self, statement: Statement) -> Result<u16, Fault> {
        let relation = match statement.relation {
            Relation::Equal => terms::Relation::Equal,
            Relation::Different => terms::Relation::Different,
            _ => return Err(RecordFault::WrongRelation.into()),
        };
        if statement.constant != 0 {
            return Err(RecordFault::NotZero.into());
        }
        Ok(self.fact(relation, statement.left, statement.right)?)
    }
}

impl Stated for Differences {
    ghost stated = { λ d. differences_stated d.variables };

    fn state(&self, statement: Statement) -> Result<u16, Fault> {
        let bound = match statement.relation {
            Relation::AtMost => Bound::AtMost,
            Relation::Below => Bound::Below,
            _ => return Err(RecordFault::WrongRelation.into()),
        };
        Ok(self.fact(bound, statement.left, statement.right, statement.constant)?)
    }
}

// The facts that the statements state, in their order.
#[tactic(auto, using(crate::proofs::Gathering::one_more))]
pub(crate) fn facts_of<T: Stated, const MOST: usize>(
    theory: &T,
    statements: &[Statement],
) -> Result<ArrayVec<u16, MOST>, Fault>
    requires { length statements.now ≤ MOST }
    ensures { MatchResult result (λ facts. all_stated (T.stated theory.now) statements.now ≡ Ok facts.items) (λ fault. all_stated (T.stated theory.now) statements.now ≡ Err fault) }
{
    let mut facts = ArrayVec::new();
    for statement in statements {
        facts.push(theory.state(*statement)?);
    }
    Ok(facts)
}
