ghost use Rattle.diagrams.specs.Books.{KeptBook};

use diagrams::Row;
use register::Register;

// Sets of choices as rows of a decision diagram in lent memory. The first rows are in use; what always holds of them is
// part of the type, so that no call has to ask for it.
#[derive(Drop)]
pub struct Book<'a> {
    pub(crate) lent: Register<'a, Row>,
    ghost kept: { KeptBook lent.rows.now lent.count },
}
