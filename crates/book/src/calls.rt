ghost use Rattle.std.specs.Prelude.{◌≡◌, ◌+◌, ◌/◌, ◌%◌, ◌^◌, ◌<◌, ◌≤◌, ◌≢◌, IsTrue};
ghost use Rattle.register.specs.Rows.{Cleared};
ghost use Rattle.diagrams.specs.Diagram.{CanonicalRows, blank, member};
ghost use Rattle.diagrams.specs.Books.{opening, book_of};
ghost use Rattle.book.specs.Calls.{Reads};
ghost use Rattle.book.specs.Runs.{Begins, GoesOn, reading};

use crate::book::Book;
use crate::faults::BookFault;
use crate::manager::MOST_ROWS;
use diagrams::Row;
use register::Register;

// The rows that a book uses, blank.
fn cleared(rows: &mut [Row]) -> Register<'_, Row>
    ensures held { result.rows.ghost_name ≡ rows.entry.ghost_name }
    ensures cleared { Cleared rows.old 0 65534 blank result.rows.now }
    ensures none { result.count ≡ 0 }
{
    Register::open(rows, MOST_ROWS, Row::default())
}

// The rows that a refused call has put are blank again.
pub(crate) fn give_back(register: &mut Register<'_, Row>, before: u16)
    ensures held { register.new.rows.ghost_name ≡ register.old.rows.ghost_name }
    ensures cleared { before ≤ register.old.count → Cleared register.old.rows.now before register.old.count blank register.new.rows.now × (register.new.count ≡ before) }
{
    register.roll_back(before, Row::default());
}

// Where a choice goes on from a row.
fn side(row: Row, choice: u16) -> u16
    requires { row.position < 16 }
    ensures with { choice / 2 ^ row.position % 2 ≡ 1 → result ≡ row.with }
    ensures without { (choice / 2 ^ row.position % 2 ≢ 1) → result ≡ row.without }
{
    let chosen = (choice >> row.position) % 2 == 1;
    if chosen { row.with } else { row.without }
}

impl<'a> Book<'a> {
    // An empty book over lent rows: the first 65,534, or all if fewer, are zeroed, the others untouched.
    pub fn open(rows: &'a mut [Row]) -> Book<'a>
        ensures held { result.lent.rows.ghost_name ≡ rows.entry.ghost_name }
        ensures opened { book_of result.lent.rows.now result.lent.count ≡ opening rows.old }
        ensures begins { Begins (book_of result.lent.rows.now result.lent.count) }
    {
        let lent = cleared(rows);
        Book { lent }
    }

    // How many rows are in use.
    pub fn rows_in_use(&self) -> u16
        ensures { result ≡ self.now.lent.count }
    {
        self.lent.count
    }

    // Whether the book holds a number.
    pub(crate) fn holds(&self, number: u16) -> bool
        ensures yes { IsTrue result → number < self.now.lent.count + 2 }
        ensures not { (IsTrue result → ⊥) → self.now.lent.count + 2 ≤ number }
    {
        number < 2 || number - 2 < self.lent.count
    }

    // Follows the rows from a held number to 0 or 1. Positions rise from row to row, so there are at most 16 of them.
    fn follow(&self, number: u16, choice: u16) -> bool
        requires { number < self.now.lent.count + 2 }
        ensures { result ≡ member self.now.lent.rows.now number choice }
    {
        let mut n = number;
        while n >= 2 {
            n = side(self.lent.rows[n as usize - 2], choice);
        }
        n == 1
    }

    // Whether a choice belongs to a number.
    pub fn read(&self, number: u16, choice: u16) -> Result<bool, BookFault>
        ensures reads { Reads self.now.lent.rows.now self.now.lent.count number choice result }
        ensures canonical { CanonicalRows self.now.lent.rows.now self.now.lent.count }
        ensures continues { GoesOn (book_of self.now.lent.rows.now self.now.lent.count) (reading number choice) result (book_of self.now.lent.rows.now self.now.lent.count) }
    {
        if !self.holds(number) {
            return Err(BookFault::NotHeld);
        }
        Ok(self.follow(number, choice))
    }
}
