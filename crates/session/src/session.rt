ghost use Rattle.std.specs.Prelude.{◌≡◌, [], IfSome, IfOk, OnErr, is_ok, is_some, if◌then◌else◌};
ghost use Rattle.records.specs.Pending.{predicates_of, goals_of};
ghost use Rattle.records.specs.Records.{record_of};
ghost use Rattle.session.specs.Running.{Ran};
ghost use Rattle.session.specs.Taking.{first_refusal, predicates_after, goals_after, asks, Accepted, TableAfter};

use crate::faults::Fault;
use crate::progress::Progress;
use book::Book;
use records::{Line, refusal_line};
use terms::TermTable;

// A run over a file of records: the terms so far, and the questions about them.
#[derive(Drop)]
pub struct Session<'s, 't, 'b> {
    table: &'s mut TermTable<'t>,
    book: &'s mut Book<'b>,
    work: &'s mut [u32],
    progress: Progress,
}

impl<'s, 't, 'b> Session<'s, 't, 'b> {
    // A session with nothing asked and nothing waiting.
    pub fn new(
        table: &'s mut TermTable<'t>,
        book: &'s mut Book<'b>,
        work: &'s mut [u32],
    ) -> Session<'s, 't, 'b>
        ensures table { result.table.ghost_name ≡ table.entry.ghost_name }
        ensures book { result.book.ghost_name ≡ book.entry.ghost_name }
        ensures work { result.work.ghost_name ≡ work.entry.ghost_name }
        ensures waiting { (predicates_of result.progress.pending ≡ []) × (goals_of result.progress.pending ≡ []) }
        ensures answers { result.progress.answers.items ≡ [] }
    {
        Session::resume(Progress::new(), table, book, work)
    }

    // A session that goes on from where another was paused, over any table, book and work slice.
    pub fn resume(
        progress: Progress,
        table: &'s mut TermTable<'t>,
        book: &'s mut Book<'b>,
        work: &'s mut [u32],
    ) -> Session<'s, 't, 'b>
        ensures table { result.table.ghost_name ≡ table.entry.ghost_name }
        ensures book { result.book.ghost_name ≡ book.entry.ghost_name }
        ensures work { result.work.ghost_name ≡ work.entry.ghost_name }
        ensures progress { result.progress ≡ progress }
    {
        Session {
            table,
            book,
            work,
            progress,
        }
    }

    // How far the session has come; table, book and work slice are their owners' again.
    pub fn pause(self) -> Progress
        ensures { result ≡ self.entry.progress }
    {
        let Session { progress, .. } = self;
        progress
    }
}

impl Session<'_, '_, '_> {
    // How many rows of the book are in use.
    pub fn rows_in_use(&self) -> u16
        ensures { result ≡ self.now.book.now.lent.count }
    {
        self.book.rows_in_use()
    }

    // Takes the records of a file one after the other, up to the end or the first that is refused. Each line goes to
    // `print`: those of the answers, and that of the refusal.
    pub fn run<E, F: FnMut(Line) -> Result<(), E>>(
        &mut self,
        records: &[u8],
        mut print: F,
    ) -> Result<(), E>
        requires { F.IsAlwaysCallable print }
        ensures { (last : F) × Ran (λ f line r g. F.step f line r g) self.old print 1 records.now self.new last result }
    {
        for (place, bytes) in (1u64..).zip(records.chunks(8)) {
            match self.take(bytes) {
                Ok(None) => {}
                Ok(Some(line)) => print(line)?,
                Err(fault) => return print(refusal_line(fault, place)),
            }
        }
        Ok(())
    }

    // Takes one record: nothing to print for a term, a predicate or a goal, the answer's line for a question or an
    // abstraction. A refused record leaves what waits.
    pub fn take(&mut self, bytes: &[u8]) -> Result<Option<Line>, Fault>
        ensures refused { IfSome (first_refusal self.old.progress self.old.table.now.lent.count (record_of bytes.now)) (λ fault. result ≡ Err fault) }
        ensures accepted { Accepted (record_of bytes.now) (first_refusal self.old.progress self.old.table.now.lent.count (record_of bytes.now)) result }
        ensures table { TableAfter (record_of bytes.now) self.old.table.now.lent.rows.now self.old.table.now.lent.count self.new.table.now.lent.rows.now self.new.table.now.lent.count result }
        ensures predicates { predicates_of self.new.progress.pending ≡ (if is_ok result then predicates_after (record_of bytes.now) (predicates_of self.old.progress.pending) else predicates_of self.old.progress.pending) }
        ensures goals { goals_of self.new.progress.pending ≡ (if is_ok result then goals_after (record_of bytes.now) (goals_of self.old.progress.pending) else goals_of self.old.progress.pending) }
        ensures answers { OnErr result (self.new.progress.answers.items ≡ self.old.progress.answers.items) }
        ensures line { IfOk result (λ line. is_some line ≡ asks (record_of bytes.now)) }
    {
        self.progress.take(self.table, self.book, self.work, bytes)
    }
}
