ghost use Rattle.std.specs.Prelude.{◌<◌, IfSome};
ghost use Rattle.book.specs.Scratch.{Recalls, Writes};

// A union or an intersection that was computed before. An empty entry has zeros, which are no numbers of rows: an `Option` would
// take a third more of the stack, all of which each call zeroes.
#[derive(Clone, Copy, Default)]
pub struct Entry {
    left: u16,
    right: u16,
    result: u16,
}

// The slot of a pair: a mask, as in the index.
fn slot(slots: usize, a: u16, b: u16) -> usize
    ensures { 0 < slots → result < slots }
{
    (a as usize + b as usize * 613) & slots.saturating_sub(1)
}

// The result for two numbers, the lesser first, if the table has it.
pub(crate) fn look_up(table: &[Entry], a: u16, b: u16) -> Option<u16>
    ensures { IfSome result (λ n. Recalls table.now a b n) }
{
    let entry = *table.get(slot(table.len(), a, b))?;
    (entry.left == a && entry.right == b).then_some(entry.result)
}

// Writes the result for two numbers down, the lesser first, in place of another.
pub(crate) fn write_down(table: &mut [Entry], a: u16, b: u16, res: u16)
    ensures { Writes table.old a b res table.new }
{
    let at = slot(table.len(), a, b);
    if at < table.len() {
        table[at] = Entry {
            left: a,
            right: b,
            result: res,
        };
    }
}
