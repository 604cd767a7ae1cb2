ghost use Rattle.std.specs.Prelude.{◌≡◌, ℕ, ◌+◌, ◌-◌, ◌*◌, ◌<◌, ◌≤◌, IfOk, length, ◌≢◌, slice_index};
ghost use Rattle.session.specs.Answers.{choices};

use book::{Book, Inquiry, QuestionFault};
use theory::Theory;

// An answer: its number in the book, and over how many positions its choices are.
#[derive(Clone, Copy)]
pub(crate) struct Answer {
    pub(crate) number: u16,
    positions: u32,
    ghost few: { positions ≤ 16 },
}

impl Answer {
    // How many choices over its positions belong to it.
    pub(crate) fn count(self, book: &Book<'_>) -> u32
        ensures few { result ≤ 65536 }
        ensures exact { result ≡ choices book.now.lent.rows.now book.now.lent.count self.number self.positions }
    {
        (0..1u32 << self.positions)
            .filter(|choice| book.read(self.number, *choice as u16) == Ok(true))
            .count() as u32
    }
}

// A question's answer has one position for each predicate.
pub(crate) fn question<T: Theory>(
    book: &mut Book<'_>,
    inquiry: &Inquiry<'_, T>,
    work: &mut [u32],
) -> Result<Answer, QuestionFault>
    ensures { IfOk result (λ answer. answer.positions ≡ length inquiry.now.predicates.now) }
{
    let (number, _) = book.question(inquiry, work)?;
    Ok(Answer {
        number,
        positions: inquiry.predicates.len() as u32,
    })
}

// An abstraction's answer has two, one for the predicate and one for its opposite.
pub(crate) fn abstraction<T: Theory>(
    book: &mut Book<'_>,
    inquiry: &Inquiry<'_, T>,
    work: &mut [u32],
) -> Result<Answer, QuestionFault>
    ensures { IfOk result (λ answer. answer.positions ≡ 2 * length inquiry.now.predicates.now) }
{
    let (number, _) = book.abstraction(inquiry, work)?;
    Ok(Answer {
        number,
        positions: 2 * inquiry.predicates.len() as u32,
    })
}

// The ordinal of the first answer with this number: of a new one behind the earlier ones where none of these has it.
pub(crate) fn first_ordinal(earlier: &[u16], number: u16) -> usize
    ensures within { (1 ≤ result) × (result ≤ length earlier.now + 1) }
    ensures before { (k : ℕ) → k + 1 < result → slice_index earlier.now k ≢ number }
    ensures found { result ≤ length earlier.now → slice_index earlier.now (result - 1) ≡ number }
{
    runs::first_equal(earlier, number).unwrap_or(earlier.len()) + 1
}
