#![tactic(auto)]
// Whole runs of calls on a book: what holds of the numbers that it has given.
ghost use Rattle.std.specs.Prelude.{◌≡◌, ℕ, ◌<◌, length, ◌≢◌, IfSome, IfNone, slice_index};
ghost use Rattle.runs.specs.Statements.{EqualNumbersEqualChoices, GivenNumbersRead, QuestionRefusedWhenFull, JoinRefusedWhenFull, OnlyNumbersAreFree, FirstSame};

// The place of the first number that is equal to the one given, if there is one. Numbers that one book has given are equal
// exactly when they were given for the same choices, so this is the first answer with these choices.
#[tactic(auto, using(crate::proofs::Telling::equal_numbers_equal_choices, crate::proofs::Telling::given_numbers_read, crate::proofs::Determined::question_refused_when_full, crate::proofs::Determined::join_refused_when_full, crate::proofs::Determined::only_numbers_are_free, crate::proofs::Finding::first_same))]
pub fn first_equal(numbers: &[u16], number: u16) -> Option<usize>
    ensures within { IfSome result (λ i. i < length numbers.now) }
    ensures before { IfSome result (λ i. (k : ℕ) → k < i → slice_index numbers.now k ≢ number) }
    ensures found { IfSome result (λ i. slice_index numbers.now i ≡ number) }
    ensures none { IfNone result ((k : ℕ) → k < length numbers.now → slice_index numbers.now k ≢ number) }
    ensures choices { FirstSame numbers.now number result }
    ensures equal_numbers_equal_choices { EqualNumbersEqualChoices }
    ensures given_numbers_read { GivenNumbersRead }
    ensures question_refused_when_full { QuestionRefusedWhenFull }
    ensures join_refused_when_full { JoinRefusedWhenFull }
    ensures only_numbers_are_free { OnlyNumbersAreFree }
{
    numbers.iter().position(|earlier| *earlier == number)
}
