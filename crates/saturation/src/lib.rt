#![tactic(auto)]
// The mathematics of questions: no code. Rounds end, derived is impossible, and what a saturation does to a book.
