#![tactic(auto)]
// The mathematics of differences has no code: specs/ has what the theory means, and proofs/ that it keeps the laws.
