// Mathematics that no module owns, in specs/ and proofs/: counting, sums, lists of the same members, lists one after another.
// It has no code.
#![tactic(auto)]
