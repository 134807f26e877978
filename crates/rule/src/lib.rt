// The level rule as mathematics, in specs/ and proofs/: what a level sets, who goes on, how a run ends, each id's row, the row list.
// It holds over any position rule, any size rule and any number of levels. It has no code.
#![tactic(auto)]
