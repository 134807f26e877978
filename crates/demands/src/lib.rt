// What the promises of the public calls come to, in specs/ and proofs/: demand 3; that the order of the ids does not matter, nor room beyond what is enough, nor
// what lies past the used part of the stores; that samples come from the level words alone; that there is no second answer; which programs are shut out; and
// the worked examples. It has no code.
#![tactic(auto)]
