// What the promises of the calls on images come to, in specs/ and proofs/: that what was written reads back and answers as it did, that an accepted image is the same bytes when it is
// written again, or of the older form one that is read as it is, that any one changed word is found; that there is no second answer; and the worked examples. It has no code.
#![tactic(auto)]
