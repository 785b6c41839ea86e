// Demands 1 and 2 on packets of the RehaMove3, and what is promised of net charges: definitions and theorems alone, in specs/ and proofs/. No
// function stands here.
#![tactic(auto)]
