// The RehaMove3's packets as a generation: definitions and laws alone, in specs/ and proofs/. No function stands here.
#![tactic(auto)]
