// Sentences of document 01 beside the three demands: definitions and theorems alone, in specs/ and proofs/. No function stands here.
#![tactic(auto)]
