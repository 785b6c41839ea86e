// Demands 1 and 2 on packets of ScienceMode2: definitions and theorems alone, in specs/ and proofs/. No function stands here.
#![tactic(auto)]
