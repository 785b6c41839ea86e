// A unit's trace written as a sheet: definitions and theorems alone, in specs/ and proofs/. No function stands here.
#![tactic(auto)]
