// Packets of ScienceMode2 (RehaStim2) as a generation of packets: definitions in specs/, its laws in proofs/. No function stands here.
#![tactic(auto)]
