// The B-skip-list of document 01 as mathematics: definitions in specs/, laws in proofs/. There is no code here.
#![tactic(auto)]
