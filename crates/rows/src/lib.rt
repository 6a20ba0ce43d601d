// What a run belongs to, and which runs lines of 102 bytes can leave: specs/ and proofs/ only.
#![tactic(auto)]
