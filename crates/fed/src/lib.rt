// A gatherer that is fed lines, one after the other: specs/ and proofs/ only.
#![tactic(auto)]
