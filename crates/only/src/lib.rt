// No second answer meets a contract: see proofs/.
#![tactic(auto)]
