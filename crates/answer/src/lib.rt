// The answer to any byte string, in definitions alone: what the theory of lines and groups stands on, and the code meets.
#![tactic(auto)]
