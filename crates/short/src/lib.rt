// The shortest text of a GSV line, and what a line of 102 bytes has room for: specs/ and proofs/ only.
#![tactic(auto)]
