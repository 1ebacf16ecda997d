// No code stands here: definitions and laws that several crates share are in specs/ and proofs/.
#![tactic(auto)]
