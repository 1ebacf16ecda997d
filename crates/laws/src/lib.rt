// No code stands here: proofs/ holds the theorems about the definitions of the crate `rules`.
#![tactic(auto)]
