// No code stands here: proofs/ holds the theorems about texts and what they spell.
#![tactic(auto)]
