// No code stands here: specs/ lists worked cases of the rules, and proofs/ shows that each holds.
#![tactic(auto)]
