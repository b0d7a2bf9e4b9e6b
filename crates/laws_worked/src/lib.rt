//! Worked files and streams, and what the definitions say of them: each row in `proofs/` is an equation that computes.
#![tactic(auto)]
