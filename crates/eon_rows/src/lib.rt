// Rows: the definitions of eon_spec computed on texts at their edges; they stand in proofs/. Nothing depends on this crate.
#![tactic(auto)]
