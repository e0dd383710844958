// Laws about the definitions of eon_spec; they stand in proofs/.
#![tactic(auto)]
