// The ledger has no code: what demand 3 says of every run stands in specs/, its proofs in proofs/.
#![tactic(auto)]
