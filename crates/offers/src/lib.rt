// The offers have no code: what demand 3 says of every load's and RMW's offers stands in specs/, its proofs in proofs/.
#![tactic(auto)]
