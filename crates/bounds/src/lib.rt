// That vectors and counts stay in range has no code: the statements stand in specs/, their proofs in proofs/.
#![tactic(auto)]
