// That reading gives back what was written has no code: the statements stand in specs/, their proofs in proofs/.
#![tactic(auto)]
