// What stands at every tick has no code: the statements stand in specs/, their proofs in proofs/.
#![tactic(auto)]
