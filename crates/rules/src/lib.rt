// The definition has no code: what document 01 says stands in specs/, its laws in proofs/.
#![tactic(auto)]
