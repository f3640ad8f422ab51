// The demands have no code: the page that says what is assured is specs/Demands.antt, wrong explorers that break it are in
// specs/Wrong.antt, and the proofs are in proofs/.
#![tactic(auto)]
