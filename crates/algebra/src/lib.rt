// Mathematics only: the definitions stand in specs/, what is shown of them in proofs/.
#![tactic(auto)]
