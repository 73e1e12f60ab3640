// Laws only: what the code's proofs cite of the definitions of `rules`, shown in proofs/ of the definitions in specs/.
#![tactic(auto)]
