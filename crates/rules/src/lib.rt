// Definitions and promises only: the rules of docs/RULES.md stand in specs/, what is shown of them in proofs/.
#![tactic(auto)]
