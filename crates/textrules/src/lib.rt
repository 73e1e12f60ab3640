// Definitions and promises only: the rules of docs/RULES.md about texts stand in specs/, what is shown of them in proofs/.
#![tactic(auto)]
