// No code: what every call keeps, shown in proofs/.
#![tactic(auto)]
