// No code: how tight the contracts of all crates are.
#![tactic(auto)]
