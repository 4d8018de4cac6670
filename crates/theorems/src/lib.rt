// No code: what no single function says, stated in specs/ and shown in proofs/.
#![tactic(auto)]
