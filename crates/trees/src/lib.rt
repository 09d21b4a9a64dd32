// No code: definitions in specs/, laws in proofs/.

#![tactic(auto)]
