#![tactic(auto)]
// Laws of numbers that stand in bytes: definitions in specs/, the laws about them in proofs/. No code.
