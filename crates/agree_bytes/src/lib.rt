#![tactic(auto)]
// Chains of the player's calls on bytes: definitions in specs/, the theorems about them in proofs/. No code.
