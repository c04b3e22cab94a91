#![tactic(auto)]
// What the player's calls have to do with the runs: definitions in specs/, the theorems about them in proofs/. No code.
