#![tactic(auto)]
// The worked cases that are proved: data and one statement in specs/, one theorem in proofs/. No code.
