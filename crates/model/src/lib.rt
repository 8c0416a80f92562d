//! What the words of the hot board mean, and what follows from their laws: definitions in specs/, lemmas in proofs/, no code.
#![tactic(auto)]
