// The search for a path as a dialogue, for any world of candidates: definitions and theorems alone. Crate `search` is the machine that holds it.
#![tactic(auto)]
