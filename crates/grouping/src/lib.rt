// Merges one after the other, in any grouping of neighbours, over calls of `merge`. This crate has definitions and theorems, no code.
#![tactic(auto)]
