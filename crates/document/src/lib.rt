// Nothing runs here: this crate says what the leaf of a document is, and holds the theorems on it.
#![tactic(auto)]
