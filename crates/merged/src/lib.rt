// Nothing runs here: this crate says what the merge of an index's leaves is (document 02, §4 and §6).
#![tactic(auto)]
