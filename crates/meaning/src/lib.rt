// Nothing runs here: this crate says when a row satisfies a query (document 01). The search is promised against it.
#![tactic(auto)]
