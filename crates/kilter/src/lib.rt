// Where no subgraph meets both bounds: a count over the vertices that a search has reached shows it. This crate has theorems only.
#![tactic(auto)]
