// No code: the proofs here show which texts are those of a subgraph of some graph, and what a text that is read yields.
#![tactic(auto)]
