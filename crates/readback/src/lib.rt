// No code: the proofs here show that a subgraph which is written reads back as itself.
#![tactic(auto)]
