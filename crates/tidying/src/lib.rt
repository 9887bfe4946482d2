// Laws only: the tidy order of a graph's edges, and what a graph in tidy order keeps.
#![tactic(auto)]
