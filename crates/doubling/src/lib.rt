// Laws only: the doubled graph passes the tests, and prices from it cover the graph, up to its largest weight.
#![tactic(auto)]
