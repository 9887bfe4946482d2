// Laws only: an old text rewritten is read by the new rules as it was by the old.
#![tactic(auto)]
