// Laws only: some slabs of the ground laid without the others.
#![tactic(auto)]
