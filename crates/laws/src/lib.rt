// Laws on lists and tests that several crates cite: no code, and specs/ has them all.
#![tactic(auto)]
