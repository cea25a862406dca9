// Nothing runs here: what the proofs by hand share.

#![tactic(auto)]
