//! Worked books: the prover computes, from the bytes of each, the text of its report, and a person can check both by hand.
#![tactic(auto)]
