//! Problems, structures and refusals worked out by computation from the trees of files, in `proofs/`: they show that the
//! definitions say what a reader expects.
#![tactic(auto)]
