//! Tests of what no clause says of the evaluation of classical files: that a wide and a deep formula are judged at all, and
//! quickly.
#![tactic(auto)]

#[cfg(test)]
mod formulas;
#[cfg(test)]
mod judged;
