//! What the interpretation of a structure is: the file that says it, statement by statement, and its text.
#![tactic(auto)]
