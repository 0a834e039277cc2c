//! What numbered formulas say in a classical structure whose tables are read by number, and which formula of a classical file is
//! the first that keeps a structure from being a countermodel. It has no code: `specs/` has what contracts cite.
#![tactic(auto)]
