//! What numbered formulas say in a Kripke structure whose tables are read by number, and what a whole file asks of one. It has
//! no code: `specs/` has what contracts cite.
#![tactic(auto)]
