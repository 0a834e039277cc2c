//! What the commands answer, as functions of files alone: no libraries, sinks or counts are in it. It has no code: `specs/` has
//! what contracts cite.
#![tactic(auto)]
