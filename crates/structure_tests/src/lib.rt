//! Tests of what no clause says of finite structures: that they can be made, that what is written is read, and the first
//! condition that fails, in small structures and in some with a thousand worlds.
#![tactic(auto)]

#[cfg(test)]
mod corresponding;
#[cfg(test)]
mod existence;
#[cfg(test)]
mod interpretations;
#[cfg(test)]
mod relations;
#[cfg(test)]
mod structures;
#[cfg(test)]
mod thousand_worlds;
#[cfg(test)]
mod values;
#[cfg(test)]
mod views;
