//! Tests of what no case from texts to texts can show: devices that deceive, libraries in boxes, profiles that no command
//! reads yet, and each public call up to the printer that no case reaches, once.
#![tactic(auto)]

#[cfg(test)]
mod deceiving;
#[cfg(test)]
mod devices;
#[cfg(test)]
mod gathering;
#[cfg(test)]
mod outcome;
#[cfg(test)]
mod printing;
#[cfg(test)]
mod profiles;
#[cfg(test)]
mod tokens;
#[cfg(test)]
mod trees;
