//! Views of finite structures, whose readings are counted: a structure is read through its view alone, and each reading of
//! a cell is one step. So a contract can bound how often a structure is asked.
#![tactic(auto)]

mod kripke_view;
mod steps;
mod structure_view;

pub use kripke_view::KripkeView;
pub use steps::Steps;
pub use structure_view::StructureView;
