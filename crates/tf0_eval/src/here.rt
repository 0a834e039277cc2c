//! Where formulas are evaluated.

use classical_numbering::Prepared;
use structure_views::StructureView;

/// Among which cells a formula stands, and in which structure it is evaluated.
#[derive(Clone, Copy)]
pub(crate) struct Here<'a> {
    pub prepared: &'a Prepared,
    pub view: &'a StructureView<'a>,
}
