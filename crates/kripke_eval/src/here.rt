//! Where formulas are evaluated.

use formula_cells::Checked;
use structure_views::KripkeView;

/// Among which cells a formula stands, and in which structure and at which world it is evaluated.
#[derive(Clone, Copy)]
pub(crate) struct Here<'a> {
    pub checked: &'a Checked,
    pub view: &'a KripkeView<'a>,
    pub world: u32,
}
