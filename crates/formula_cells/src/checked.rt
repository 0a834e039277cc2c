//! A file whose sorts were checked.

ghost use Rattle.std.specs.Prelude.{◌≡◌, ◌+◌, ◌<◌, ◌≤◌, length, slice_get, slice_index, Some};
ghost use Rattle.std.specs.List.{All};
ghost use Rattle.std.specs.Option.{option_map};
ghost use Rattle.nxf_tree.specs.WellFormed.{IsWellFormed};
ghost use Rattle.numbered_definitions.specs.NamedForm.{IsSortedFormula};
ghost use Rattle.formula_cells.specs.Expressions.{name_in, span_of};
ghost use Rattle.formula_cells.specs.Stored.{cell_in, IsCell, expression_of, expression_at, formulas_in, IsFormula, node_at};
ghost use Rattle.formula_cells.specs.Checked.{GreatestDepth, IsChecked};

use crate::cell::{Cell, Span};
use crate::cells::Cells;
use nxf_base::Text;
use nxf_tree::Signature;
use std::marker::Model;

/// The signature of a file, and its formulas in file order with numbers for names, as cells. The signature is well formed,
/// and each formula has a named form, which is closed and well sorted over the signature.
#[derive(Drop)]
pub struct Checked {
    signature: Signature,
    cells: Cells,
    depth: usize,
}

impl Model for Checked {
    ghost use Rattle.std.specs.Coded.{codes};
    ghost use Rattle.numbered_definitions.specs.contracts.node.Node as node;
    ghost use Rattle.formula_cells.specs.Stored.{formulas_in};
    ghost use Rattle.formula_cells.specs.Checked.{CheckedFile, IsChecked};

    ghost Value = { CheckedFile };

    ghost coded = { Prim.hlevel (codes, node.the_row.coded) };

    ghost view = { λ c. record { signature = c.signature; formulas = formulas_in c.cells; stored = c.cells } };

    ghost invariant = { λ c. IsChecked c.signature (formulas_in c.cells) c.depth };
}

impl Checked {
    /// What was checked: the signature, the formulas, and the greatest of their depths.
    pub fn new(signature: Signature, cells: Cells, depth: usize) -> Checked
        requires { IsChecked signature (formulas_in cells) depth }
        ensures { result ≡ record { signature = signature; formulas = formulas_in cells; stored = cells } }
    {
        Checked {
            signature,
            cells,
            depth,
        }
    }

    /// The signature: sorts, symbols and indexes in their order, with what the logic statement says of them. It is well
    /// formed, and all formulas are well sorted over it.
    pub fn signature(&self) -> &Signature
        ensures value { result.now ≡ self.now.signature }
        ensures well_formed { IsWellFormed self.now.signature }
        ensures sorted { All (λ n. IsSortedFormula self.now.signature n.node) self.now.formulas }
    {
        &self.signature
    }

    /// The number of formulas.
    pub fn len(&self) -> usize
        ensures { result ≡ length self.now.formulas }
    {
        self.cells.len()
    }

    /// The number of the statement of a formula, counted from 1. The formula is given by its place in the order of the file,
    /// counted from 0.
    pub fn place(&self, at: usize) -> u32
        requires { at < length self.now.formulas }
        ensures { option_map (λ n. n.place) (slice_get self.now.formulas at) ≡ Some result }
    {
        self.cells.place(at)
    }

    /// The name of the statement of a formula.
    pub fn label(&self, at: usize) -> &Text
        requires { at < length self.now.formulas }
        ensures { option_map (λ n. n.name) (slice_get self.now.formulas at) ≡ Some result.now }
    {
        self.cells.label(at)
    }

    /// The cell of a formula. Its named form is closed and well sorted.
    pub fn root(&self, at: usize) -> usize
        requires { at < length self.now.formulas }
        ensures formula { IsFormula self.now.stored result }
        ensures stands { option_map (λ n. n.node) (slice_get self.now.formulas at) ≡ Some (node_at self.now.stored result) }
        ensures sorted { IsSortedFormula self.now.signature (node_at self.now.stored result) }
    {
        self.cells.root(at)
    }

    /// A cell. What it names is there, and it stands for what its parts make.
    pub fn cell(&self, at: usize) -> &Cell
        requires { at < length self.now.stored.cells }
        ensures value { result.now ≡ cell_in self.now.stored.cells at }
        ensures good { IsCell self.now.stored.cells self.now.stored.kids self.now.stored.names at result.now }
        ensures stands { expression_at self.now.stored at ≡ expression_of self.now.stored result.now }
    {
        self.cells.cell(at)
    }

    /// A member of the kids.
    pub fn kid(&self, at: usize) -> usize
        requires { at < length self.now.stored.kids }
        ensures { result ≡ slice_index self.now.stored.kids at }
    {
        self.cells.kid(at)
    }

    /// The cells of a span.
    pub fn parts(&self, span: Span) -> &[usize]
        requires { span.from + span.len ≤ length self.now.stored.kids }
        ensures { result.now ≡ span_of self.now.stored.kids span }
    {
        self.cells.parts(span)
    }

    /// A name.
    pub fn name(&self, at: u32) -> &Text
        requires { at < length self.now.stored.names }
        ensures { result.now ≡ name_in self.now.stored.names at }
    {
        self.cells.name(at)
    }

    /// The greatest depth of the formulas, terms included.
    pub fn depth(&self) -> usize
        ensures { GreatestDepth self.now.signature self.now.formulas result }
    {
        self.depth
    }
}
