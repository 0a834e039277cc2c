//! A classical file whose formulas stand ready for evaluation.
ghost use Rattle.std.specs.Prelude.{◌≡◌, ◌+◌, ◌<◌, ◌≤◌, length, slice_get, Some};
ghost use Rattle.std.specs.Option.{option_map};
ghost use Rattle.formula_cells.specs.Expressions.{expression, span_of};
ghost use Rattle.formula_cells.specs.Stored.{cell_in, IsCell, expressions_of, expression_at, IsFormula, node_at};
ghost use Rattle.classical_evaluation_definitions.specs.ClassicalFaults.{RoleFormula};
ghost use Rattle.classical_evaluation_definitions.specs.ClassicalSorting.{IsWellFormedClassical};
ghost use Rattle.classical_numbering.specs.Prepared.{IsPrepared, StandsFor, deepest, meant_by, prepared_of};

use formula_cells::{Cell, Cells, Span};
use nxf_base::Text;
use nxf_tree::ClassicalSignature;
use std::marker::Model;

/// The formulas of a classical file in their order, each with its role, and a copy of the signature that they are over. The
/// signature is well formed, and each formula is closed and well sorted over it. Symbol 0 is `mk_actual` among the functions
/// and `$distinct` among the predicates, and the tables of the signature follow from 1 on.
#[derive(Drop)]
pub struct Prepared {
    signature: ClassicalSignature,
    /// The name that a formula has here is the word of its role.
    cells: Cells,
    depth: usize,
}

impl Model for Prepared {
    ghost use Rattle.std.specs.Coded.{codes};
    ghost use Rattle.nxf_tree.specs.contracts.tree.Formula as formula;
    ghost use Rattle.classical_numbering.specs.Prepared.{IsPrepared, PreparedFormulas, prepared_of};

    ghost Value = { PreparedFormulas };

    ghost coded = { Prim.hlevel (codes, formula.the_row.coded) };

    ghost view = { λ p. prepared_of p.signature p.cells };

    ghost invariant = { λ p. IsPrepared p.signature p.cells p.depth };
}

impl Prepared {
    /// What was prepared: the signature, the formulas, and the greatest of their depths.
    pub(crate) fn new(signature: ClassicalSignature, cells: Cells, depth: usize) -> Prepared
        requires { IsPrepared signature cells depth }
        ensures { result ≡ prepared_of signature cells }
    {
        Prepared {
            signature,
            cells,
            depth,
        }
    }

    /// The signature that the formulas are over. It is well formed.
    pub fn signature(&self) -> &ClassicalSignature
        ensures value { result.now ≡ self.now.signature }
        ensures well_formed { IsWellFormedClassical self.now.signature }
    {
        &self.signature
    }

    /// The number of formulas.
    pub fn len(&self) -> usize
        ensures { result ≡ length self.now.formulas }
    {
        self.cells.len()
    }

    /// The greatest depth of the formulas, terms included.
    pub fn depth(&self) -> usize
        ensures { result ≡ deepest self.now.formulas }
    {
        self.depth
    }

    /// The word of the role of a formula. The formula is given by its place in the order of the file, counted from 0.
    pub fn role(&self, at: usize) -> &Text
        requires { at < length self.now.formulas }
        ensures { option_map (λ (f : RoleFormula). f.word) (slice_get self.now.formulas at) ≡ Some result.now }
    {
        self.cells.label(at)
    }

    /// The cell of a formula. It stands for the formula, which is closed and well sorted.
    pub fn root(&self, at: usize) -> usize
        requires { at < length self.now.formulas }
        ensures formula { IsFormula self.now.stored result }
        ensures is { let meant = meant_by self.now.signature (node_at self.now.stored result) in
            option_map (λ (f : RoleFormula). f.formula) (slice_get self.now.formulas at) ≡ Some meant }
        ensures stands { let n = node_at self.now.stored result in StandsFor self.now.signature n (meant_by self.now.signature n) }
    {
        self.cells.root(at)
    }

    /// A cell. What it names is there, and it stands for what its parts make.
    pub fn cell(&self, at: usize) -> &Cell
        requires { at < length self.now.stored.cells }
        ensures value { result.now ≡ cell_in self.now.stored.cells at }
        ensures good { IsCell self.now.stored.cells self.now.stored.kids self.now.stored.names at result.now }
        ensures stands { let stored = self.now.stored in
            expression_at stored at ≡ expression stored.kids stored.names (expressions_of stored) result.now }
    {
        self.cells.cell(at)
    }

    /// The cells of a span.
    pub fn parts(&self, span: Span) -> &[usize]
        requires { span.from + span.len ≤ length self.now.stored.kids }
        ensures { result.now ≡ span_of self.now.stored.kids span }
    {
        self.cells.parts(span)
    }
}
