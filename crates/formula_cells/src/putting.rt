//! Each kind of cell is put behind the others. Where there is no memory for it, all stays as it is.
ghost use Rattle.std.specs.Prelude.{◌≡◌, ◌++◌, true, false, length, map, IfOk, OnErr};
ghost use Rattle.std.specs.List.{All};
ghost use Rattle.numbered_definitions.specs.declared.node.Node as node;
ghost use Rattle.numbered_definitions.specs.declared.node.NTerm as term;
ghost use Rattle.numbered_definitions.specs.NamedForm.{NodeNot, NodePair, NodeModal};
ghost use Rattle.formula_cells.specs.Stored.{IsCell, is_term, IsFormula, IsTerm, node_at, term_at, node_behind, term_behind};
ghost use Rattle.formula_cells.specs.Putting.{AddsNode, AddsTerm};

use crate::cell::Cell;
use crate::cells::Cells;
use nxf_base::Memory;
use nxf_tree::{Mode, Op};

impl Cells {
    /// The cell of a formula, with its parts.
    fn put_node(&mut self, cell: Cell, parts: &[usize]) -> Result<usize, Memory>
        requires good { IsCell self.old.cells (self.old.kids ++ parts.now) self.old.names (length self.old.cells) cell }
        requires kind { is_term cell ≡ false }
        ensures put { IfOk result (λ at. AddsNode self.old self.new at (node_behind self.old parts.now cell)) }
        ensures unchanged { OnErr result (self.new ≡ self.old) }
    {
        self.push(cell, parts)
    }

    /// The cell of a term, with its arguments.
    fn put_term(&mut self, cell: Cell, args: &[usize]) -> Result<usize, Memory>
        requires good { IsCell self.old.cells (self.old.kids ++ args.now) self.old.names (length self.old.cells) cell }
        requires kind { is_term cell ≡ true }
        ensures put { IfOk result (λ at. AddsTerm self.old self.new at (term_behind self.old args.now cell)) }
        ensures unchanged { OnErr result (self.new ≡ self.old) }
    {
        self.push(cell, args)
    }

    /// The true formula.
    pub fn put_true(&mut self) -> Result<usize, Memory>
        ensures put { IfOk result (λ at. AddsNode self.old self.new at node.True) }
        ensures unchanged { OnErr result (self.new ≡ self.old) }
    {
        self.put_node(Cell::True, &[])
    }

    /// The false formula.
    pub fn put_false(&mut self) -> Result<usize, Memory>
        ensures put { IfOk result (λ at. AddsNode self.old self.new at node.False) }
        ensures unchanged { OnErr result (self.new ≡ self.old) }
    {
        self.put_node(Cell::False, &[])
    }

    /// A predicate, by its number, with its arguments.
    pub fn put_atom(&mut self, symbol: u32, args: &[usize]) -> Result<usize, Memory>
        requires { All (IsTerm self.old) args.now }
        ensures put { IfOk result (λ at. AddsNode self.old self.new at (node.Atom symbol (map (term_at self.old) args.now))) }
        ensures unchanged { OnErr result (self.new ≡ self.old) }
    {
        let span = self.next_span(args);
        self.put_node(Cell::Atom(symbol, span), args)
    }

    /// An equation.
    pub fn put_same(&mut self, left: usize, right: usize) -> Result<usize, Memory>
        requires left { IsTerm self.old left }
        requires right { IsTerm self.old right }
        ensures put { IfOk result (λ at. AddsNode self.old self.new at (node.Same (term_at self.old left) (term_at self.old right))) }
        ensures unchanged { OnErr result (self.new ≡ self.old) }
    {
        self.put_node(Cell::Same(left, right), &[])
    }

    /// An inequation.
    pub fn put_differ(&mut self, left: usize, right: usize) -> Result<usize, Memory>
        requires left { IsTerm self.old left }
        requires right { IsTerm self.old right }
        ensures put { IfOk result (λ at. AddsNode self.old self.new at (node.Differ (term_at self.old left) (term_at self.old right))) }
        ensures unchanged { OnErr result (self.new ≡ self.old) }
    {
        self.put_node(Cell::Differ(left, right), &[])
    }

    /// A negation.
    pub fn put_not(&mut self, part: usize) -> Result<usize, Memory>
        requires { IsFormula self.old part }
        ensures put { IfOk result (λ at. AddsNode self.old self.new at (NodeNot (node_at self.old part))) }
        ensures unchanged { OnErr result (self.new ≡ self.old) }
    {
        self.put_node(Cell::Not(part), &[])
    }

    /// A conjunction.
    pub fn put_and(&mut self, parts: &[usize]) -> Result<usize, Memory>
        requires { All (IsFormula self.old) parts.now }
        ensures put { IfOk result (λ at. AddsNode self.old self.new at (node.And (map (node_at self.old) parts.now))) }
        ensures unchanged { OnErr result (self.new ≡ self.old) }
    {
        let span = self.next_span(parts);
        self.put_node(Cell::And(span), parts)
    }

    /// A disjunction.
    pub fn put_or(&mut self, parts: &[usize]) -> Result<usize, Memory>
        requires { All (IsFormula self.old) parts.now }
        ensures put { IfOk result (λ at. AddsNode self.old self.new at (node.Or (map (node_at self.old) parts.now))) }
        ensures unchanged { OnErr result (self.new ≡ self.old) }
    {
        let span = self.next_span(parts);
        self.put_node(Cell::Or(span), parts)
    }

    /// A connective between two formulas.
    pub fn put_pair(&mut self, op: Op, left: usize, right: usize) -> Result<usize, Memory>
        requires left { IsFormula self.old left }
        requires right { IsFormula self.old right }
        ensures put { IfOk result (λ at. AddsNode self.old self.new at (NodePair op (node_at self.old left) (node_at self.old right))) }
        ensures unchanged { OnErr result (self.new ≡ self.old) }
    {
        self.put_node(Cell::Pair(op, left, right), &[])
    }

    /// A modality, with the number of its index.
    pub fn put_modal(&mut self, mode: Mode, index: u32, body: usize) -> Result<usize, Memory>
        requires { IsFormula self.old body }
        ensures put { IfOk result (λ at. AddsNode self.old self.new at (NodeModal mode index (node_at self.old body))) }
        ensures unchanged { OnErr result (self.new ≡ self.old) }
    {
        self.put_node(Cell::Modal(mode, index, body), &[])
    }

    /// The variable of the quantifier at a level, counted from the outside and from 0.
    pub fn put_bound(&mut self, level: u32) -> Result<usize, Memory>
        ensures put { IfOk result (λ at. AddsTerm self.old self.new at (term.Bound level)) }
        ensures unchanged { OnErr result (self.new ≡ self.old) }
    {
        self.put_term(Cell::Bound(level), &[])
    }

    /// A function, by its number, with its arguments.
    pub fn put_app(&mut self, symbol: u32, args: &[usize]) -> Result<usize, Memory>
        requires { All (IsTerm self.old) args.now }
        ensures put { IfOk result (λ at. AddsTerm self.old self.new at (term.App symbol (map (term_at self.old) args.now))) }
        ensures unchanged { OnErr result (self.new ≡ self.old) }
    {
        let span = self.next_span(args);
        self.put_term(Cell::App(symbol, span), args)
    }
}
