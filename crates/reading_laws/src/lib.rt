//! Laws of what is read: it is regular, within the levels of its profile, and no deeper and no heavier than its tokens.
#![tactic(auto)]

ghost use Rattle.std.specs.Prelude.{[], ℕ, Bool};
ghost use Rattle.std.specs.List.{AllByRecursion};
ghost use Rattle.nxf_terminals.specs.Input.{Input};
ghost use Rattle.nxf_tree.specs.declared.tree.Statement.{Statement};
ghost use Rattle.syntax_definitions.specs.Files.{IsNoStop};
ghost use Rattle.syntax_definitions.specs.Statements.{IsStatement};

/// No rule reads tokens without a full stop, so none reads a rest of the tokens that has none.
pub fn no_rest_is_read()
    ensures { (w : Bool) (most n : ℕ) (p : Input) (s : Statement) → AllByRecursion IsNoStop p → IsStatement w most n p s [] → ⊥ }
{}
