//! Laws of the grammar: the descent finds exactly what the grammar has, and no tokens spell two trees.
#![tactic(auto)]

ghost use Rattle.std.specs.Prelude.{◌≡◌, ℕ, Bool, Some};
ghost use Rattle.nxf_terminals.specs.Input.{Input};
ghost use Rattle.syntax_definitions.specs.Annotations.{IsAnnotation, annotation};
ghost use Rattle.syntax_definitions.specs.Logic.{IsLogic};
ghost use Rattle.syntax_definitions.specs.Statements.{IsStatement};
ghost use Rattle.syntax_definitions.specs.Typings.{IsTyping};
ghost use Rattle.syntax_definitions.specs.steps.ReadLogic.{logic_spec};
ghost use Rattle.syntax_definitions.specs.steps.ReadStatements.{read_statement};
ghost use Rattle.syntax_definitions.specs.steps.ReadTypings.{typing_of};
ghost use Rattle.grammar_laws.specs.GrammarLaws.{Finds, IsSound, OneFormula, FindsTypings, FindsAnnotations, OneFile, FileOrFault, OneFault};

/// No tokens spell two formulas.
pub fn one_formula()
    ensures { OneFormula }
{}

/// The descent finds exactly the annotations of the grammar.
pub fn exact_annotation()
    ensures found { FindsAnnotations }
    ensures sound { (xs rest : Input) → annotation xs ≡ Some (tt, rest) → IsAnnotation xs rest }
{}

/// The descent finds exactly the logic statements of the grammar.
pub fn exact_logic()
    ensures found { (left : ℕ) → Finds (logic_spec left) (IsLogic left) }
    ensures sound { (left : ℕ) → IsSound (logic_spec left) (IsLogic left) }
{}

/// The descent finds exactly the statements of the grammar.
pub fn exact_statement()
    ensures found { (w : Bool) (most levels : ℕ) → Finds (read_statement w most levels) (IsStatement w most levels) }
    ensures sound { (w : Bool) (most levels : ℕ) → IsSound (read_statement w most levels) (IsStatement w most levels) }
{}

/// The descent finds exactly the typings of the grammar.
pub fn exact_typing()
    ensures found { FindsTypings }
    ensures sound { (most left : ℕ) → IsSound (typing_of most left) (IsTyping most left) }
{}

/// One list of tokens has at most one tree for each rule, so no bytes spell two files in one profile.
pub fn one_file()
    ensures file { OneFile }
    ensures either { FileOrFault }
    ensures fault { OneFault }
{}
