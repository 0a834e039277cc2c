//! Laws of the embedding: each function here has no work to do, and its contract is a law, stated in `specs/Laws`. The first
//! is the one that users rely on; the others stand behind it, and other crates cite them.
#![tactic(auto)]

ghost use Rattle.embedding_laws.specs.Laws.{TransferTheorem, FormulaTheorem, AxiomsTheorem, EmbeddingTheorem, EqualWorlds, FileLaw, AgreementLaw, FileTheorem};

/// For every file in the profile the printed problem is over the file's classical signature, and a classical structure
/// is a countermodel of it exactly when the corresponding Kripke structure is a countermodel of the file.
pub fn file_theorem()
    ensures { FileTheorem }
{}

/// Transfer: a formula holds at a world exactly when its translation is true, for every regime, designation and
/// locality.
pub fn transfer_theorem()
    ensures { TransferTheorem }
{}

/// A formula of a file is true exactly when its translation is.
pub fn formula_theorem()
    ensures { FormulaTheorem }
{}

/// The added axioms are true exactly where the conditions on frames, domains and terms hold.
pub fn axioms_theorem()
    ensures { AxiomsTheorem }
{}

/// The countermodels of the printed problem are those of the file, whatever signature is chosen.
pub fn embedding_theorem()
    ensures { EmbeddingTheorem }
{}

/// Countermodels have as many worlds as the corresponding structures have elements of `mk_world`.
pub fn equal_worlds_law()
    ensures { EqualWorlds }
{}

/// Structures that correspond say the same, table by table, under the printed names.
pub fn agreement_law()
    ensures { AgreementLaw }
{}

/// The printed problem of a well-sorted file is over the classical signature.
pub fn file_law()
    ensures { FileLaw }
{}
