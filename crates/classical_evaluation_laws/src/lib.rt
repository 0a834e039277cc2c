//! Laws of classical evaluation: what numbered formulas say is what the formulas say that they stand for, and no formula of a file
//! fails exactly where the structure is a countermodel of it. Each function here has no work to do, and its contract is a law.
#![tactic(auto)]

ghost use Rattle.classical_evaluation_laws.specs.ClassicalLaws.{ClassicalNodeLaw, ClassicalEvaluationLaw, ClassicalDepthLaw, WellFormedLaw, SortedLaw, SortedFileLaw};
ghost use Rattle.classical_evaluation_laws.specs.ClassicalFaultLaws.{ClassicalCountermodelLaw, RolesLaw};

/// A numbered formula that fits says what the formula says that it stands for.
pub fn classical_node_law()
    ensures { ClassicalNodeLaw }
{}

/// A numbered formula that stands for a closed and well-sorted one fits, and says what that one says.
pub fn classical_evaluation_law()
    ensures { ClassicalEvaluationLaw }
{}

/// A numbered formula is as deep as what it stands for.
pub fn classical_depth_law()
    ensures { ClassicalDepthLaw }
{}

/// The classical signature of a well-formed signature is well formed, and what is well sorted over it as a problem is so here.
pub fn classical_sorting_law()
    ensures well_formed { WellFormedLaw }
    ensures sorted { SortedLaw }
    ensures file { SortedFileLaw }
{}

/// No formula keeps the structure from being a countermodel exactly where it is one, and what a role asks is what its
/// numbered formula says.
pub fn classical_countermodel_law()
    ensures countermodel { ClassicalCountermodelLaw }
    ensures roles { RolesLaw }
{}
