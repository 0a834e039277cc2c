//! Laws of evaluation: what numbered formulas say is what the formulas say that they stand for, and the first fault of a whole
//! file is made of those of its parts. Each function here has no work to do, and its contract is a law.
#![tactic(auto)]

ghost use Rattle.evaluation_laws.specs.EvaluationLaws.{NodeLaw, EvaluationLaw};
ghost use Rattle.evaluation_laws.specs.DepthLaw.{DepthLaw};
ghost use Rattle.evaluation_laws.specs.FaultLaws.{WholeConditions, CountermodelLaw, JoinedFaults, PartsLaw};

/// A numbered formula that fits says at a world what the formula says that it stands for.
pub fn node_law()
    ensures { NodeLaw }
{}

/// A numbered formula that stands for a closed and well-sorted one fits, and says what that one says.
pub fn evaluation_law()
    ensures { EvaluationLaw }
{}

/// A numbered formula is as deep as what it stands for.
pub fn depth_law()
    ensures { DepthLaw }
{}

/// The conditions of a file hold one by one exactly where the structure is a countermodel of the file.
pub fn countermodel_law()
    ensures conditions { WholeConditions }
    ensures countermodel { CountermodelLaw }
{}

/// The first faults of frames, domains, terms and parts, in this order, give that of the whole file.
pub fn joined_faults_law()
    ensures { JoinedFaults }
{}

/// What the premises and the conjecture of a file ask is what their numbered formulas say.
pub fn parts_law()
    ensures { PartsLaw }
{}
