//! Laws of answers: there is exactly one, and what it says.
#![tactic(auto)]

ghost use Rattle.answer_laws.specs.AnswerLaws.{CountermodelLaw, OneCheckLaw, OneReadingLaw};
ghost use Rattle.answer_laws.specs.LiftLaws.{OneInterpretationLaw, OneLiftLaw, LiftedTextLaw, PrintedCountermodelLaw};

/// Over a signature whose numbers of sorts are in range, a file of Kripke text is read in exactly one way.
pub fn one_reading()
    ensures { OneReadingLaw }
{}

/// A gathered file, or its refusal, and a loaded second file, or its refusal, have exactly one answer to `check`.
pub fn one_check()
    ensures { OneCheckLaw }
{}

/// `check` answers a line exactly where the second file has the text of a structure within the limits, over the signature of the
/// file in the profile, that is a countermodel of the file; and the line is `countermodel`.
pub fn countermodel_line()
    ensures { CountermodelLaw }
{}

/// Over a signature whose numbers of sorts are in range, a file of an interpretation is read in exactly one way.
pub fn one_interpretation()
    ensures { OneInterpretationLaw }
{}

/// A gathered file, or its refusal, and a loaded second file, or its refusal, have exactly one answer to `lift`.
pub fn one_lift()
    ensures { OneLiftLaw }
{}

/// `lift` answers a text exactly where the second file spells an interpretation, within the limits, whose Kripke structure over the
/// signature of the file in the profile is a countermodel of the file; and the text is that of this structure.
pub fn lifted_text()
    ensures { LiftedTextLaw }
{}

/// `lift` answers a text exactly where the second file spells an interpretation that gives a countermodel of the printed problem.
pub fn printed_countermodel()
    ensures { PrintedCountermodelLaw }
{}
