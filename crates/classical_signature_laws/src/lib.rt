//! Laws of classical signatures: what is known of the classical signature of a well-formed signature.
#![tactic(auto)]

ghost use Rattle.classical_signature_laws.specs.ClassicalSignatures.{HasSortsLaw, HasArgumentsLaw, ClassicalNamesLaw};

/// The classical signature of a well-formed signature has a sort, and the arguments and the values of its tables are of its
/// sorts. The names of the sorts, of the tables and of the actual world all differ.
pub fn classical_signature_law()
    ensures sorts { HasSortsLaw }
    ensures arguments { HasArgumentsLaw }
    ensures names { ClassicalNamesLaw }
{}
