//! Laws of the interpretations that are printed for structures.
#![tactic(auto)]

ghost use Rattle.interpretation_text_laws.specs.ElementsApart.{ElementsApartLaw};
ghost use Rattle.interpretation_text_laws.specs.ReadBack.{ReadBackLaw};
ghost use Rattle.interpretation_text_laws.specs.SpelledInterpretations.{FitsLaw, SpellsLaw, OnlyLaw};

/// Over the classical signature of a well-formed signature, two elements have two names, and no element has the name of a
/// sort, of a symbol or of the actual world.
pub fn element_names_law()
    ensures { ElementsApartLaw }
{}

/// The interpretation of a structure is regular among interpretations and within their levels, and its text spells it there,
/// and no other file.
pub fn interpretation_text_law()
    ensures fits { FitsLaw }
    ensures spells { SpellsLaw }
    ensures only { OnlyLaw }
{}

/// The interpretation of a structure is read as that structure, without a fault.
pub fn read_back_law()
    ensures { ReadBackLaw }
{}
