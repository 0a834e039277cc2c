//! Laws of names and tables: different things get different names, each name stands for what is at its place, and structures
//! correspond one for one.
#![tactic(auto)]

ghost use Rattle.name_laws.specs.NameLaws.{OneForOneLaw, NamesApart, VariablesApart, NamesDiffer, FoundLaw};

/// Each structure of one kind corresponds to exactly one of the other.
pub fn one_for_one_law()
    ensures { OneForOneLaw }
{}

/// Different things get different names in the printed problem, and no user's variable is a world variable there.
pub fn names_law()
    ensures names { NamesApart }
    ensures variables { VariablesApart }
    ensures signatures { NamesDiffer }
    ensures found { FoundLaw }
{}
