//! Laws of finite structures: what their tables say, and that structures of the two kinds correspond one for one.
#![tactic(auto)]

ghost use Rattle.fin_struct.specs.StructureTables.{StructureLaw, StructuresDetermine};
ghost use Rattle.structure_laws.specs.Correspondence.{CorrespondenceLaw};
ghost use Rattle.structure_laws.specs.KripkeLaws.{KripkeLaw, KripkesDetermine, OwnTablesLaw, PlacesLaw, NamesLaw};
ghost use Rattle.fin_struct.specs.FirstFault.{OneFirstFault, FrameConditions, DomainConditions, TermConditions};
ghost use Rattle.structure_laws.specs.ClassicalNamed.{PrintedNamesLaw};
ghost use Rattle.structure_laws.specs.StructureWrites.{StaysForLaw, StaysKripkeForLaw};
ghost use Rattle.structure_laws.specs.RowLaws.{RowsStandLaw, CellsBelowLaw};
ghost use Rattle.structure_laws.specs.KripkeWrites.{PairLaw, ExistenceLaw, RowLaw};
ghost use Rattle.fin_struct.specs.RowLists.{ListsTell, ListsFit, ListsDetermine};

/// The lists of rows of a table say what its cells say, and nothing less; they stand in row-major order without repeats,
/// so that equal lists are of equal tables.
pub fn row_lists_law()
    ensures tell { ListsTell }
    ensures fit { ListsFit }
    ensures determine { ListsDetermine }
{}

/// In the list of all rows each row stands at its place, and what a table has at a row is below its bound.
pub fn rows_law()
    ensures stand { RowsStandLaw }
    ensures below { CellsBelowLaw }
{}

/// A structure for a classical signature is over it, as the definitions have it, and no other structure for that signature
/// has the same lists of rows.
pub fn structure_law()
    ensures over { StructureLaw }
    ensures determine { StructuresDetermine }
{}

/// In a Kripke structure for a signature each sort and each symbol has its table under its number, in its shape.
pub fn kripke_places_law()
    ensures { PlacesLaw }
{}

/// Where the names of the signature differ, what the model of a Kripke structure says of a name is what the structure has
/// under its number.
pub fn kripke_names_law()
    ensures { NamesLaw }
{}

/// Where the names of a classical signature differ, what the model of a structure says of a printed name is what the structure
/// has under its number.
pub fn printed_names_law()
    ensures { PrintedNamesLaw }
{}

/// A structure for a signature stays one where a cell or the actual world is written.
pub fn stays_law()
    ensures classical { StaysForLaw }
    ensures kripke { StaysKripkeForLaw }
{}

/// Of conditions in a list at most one is the first that fails. The conditions of frames, domains and terms hold one by one
/// exactly where they hold by their definition.
pub fn conditions_law()
    ensures one { OneFirstFault }
    ensures frames { FrameConditions }
    ensures domains { DomainConditions }
    ensures terms { TermConditions }
{}

/// A Kripke structure for a signature is over it, as the definitions have it; no other for that signature has the same
/// lists of rows; and different relations, sorts and symbols have different tables.
pub fn kripke_law()
    ensures over { KripkeLaw }
    ensures determine { KripkesDetermine }
    ensures apart { OwnTablesLaw }
{}

/// For each Kripke structure for a signature there is exactly one structure for its classical signature that corresponds,
/// and for each of these exactly one Kripke structure.
pub fn correspondence_law()
    ensures { CorrespondenceLaw }
{}

/// Where one pair or row of a Kripke structure is written, each other pair, each other row and each other existence reads
/// as before.
pub fn kripke_writes_law()
    ensures pair { PairLaw }
    ensures existence { ExistenceLaw }
    ensures row { RowLaw }
{}
