//! Laws of printed texts: what they spell.
#![tactic(auto)]

ghost use Rattle.std.specs.Prelude.{◌≡◌, IsTrue, false};
ghost use Rattle.nxf_tree.specs.declared.profile.Profile.{Profile};
ghost use Rattle.nxf_tree.specs.declared.tree.File.{File};
ghost use Rattle.nxf_tree.specs.declared.tree.Signature.{Signature};
ghost use Rattle.nxf_tree.specs.Problem.{problem_of};
ghost use Rattle.nxf_tree.specs.Profiles.{allowed_in, has_modalities};
ghost use Rattle.nxf_tree.specs.Regular.{IsRegular};
ghost use Rattle.nxf_tree.specs.Text.{is_printable, text_of};
ghost use Rattle.syntax_definitions.specs.Levels.{Fits};
ghost use Rattle.syntax_definitions.specs.Spells.{Spells};
ghost use Rattle.printed_problem_laws.specs.Printed.{IsProblemOver, KeepsRegular, KeepsLevels};
ghost use Rattle.printed_text_laws.specs.PrintedTexts.{TextSpells, TextIsOnly};

/// In a profile without modalities, the text of a file that is regular there, and needs no more levels than the profile has,
/// spells that file. Such a file has no logic statement, so each statement has a text.
pub fn regular_file_is_printed()
    ensures printable { (p : Profile) (f : File) → has_modalities p ≡ false → IsRegular (allowed_in p) f → IsTrue (is_printable f) }
    ensures spelled { (p : Profile) (f : File) → Fits p f → Spells p (text_of f) f }
{}

/// The text of such a file spells no other file, so reading it gives the file back.
pub fn printed_text_reads_back()
    ensures { (p : Profile) (f g : File) → Fits p f → Spells p (text_of f) g → g ≡ f }
{}

/// The printed problem of a regular file over a well-formed signature is regular in the profile of classical problems. Where the
/// file needs no more levels than the profile of problems has, the printed problem needs no more than the classical profile has,
/// and its text spells it there and spells no other file.
pub fn printed_problem_can_be_read()
    ensures regular { KeepsRegular }
    ensures levels { KeepsLevels }
    ensures spelled { (sig : Signature) (file : File) → IsProblemOver sig file → TextSpells (problem_of sig file) }
    ensures only { (sig : Signature) (file : File) → IsProblemOver sig file → TextIsOnly (problem_of sig file) }
{}
