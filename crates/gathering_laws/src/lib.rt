//! Laws of gathering: there is exactly one gathered file or refusal, and exactly one reading of the bytes of a file.
#![tactic(auto)]

ghost use Rattle.std.specs.Prelude.{ℕ, List, Result};
ghost use Rattle.nxf_base.specs.Exactly.{ExactlyOne};
ghost use Rattle.nxf_base.specs.Files.{Files};
ghost use Rattle.nxf_tree.specs.declared.tree.File.{File};
ghost use Rattle.syntax_definitions.specs.declared.gather_error.GatherError.{GatherError};
ghost use Rattle.syntax_definitions.specs.Gathered.{Reads, Gathers};
ghost use Rattle.syntax_definitions.specs.Refusals.{IsOfFiles};
ghost use Rattle.gathering_laws.specs.GatheringLaws.{SomeTokens, SomeFile};

/// Each text has tokens, or a place where its lexemes end; and in each profile its tokens spell a file, or there is a first
/// statement that no rule reads.
pub fn some_reading()
    ensures tokens { SomeTokens }
    ensures file { SomeFile }
{}

/// The bytes of one file are read in exactly one way: as statements, or with the place where the lexemes end, or with the
/// first statement that no rule reads.
pub fn one_reading()
    ensures { (name bytes : List ℕ) → ExactlyOne (Reads name bytes) }
{}

/// One map of files and one name have exactly one gathered file or refusal, and the files decide it.
pub fn one_gathering()
    ensures one { (files : Files) (name : List ℕ) → ExactlyOne (Gathers files name) }
    ensures of_files { (files : Files) (name : List ℕ) (result : Result File GatherError) → Gathers files name result → IsOfFiles result }
{}
