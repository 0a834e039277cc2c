//! Each printed problem is regular, and within the levels of the classical profile.
#![tactic(auto)]

ghost use Rattle.printed_problem_laws.specs.Printed.{KeepsRegular, KeepsLevels};

/// The printed problem of a regular file over a well-formed signature is regular in the profile of classical problems. Where the
/// file needs no more levels than the profile of problems has, the printed problem needs no more than the classical profile has.
pub fn printed_problem_is_regular()
    ensures regular { KeepsRegular }
    ensures levels { KeepsLevels }
{}
