//! The words of roles.
ghost use Rattle.std.specs.Prelude.{◌≡◌, map, length};
ghost use Rattle.nxf_tree.specs.Counting.{has};
ghost use Rattle.nxf_tree.specs.Names.{same_text};
ghost use Rattle.nxf_tree.specs.Parts as roles;

use crate::{Part, Scope};
use nxf_base::Text;
use nxf_tree::Role;

/// The words of premises that hold at every world, where no suffix says otherwise.
const GLOBAL_WORDS: [&[u8]; 6] = [
    b"axiom",
    b"definition",
    b"lemma",
    b"theorem",
    b"corollary",
    b"assumption",
];

/// The words of premises that hold at the actual world, where no suffix says otherwise.
const LOCAL_WORDS: [&[u8]; 3] = [b"hypothesis", b"negated_conjecture", b"plain"];

/// The words of statements that are no formulas.
const OTHER_WORDS: [&[u8]; 2] = [b"type", b"logic"];

fn is_among(word: &[u8], mut words: &[&[u8]]) -> bool
    ensures { result ≡ has same_text word.now (map (λ w. w.now) words.entry.now) }
{
    while let [first, rest @ ..] = words {
        if *first == word {
            return true;
        }
        words = rest;
    }
    false
}

fn is_same(word: &[u8], other: &[u8]) -> bool
    ensures { result ≡ same_text other.now word.now }
{
    other == word
}

/// The part that a role word without suffix makes of a formula, or `None` for a word that is no role of a formula.
fn part_of_word(word: &Text) -> Option<Part>
    ensures { result ≡ roles.part_of_word word.now }
{
    let word = word.bytes();
    if is_among(word, &GLOBAL_WORDS) {
        Some(Part::Premise(Scope::Global))
    } else if is_among(word, &LOCAL_WORDS) {
        Some(Part::Premise(Scope::Local))
    } else if is_same(word, b"conjecture") {
        Some(Part::Conjecture(Scope::Local))
    } else {
        None
    }
}

/// The scope that a suffix says.
fn scope_of_suffix(suffix: &Text) -> Option<Scope>
    ensures { result ≡ roles.scope_of_suffix suffix.now }
{
    let suffix = suffix.bytes();
    if is_same(suffix, b"local") {
        Some(Scope::Local)
    } else if is_same(suffix, b"global") {
        Some(Scope::Global)
    } else {
        None
    }
}

/// The part that a role makes of a formula, or `None` where it is no role of a formula. A suffix decides the scope.
pub fn part_of(role: &Role) -> Option<Part>
    ensures { result ≡ roles.part_of role.now }
{
    let part = part_of_word(&role.word)?;
    let Some(suffix) = &role.suffix else {
        return Some(part);
    };
    let scope = scope_of_suffix(suffix)?;
    Some(match part {
        Part::Premise(_) => Part::Premise(scope),
        Part::Conjecture(_) => Part::Conjecture(scope),
    })
}

/// Whether a role is one of a formula, or `type` or `logic` without a suffix.
pub fn is_known(role: &Role) -> bool
    ensures { result ≡ roles.is_known role.now }
{
    part_of(role).is_some() || role.suffix.is_none() && is_among(role.word.bytes(), &OTHER_WORDS)
}
