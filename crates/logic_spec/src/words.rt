//! The words of a logic statement: regimes, designations, localities, and the systems and schemes of modal logic.

ghost use Rattle.std.specs.Prelude.{◌≡◌, [], map};
ghost use Rattle.std.specs.List.{list_any};
ghost use Rattle.std.specs.Option.{option_map};
ghost use Rattle.nxf_tree.specs.Counting.{has};
ghost use Rattle.nxf_tree.specs.SpecificationWords as spec;

use nxf_base::Text;
use nxf_tree::{Designation, Locality, Regime, Scheme, Setting};

/// A word, and the schemes that it asks.
type ModalWord = (&'static [u8], &'static [Scheme]);

/// The systems of modal logic.
pub const MODAL_SYSTEMS: [ModalWord; 17] = [
    (b"$modal_system_K", &[]),
    (b"$modal_system_KB", &[Scheme::B]),
    (b"$modal_system_K4", &[Scheme::Four]),
    (b"$modal_system_K5", &[Scheme::Five]),
    (b"$modal_system_K45", &[Scheme::Four, Scheme::Five]),
    (b"$modal_system_KB5", &[Scheme::B, Scheme::Five]),
    (b"$modal_system_D", &[Scheme::D]),
    (b"$modal_system_DB", &[Scheme::D, Scheme::B]),
    (b"$modal_system_D4", &[Scheme::D, Scheme::Four]),
    (b"$modal_system_D5", &[Scheme::D, Scheme::Five]),
    (
        b"$modal_system_D45",
        &[Scheme::D, Scheme::Four, Scheme::Five],
    ),
    (b"$modal_system_T", &[Scheme::T]),
    (b"$modal_system_M", &[Scheme::T]),
    (b"$modal_system_B", &[Scheme::T, Scheme::B]),
    (b"$modal_system_S4", &[Scheme::T, Scheme::Four]),
    (b"$modal_system_S5", &[Scheme::T, Scheme::Five]),
    (b"$modal_system_S5U", &[Scheme::U]),
];

/// The schemes of axioms.
pub const MODAL_AXIOMS: [ModalWord; 11] = [
    (b"$modal_axiom_K", &[]),
    (b"$modal_axiom_T", &[Scheme::T]),
    (b"$modal_axiom_M", &[Scheme::T]),
    (b"$modal_axiom_B", &[Scheme::B]),
    (b"$modal_axiom_D", &[Scheme::D]),
    (b"$modal_axiom_4", &[Scheme::Four]),
    (b"$modal_axiom_5", &[Scheme::Five]),
    (b"$modal_axiom_CD", &[Scheme::CD]),
    (b"$modal_axiom_BoxM", &[Scheme::BoxM]),
    (b"$modal_axiom_C4", &[Scheme::C4]),
    (b"$modal_axiom_C", &[Scheme::C]),
];

fn schemes_named(mut table: &[ModalWord], word: &[u8]) -> Option<&'static [Scheme]>
    ensures { option_map (λ s. s.now) result ≡ spec.word_named [] (map (λ e. (e.0.now, e.1.now)) table.entry.now) word.now }
{
    while let [entry, rest @ ..] = table {
        if entry.0 == word {
            return Some(entry.1);
        }
        table = rest;
    }
    None
}

/// The schemes of the system that the word names.
fn system_named(word: &Text) -> Option<&'static [Scheme]>
    ensures { option_map (λ s. s.now) result ≡ spec.system_named word.now }
{
    schemes_named(&MODAL_SYSTEMS, word.bytes())
}

/// The schemes of the axiom that the word names.
fn axiom_named(word: &Text) -> Option<&'static [Scheme]>
    ensures { option_map (λ s. s.now) result ≡ spec.axiom_named word.now }
{
    schemes_named(&MODAL_AXIOMS, word.bytes())
}

/// The schemes that the word asks; none where it names no system and no axiom.
fn schemes_of_word(word: &Text) -> &'static [Scheme]
    ensures { result.now ≡ spec.schemes_of_word word.now }
{
    match system_named(word) {
        Some(schemes) => schemes,
        None => match axiom_named(word) {
            Some(schemes) => schemes,
            None => &[],
        },
    }
}

#[tactic(auto, unfolding(nxf_tree::specs::SpecificationWords::same_scheme))]
fn has_scheme(schemes: &[Scheme], scheme: Scheme) -> bool
    ensures { result ≡ list_any (λ s. spec.same_scheme s scheme) schemes.now }
{
    schemes.iter().any(|s| *s == scheme)
}

/// Whether the word asks the scheme.
pub fn asks(word: &Text, scheme: Scheme) -> bool
    ensures { result ≡ has spec.same_scheme scheme (spec.schemes_of_word word.now) }
{
    has_scheme(schemes_of_word(word), scheme)
}

/// The regime that the word names.
#[tactic(auto, unfolding(nxf_tree::specs::SpecificationWords::regime_named))]
pub fn regime_named(word: &Text) -> Option<Regime>
    ensures { result ≡ spec.regime_named word.now }
{
    let word = word.bytes();
    if b"$constant".as_slice() == word {
        Some(Regime::Constant)
    } else if b"$cumulative".as_slice() == word {
        Some(Regime::Cumulative)
    } else if b"$decreasing".as_slice() == word {
        Some(Regime::Decreasing)
    } else if b"$varying".as_slice() == word {
        Some(Regime::Varying)
    } else {
        None
    }
}

/// The designation that the word names.
#[tactic(auto, unfolding(nxf_tree::specs::SpecificationWords::designation_named))]
pub fn designation_named(word: &Text) -> Option<Designation>
    ensures { result ≡ spec.designation_named word.now }
{
    let word = word.bytes();
    if b"$rigid".as_slice() == word {
        Some(Designation::Rigid)
    } else if b"$flexible".as_slice() == word {
        Some(Designation::Flexible)
    } else {
        None
    }
}

/// The locality that the word names.
#[tactic(auto, unfolding(nxf_tree::specs::SpecificationWords::locality_named))]
pub fn locality_named(word: &Text) -> Option<Locality>
    ensures { result ≡ spec.locality_named word.now }
{
    let word = word.bytes();
    if b"$local".as_slice() == word {
        Some(Locality::Local)
    } else if b"$global".as_slice() == word {
        Some(Locality::Global)
    } else {
        None
    }
}

/// Whether the word is a choice by itself.
pub fn stands_alone(setting: Setting, word: &Text) -> bool
    ensures { result ≡ spec.stands_alone setting word.now }
{
    match setting {
        Setting::Domains => regime_named(word).is_some(),
        Setting::Designation => designation_named(word).is_some(),
        Setting::Terms => locality_named(word).is_some(),
        Setting::Modalities => is_system(word),
    }
}

fn is_system(word: &Text) -> bool
    ensures { result ≡ spec.stands_alone Setting.Modalities word.now }
{
    match system_named(word) {
        Some(_) => true,
        None => false,
    }
}

/// Whether the word is a choice together with others of its kind.
pub fn joins(setting: Setting, word: &Text) -> bool
    ensures { result ≡ spec.joins setting word.now }
{
    match setting {
        Setting::Domains => false,
        Setting::Designation => false,
        Setting::Terms => false,
        Setting::Modalities => is_axiom(word),
    }
}

fn is_axiom(word: &Text) -> bool
    ensures { result ≡ spec.joins Setting.Modalities word.now }
{
    match axiom_named(word) {
        Some(_) => true,
        None => false,
    }
}
