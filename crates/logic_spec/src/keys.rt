//! The keys of a logic statement.

ghost use Rattle.std.specs.Prelude.{◌≡◌, IfOk, ◌++◌};
ghost use Rattle.nxf_tree.specs.declared.tree.SpecKey.TheVariants.{Dollar};
ghost use Rattle.nxf_tree.specs.Signature as indexes;
ghost use Rattle.nxf_tree.specs.Specification as spec;

use nxf_base::{Memory, Text};
use nxf_tree::{IndexName, Setting, SpecKey};
use std::alloc::Global;

/// Whether two indexes have one name.
pub fn same_index(left: &IndexName, right: &IndexName) -> bool
    ensures { result ≡ indexes.same_index left.now right.now }
{
    match left {
        IndexName::Plain => match right {
            IndexName::Plain => true,
            IndexName::Named(_) => false,
        },
        IndexName::Named(a) => match right {
            IndexName::Plain => false,
            IndexName::Named(b) => a.bytes() == b.bytes(),
        },
    }
}

/// Whether two keys are one, by kind and text.
pub fn same_key(left: &SpecKey, right: &SpecKey) -> bool
    ensures { result ≡ spec.same_key left.now right.now }
{
    match left {
        SpecKey::Dollar(a) => match right {
            SpecKey::Dollar(b) => a.bytes() == b.bytes(),
            SpecKey::Name(_) => false,
            SpecKey::Index(_) => false,
        },
        SpecKey::Name(a) => match right {
            SpecKey::Dollar(_) => false,
            SpecKey::Name(b) => a.bytes() == b.bytes(),
            SpecKey::Index(_) => false,
        },
        SpecKey::Index(a) => match right {
            SpecKey::Dollar(_) => false,
            SpecKey::Name(_) => false,
            SpecKey::Index(b) => same_index(a, b),
        },
    }
}

/// The setting that the key names.
#[tactic(auto, unfolding(nxf_tree::specs::Specification::setting_of))]
pub fn setting_of(key: &SpecKey) -> Option<Setting>
    ensures { result ≡ spec.setting_of key.now }
{
    match key {
        SpecKey::Dollar(word) => {
            let word = word.bytes();
            if b"$domains".as_slice() == word {
                Some(Setting::Domains)
            } else if b"$designation".as_slice() == word {
                Some(Setting::Designation)
            } else if b"$terms".as_slice() == word {
                Some(Setting::Terms)
            } else if b"$modalities".as_slice() == word {
                Some(Setting::Modalities)
            } else {
                None
            }
        }
        SpecKey::Name(_) => None,
        SpecKey::Index(_) => None,
    }
}

/// A key as a message writes it.
pub fn key_text(alloc: Global, key: &SpecKey) -> Result<Text, Memory>
    ensures { IfOk result (λ t. t ≡ spec.key_text key.now) }
{
    match key {
        SpecKey::Dollar(word) => word.copy(alloc),
        SpecKey::Name(name) => name.copy(alloc),
        SpecKey::Index(index) => match index {
            IndexName::Plain => Text::from_bytes(alloc, b"[.]"),
            IndexName::Named(name) => {
                let closed = Text::joined(alloc, name.bytes(), b"]")?;
                Text::joined(alloc, b"[#", closed.bytes())
            }
        },
    }
}

/// The key of a setting.
pub fn setting_name(setting: Setting) -> &'static [u8]
    ensures { result.now ≡ spec.setting_name setting }
{
    match setting {
        Setting::Domains => b"$domains",
        Setting::Designation => b"$designation",
        Setting::Terms => b"$terms",
        Setting::Modalities => b"$modalities",
    }
}

/// Whether the key names the setting.
pub fn is_setting(setting: Setting, key: &SpecKey) -> bool
    ensures { result ≡ spec.same_key (Dollar (spec.setting_name setting)) key.now }
{
    match key {
        SpecKey::Dollar(word) => setting_name(setting) == word.bytes(),
        SpecKey::Name(_) => false,
        SpecKey::Index(_) => false,
    }
}
