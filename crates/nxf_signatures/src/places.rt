//! The places of names.

ghost use Rattle.std.specs.Prelude.{◌≡◌, ◌<◌, ◌≤◌, ◌^◌, length, IfSome};
ghost use Rattle.std.specs.Option.{option_map};
ghost use Rattle.nxf_tree.specs.Names.{same_text};
ghost use Rattle.nxf_tree.specs.Signature.{same_sort, same_index};
ghost use Rattle.nxf_tree.specs.SignatureOf as signature;
ghost use Rattle.nxf_signatures.specs.Places.{place, shifted, sort_list, index_list};

use indexmap::IndexSet;
use nxf_base::Text;
use nxf_tree::{IndexName, SortName};

/// The place of a text, after the one that may stand before all of them.
fn place_after(first: bool, texts: &IndexSet<Text>, text: &Text) -> Option<usize>
    requires { length texts.now.keys < 2 ^ 32 }
    ensures value { result ≡ option_map (shifted first) (place (same_text text.now) texts.now.keys) }
    ensures within { IfSome result (λ k. k ≤ length texts.now.keys) }
{
    match texts.get_index_of(text) {
        Some(at) => { if first { Some(at + 1) } else { Some(at) } }
        None => None,
    }
}

/// The place of a sort, where `individual` says whether `$i` stands before the others.
pub fn sort_place(individual: bool, sorts: &IndexSet<Text>, sort: &SortName) -> Option<usize>
    requires { length sorts.now.keys < 2 ^ 32 }
    ensures value { result ≡ place (same_sort sort.now) (sort_list individual sorts.now.keys) }
    ensures within { IfSome result (λ k. k ≤ length sorts.now.keys) }
{
    match sort {
        SortName::Individual => { if individual { Some(0) } else { None } }
        SortName::User(name) => place_after(individual, sorts, name),
    }
}

/// The place of an index, where `plain` says whether the unindexed modality stands before the others.
pub fn index_place(plain: bool, indexes: &IndexSet<Text>, index: &IndexName) -> Option<usize>
    requires { length indexes.now.keys < 2 ^ 32 }
    ensures value { result ≡ place (same_index index.now) (index_list plain indexes.now.keys) }
    ensures within { IfSome result (λ k. k ≤ length indexes.now.keys) }
{
    match index {
        IndexName::Plain => { if plain { Some(0) } else { None } }
        IndexName::Named(name) => place_after(plain, indexes, name),
    }
}

/// The number of a sort, and the number of sorts where it has none.
pub fn sort_number(individual: bool, sorts: &IndexSet<Text>, sort: &SortName) -> u32
    requires { length sorts.now.keys < 2 ^ 31 }
    ensures { result ≡ signature.sort_number (sort_list individual sorts.now.keys) sort.now }
{
    match sort_place(individual, sorts, sort) {
        Some(at) => at as u32,
        None => {
            if individual {
                sorts.len() as u32 + 1
            } else {
                sorts.len() as u32
            }
        }
    }
}
