//! The axioms of all sorts of a signature.
ghost use Rattle.std.specs.Prelude.{◌≡◌, ◌++◌, map, IfOk, OnOk};
ghost use Rattle.nxf_tree.specs.Axioms as meant;
ghost use Rattle.nxf_tree.specs.Countermodels.{Say};
ghost use Rattle.nxf_tree.specs.Conditions.{meets_domains};
ghost use Rattle.nxf_tree.specs.WellFormed.{IsWellFormed};
ghost use Rattle.condition_axioms.specs.steps.SortAxioms.{entry_axioms};

use crate::sorts::{everyone, someone, stay, were_there};
use classical_syntax::is_constant_regime;
use nxf_base::{List, Memory};
use nxf_tree::{Formula, IndexEntry, Regime, Signature, SortEntry, SortName};
use std::alloc::Global;

/// The axioms of existence: for each sort that isn't constant that some element exists at each world, that each element
/// exists at some world, and, where its domains are cumulative or decreasing, one for each index. In a classical structure
/// they are true exactly where existence in the corresponding Kripke structure meets the regimes.
pub fn axioms(alloc: Global, signature: &Signature) -> Result<List<Formula>, Memory>
    requires { IsWellFormed signature.now }
    ensures written { IfOk result (λ made. made ≡ meant.domain_axioms signature.now) }
    ensures say { IfOk result (λ made. Say signature.now made meets_domains) }
{
    let mut made = List::new(alloc);
    for sort in signature.sorts.as_slice() {
        add_axioms(alloc, &signature.indexes, sort, &mut made)?;
    }
    Ok(made)
}

/// Adds the axioms of a sort; a constant one has none.
fn add_axioms(
    alloc: Global,
    indexes: &List<IndexEntry>,
    sort: &SortEntry,
    made: &mut List<Formula>,
) -> Result<(), Memory>
    ensures { OnOk result (made.new ≡ made.old ++ entry_axioms indexes.now sort.now) }
{
    if is_constant_regime(sort.regime) {
        return Ok(());
    }
    made.push(someone(alloc, &sort.name)?)?;
    made.push(everyone(alloc, &sort.name)?)?;
    match sort.regime {
        Regime::Constant => Ok(()),
        Regime::Cumulative => add_stays(alloc, indexes, &sort.name, made),
        Regime::Decreasing => add_were_there(alloc, indexes, &sort.name, made),
        Regime::Varying => Ok(()),
    }
}

fn add_stays(
    alloc: Global,
    indexes: &List<IndexEntry>,
    sort: &SortName,
    made: &mut List<Formula>,
) -> Result<(), Memory>
    ensures { OnOk result (made.new ≡ made.old ++ map (λ index. meant.stay_axiom sort.now index.name) indexes.now) }
{
    for index in indexes.as_slice() {
        made.push(stay(alloc, sort, &index.name)?)?;
    }
    Ok(())
}

fn add_were_there(
    alloc: Global,
    indexes: &List<IndexEntry>,
    sort: &SortName,
    made: &mut List<Formula>,
) -> Result<(), Memory>
    ensures { OnOk result (made.new ≡ made.old ++ map (λ index. meant.were_there_axiom sort.now index.name) indexes.now) }
{
    for index in indexes.as_slice() {
        made.push(were_there(alloc, sort, &index.name)?)?;
    }
    Ok(())
}
