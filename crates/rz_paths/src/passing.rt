// The functions whose calls walks may step over.

ghost use Rattle.std.specs.Prelude.{◌≡◌, ◌==◌, ◌&&◌, ◌||◌, ℕ, List, IfOk, OnOk, bytes_eq};
ghost use Rattle.std.specs.List.{list_any};
ghost use Rattle.rz_aset.specs.Sets.{has};
ghost use Rattle.rz_paths.specs.Levels.{is_live as live};
ghost use Rattle.rz_paths.specs.Calls.Noted.{is_noted as noted};

use crate::sets::add;
use indexmap::IndexSet;
use rz_aset::AddrSet;
use rz_classes::Classes;
use rz_num::OutOfMemory;
use std::alloc::Global;

/// The recorded nodes at which listed functions start. It refuses for want of memory alone.
pub fn recorded_starts(
    alloc: Global,
    classes: &Classes,
    recorded: &AddrSet,
) -> Result<AddrSet, OutOfMemory>
    ensures { IfOk result (λ set. (t : ℕ) →
        has set t ≡ (list_any (λ f. f.lo == t) classes.now && has recorded.now t)) }
{
    let mut set = AddrSet::new(alloc);
    for a in recorded.as_slice() {
        if is_start(classes, *a) {
            add(&mut set, *a)?;
        }
    }
    Ok(set)
}

// Whether a listed function starts at an address.
fn is_start(classes: &Classes, a: u64) -> bool
    ensures { result ≡ list_any (λ f. f.lo == a) classes.now }
{
    classes.starts_at(a).is_some()
}

/// The starts of the listed functions of a class of which a start was recorded. It takes time linear in the functions, on
/// average, and refuses for want of memory alone.
pub fn live_starts(
    alloc: Global,
    classes: &Classes,
    recorded: &AddrSet,
) -> Result<AddrSet, OutOfMemory>
    ensures { IfOk result (λ set. (t : ℕ) → has set t
        ≡ list_any (λ f. f.lo == t && live classes.now recorded.now f.class) classes.now) }
{
    let live = live_classes(alloc, classes, recorded)?;
    let mut set = AddrSet::new(alloc);
    for i in 0..classes.len() {
        let (start, _) = classes.range(i);
        if is_noted(&live, classes.class(i)) {
            add(&mut set, start)?;
        }
    }
    Ok(set)
}

// The classes of which a start was recorded.
fn live_classes<'a>(
    alloc: Global,
    classes: &'a Classes,
    recorded: &AddrSet,
) -> Result<IndexSet<&'a [u8]>, OutOfMemory>
    ensures { IfOk result (λ set. (class : List ℕ) → noted set class ≡ live classes.now recorded.now class) }
{
    let mut set = IndexSet::new(alloc);
    for i in 0..classes.len() {
        let class = classes.class(i);
        if recorded.contains(classes.range(i).0) {
            note(&mut set, class)?;
        }
    }
    Ok(set)
}

// Notes a name.
fn note<'a>(set: &mut IndexSet<&'a [u8]>, name: &'a [u8]) -> Result<(), OutOfMemory>
    ensures { OnOk result ((n : List ℕ) → noted set.new n ≡ (noted set.old n || bytes_eq n name.now)) }
{
    set.insert(name)?;
    Ok(())
}

// Whether a name was noted.
fn is_noted(set: &IndexSet<&[u8]>, name: &[u8]) -> bool
    ensures { result ≡ noted set.now name.now }
{
    set.contains(name)
}
