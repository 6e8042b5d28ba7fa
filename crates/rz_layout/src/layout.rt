//! The least layout of fragments.

ghost use Rattle.std.specs.Prelude.{◌≡◌, ◌^◌, ◌<◌, ◌≤◌, All, IfOk};
ghost use Rattle.rz_isa.specs.Items.{slots};
ghost use Rattle.rz_isa.specs.Plan.{code_end, IsPlan, IsLeastPlan};
ghost use Rattle.rz_layout.specs.Layout.{all_near, nodes_of, IsAscending, AreLow, ArePlaces};
ghost use Rattle.rz_isa.specs.Sizes.{CanMove};

use crate::pieces::pieces_of;
use crate::plan::{Forms, Layout};
use crate::sizes::{least_forms, places_of};
use rz_encode::laws::canonical_lengths;
use rz_isa::laws::{emits, spelled_within};
use rz_isa::{Fragments, InsnTable};
use rz_num::OutOfMemory;
use std::alloc::Global;

/// The least plan of fragments in ascending order, from the address `base` on: a jump is near in
/// it only where it is near in every plan, so no plan is shorter. The choice of the near form for
/// each item has to be a plan that ends at or below the address `stubs`, which is below 2^31. It
/// refuses for want of memory alone.
pub fn layout<T: InsnTable>(
    alloc: Global,
    frags: &Fragments,
    base: u64,
    stubs: u64,
) -> Result<Layout, OutOfMemory>
    requires ascending { IsAscending (nodes_of frags.now.list) }
    requires near { IsPlan T.rows frags.now base (all_near frags.now) }
    requires ends { code_end T.rows frags.now base (all_near frags.now) ≤ stubs }
    requires low { stubs < 2 ^ 31 }
    requires items { All (λ s. CanMove s.item) (slots frags.now) }
    requires low_stubs { AreLow frags.now.stubs }
    ensures parts { IfOk result (λ laid. (laid.base ≡ base) × (laid.stubs ≡ stubs)) }
    ensures plan { IfOk result (λ laid. IsPlan T.rows frags.now base laid.forms) }
    ensures places { IfOk result (λ laid. ArePlaces T.rows frags.now base laid.forms laid.places) }
    ensures least { IfOk result (λ laid. IsLeastPlan T.rows frags.now base laid.forms) }
    ensures within { IfOk result (λ laid. code_end T.rows frags.now base laid.forms ≤ stubs) }
{
    emits::<T>();
    spelled_within::<T>();
    canonical_lengths::<T>();
    let pieces = pieces_of::<T>(alloc, frags)?;
    let forms = least_forms(alloc, pieces.as_slice())?;
    let places = places_of(alloc, pieces.as_slice(), forms.as_slice(), base)?;
    Ok(Layout {
        base,
        stubs,
        places,
        forms: Forms::from_vec(forms),
    })
}
