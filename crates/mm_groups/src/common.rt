//! What two lists of labels have in common.

ghost use Rattle.std.specs.Prelude.{◌≡◌, ℕ, List, filter, IfOk};
ghost use Rattle.indexmap.specs.IndexSet.{contains};
ghost use Rattle.mm_code.specs.Layout.{texts};
ghost use Rattle.mm_groups.specs.Shared.{is_in};
ghost use Rattle.mm_groups.specs.Mirror.Sets.{same_bytes};
ghost use denote.Ref.{Bor};

use indexmap::IndexSet;
use mm_base::Seed;
use std::alloc::{AllocError, Global};

/// The set of the labels.
fn set_of<'a>(
    alloc: Global,
    seed: Seed,
    labels: &[&'a [u8]],
) -> Result<IndexSet<&'a [u8], Seed>, AllocError>
    ensures { IfOk result (λ set. (label : Bor (List ℕ)) → contains same_bytes set label
        ≡ is_in (texts labels.now) label.now) }
{
    let mut set = IndexSet::with_hasher(alloc, seed);
    for label in labels {
        set.insert(*label)?;
    }
    Ok(set)
}

/// Those of the labels, in their order, that are among the others.
pub(crate) fn common<'a>(
    alloc: Global,
    seed: Seed,
    labels: &[&'a [u8]],
    others: &[&'a [u8]],
) -> Result<Vec<&'a [u8]>, AllocError>
    ensures { IfOk result (λ both.
        texts both.items ≡ filter (is_in (texts others.now)) (texts labels.now)) }
{
    let set = set_of(alloc, seed, others)?;
    let mut both = Vec::new(alloc);
    for label in labels {
        if !set.contains(label) {
            continue;
        }
        both.push(*label)?;
    }
    Ok(both)
}
