//! Mandatory pairs in the order of the declarations of their variables.

ghost use Rattle.std.specs.Prelude.{◌≡◌, map, IfOk};
ghost use Rattle.mm_distinct.specs.InOrder.{AreDifferent, AreInOrder, turned as turned_pair};

use mm_frame::DistinctPair;
use std::alloc::{AllocError, Global};

// The pair with the variable first that was declared first.
fn turned(pair: DistinctPair) -> DistinctPair
    ensures { result ≡ turned_pair pair }
{
    if pair.variables.1.0 < pair.variables.0.0 {
        DistinctPair {
            variables: (pair.variables.1, pair.variables.0),
            indices: (pair.indices.1, pair.indices.0),
        }
    } else {
        pair
    }
}

// Each pair with the variable first that was declared first.
fn each_turned(alloc: Global, pairs: &[DistinctPair]) -> Result<Vec<DistinctPair>, AllocError>
    ensures { IfOk result (λ turned. turned.items ≡ map turned_pair pairs.now) }
{
    pairs.iter().map(|pair| turned(*pair)).collect(alloc)
}

/// The pairs in the order of the declarations of their variables, each with the variable first that
/// was declared first.
///
/// # Errors
///
/// Where a growth was refused.
pub fn pairs_in_order(
    alloc: Global,
    pairs: &[DistinctPair],
) -> Result<Vec<DistinctPair>, AllocError>
    requires { AreDifferent pairs.now }
    ensures { IfOk result (λ ordered. AreInOrder pairs.now ordered.items) }
{
    let mut ordered = each_turned(alloc, pairs)?;
    ordered.sort_unstable_by_key(|pair| pair.variables);
    Ok(ordered)
}
