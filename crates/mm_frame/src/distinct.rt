//! Mandatory distinct pairs, with the indices of their variables.

ghost use Rattle.std.specs.Prelude.{◌≡◌, ◌<◌, OnOk, length, map};
ghost use Rattle.mm_frame.specs.Pieces.{variables_of, IsNowhere, IsFirstAt, HaveIndices};
ghost use Rattle.mm_frame.specs.Mirror.Patterned.{AreAmong, AreNoted};

use crate::hypothesis::Hypothesis;
use crate::noted::NotedIndices;
use crate::number::Sym;
use std::alloc::AllocError;

/// A mandatory distinct pair of an assertion. Each step by the assertion asks what replaces its
/// variables: by their indices that is read, and nothing is looked for by a variable.
#[derive(Clone, Copy, PartialEq, Eq, Debug)]
pub struct DistinctPair {
    /// The two variables, in one order.
    pub variables: (Sym, Sym),
    /// The index of the `$f` of each among the mandatory hypotheses.
    pub indices: (u32, u32),
}

// The index of the `$f` of a variable among hypotheses of which one is its `$f`.
fn index_among(hypotheses: &[Hypothesis], noted: &NotedIndices, variable: Sym) -> u32
    requires few { length hypotheses.now < 4294967296 }
    requires noted { AreNoted noted.now.indices.items (variables_of hypotheses.now) }
    requires there { ¬ (IsNowhere variable.0 (variables_of hypotheses.now)) }
    ensures { IsFirstAt variable.0 (variables_of hypotheses.now) result }
{
    match noted.index_of(hypotheses, variable) {
        Some(index) => index as u32,
        // Each mandatory variable has its `$f` among the hypotheses.
        None => unreachable!(),
    }
}

/// Fills the list with the pairs of variables, each with the indices of its variables among the
/// hypotheses, of which they are noted.
pub(crate) fn find_indices(
    hypotheses: &[Hypothesis],
    noted: &NotedIndices,
    pairs: &[(Sym, Sym)],
    indexed: &mut Vec<DistinctPair>,
) -> Result<(), AllocError>
    requires few { length hypotheses.now < 4294967296 }
    requires noted { AreNoted noted.now.indices.items (variables_of hypotheses.now) }
    requires among { AreAmong (variables_of hypotheses.now) pairs.now }
    ensures variables { OnOk result (map (λ pair. pair.variables) indexed.new.items ≡ pairs.now) }
    ensures indices { OnOk result (HaveIndices (variables_of hypotheses.now) indexed.new.items) }
{
    indexed.clear();
    for pair in pairs {
        indexed.push(DistinctPair {
            variables: *pair,
            indices: (
                index_among(hypotheses, noted, pair.0),
                index_among(hypotheses, noted, pair.1),
            ),
        })?;
    }
    Ok(())
}
