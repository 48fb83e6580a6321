//! The `$d` that say more than the mandatory pairs of an assertion.

ghost use Rattle.std.specs.Prelude.{◌≡◌, ◌↔◌, ◌<◌, ◌≤◌, IfOk, IsTrue, Some, length, slice_get};
ghost use Rattle.mm_base.specs.declared.statement.Kind.TheVariants.{Distinct};
ghost use Rattle.mm_frame.specs.Sentence.{Sentence};
ghost use Rattle.mm_frame.specs.Pieces.{variables_of};
ghost use Rattle.mm_frame.specs.Mirror.Further.{AreFoundFurther, HasOther, SaysMore};
ghost use Rattle.mm_frame.specs.Mirror.Layout.{AreTables, statements_of};
ghost use Rattle.mm_frame.specs.Mirror.Patterned.{AreNoted};

use crate::hypothesis::Hypothesis;
use crate::lists::at as entry_at;
use crate::noted::NotedIndices;
use crate::number::Sym;
use crate::tables::Tables;
use mm_base::Kind;
use std::alloc::{AllocError, Global};

// Whether one of the symbols has no `$f` among the hypotheses, of which the indices are noted.
fn has_other(hypotheses: &[Hypothesis], noted: &NotedIndices, symbols: &[Sym]) -> bool
    requires { AreNoted noted.now.indices.items (variables_of hypotheses.now) }
    ensures { IsTrue result ↔ HasOther (variables_of hypotheses.now) symbols.now }
{
    for symbol in symbols {
        if noted.index_of(hypotheses, *symbol).is_none() {
            return true;
        }
    }
    false
}

// Whether the statement at an index is a `$d`.
#[tactic(auto, using(crate::proofs::Frames::FrameTypings::typing_steps))]
fn is_distinct(tables: &Tables, index: usize) -> bool
    requires { AreTables tables.now }
    ensures { (d : Sentence) → slice_get (statements_of tables.now) index ≡ Some d
        → (IsTrue result ↔ (d.kind ≡ Distinct)) }
{
    match entry_at(&tables.log, index) {
        Some(entry) => entry.kind == Kind::Distinct,
        None => false,
    }
}

// Whether the statement at an index is a `$d` that is active at another, and one of its members has
// no `$f` among the hypotheses.
fn says_more(
    tables: &Tables,
    hypotheses: &[Hypothesis],
    noted: &NotedIndices,
    at: usize,
    index: usize,
) -> bool
    requires tables { AreTables tables.now }
    requires noted { AreNoted noted.now.indices.items (variables_of hypotheses.now) }
    requires before { index < at }
    requires within { at ≤ length (statements_of tables.now) }
    ensures { (d : Sentence) → slice_get (statements_of tables.now) index ≡ Some d
        → (IsTrue result
        ↔ SaysMore (statements_of tables.now) (variables_of hypotheses.now) at index d) }
{
    if !is_distinct(tables, index) {
        return false;
    }
    if !tables.scopes.is_active(index, at) {
        return false;
    }
    has_other(hypotheses, noted, tables.symbols_at(index))
}

/// The indices of the `$d` that are active at an index, and of which one member has no `$f` among
/// the hypotheses. They are found in one pass over what stands before it.
pub(crate) fn find_further(
    tables: &Tables,
    alloc: Global,
    hypotheses: &[Hypothesis],
    at: usize,
) -> Result<Vec<usize>, AllocError>
    requires tables { AreTables tables.now }
    requires within { at ≤ length (statements_of tables.now) }
    ensures { IfOk result (λ indices. AreFoundFurther (statements_of tables.now)
        (variables_of hypotheses.now) at at indices.items) }
{
    let mut noted = NotedIndices::new(alloc);
    noted.note(hypotheses)?;
    let mut indices = Vec::new(alloc);
    for index in 0..at {
        if says_more(tables, hypotheses, &noted, at, index) {
            indices.push(index)?;
        }
    }
    Ok(indices)
}
