//! The one of some labels that proofs name least often.

ghost use Rattle.std.specs.Prelude.{◌≡◌, ℕ, List, Option, Some, IfOk, map, option_map};
ghost use Rattle.indexmap.specs.IndexMap.{get};
ghost use Rattle.mm_text.specs.Files.{plain_file};
ghost use Rattle.mm_text.specs.Reading.{PlainFault, Reads};
ghost use Rattle.mm_base.specs.Statement.{PlainStatement};
ghost use Rattle.mm_code.specs.Layout.{texts};
ghost use Rattle.mm_rules.specs.Verdict.{CanBeRead};
ghost use Rattle.mm_groups.specs.Shared.{IsRarestIn, times};
ghost use Rattle.mm_groups.specs.Mirror.Sets.{same_bytes, HasLeft};

use crate::countdown::counted_down;
use indexmap::IndexMap;
use mm_base::{File, Seed};
use std::alloc::{AllocError, Global};

/// What is left for a label.
fn left_of<'a>(left: &IndexMap<&'a [u8], usize, Seed>, label: &'a [u8]) -> usize
    ensures { (count : ℕ) → get same_bytes left.now label.entry ≡ Some count → result ≡ count }
{
    match left.get(&label) {
        Some(count) => *count,
        None => 0,
    }
}

/// The first of the labels for which the most is left, with that; none, where nothing is left for
/// any of them.
fn most_left<'a>(labels: &[&'a [u8]], left: &IndexMap<&'a [u8], usize, Seed>) -> Option<&'a [u8]>
    ensures { (limit : ℕ) (count : List ℕ → ℕ) → HasLeft limit count (texts labels.now) left.now
        → IsRarestIn limit count (texts labels.now) (option_map (λ l. l.now) result) }
{
    let mut best = None;
    let mut most = 0;
    for label in labels {
        let own = left_of(left, *label);
        if own <= most {
            continue;
        }
        best = Some(*label);
        most = own;
    }
    best
}

/// The first of the labels that the proofs of the files name least often, if that is less often than
/// the limit.
pub(crate) fn rarest<'a>(
    alloc: Global,
    seed: Seed,
    files: &'a [File<'a>],
    labels: &[&'a [u8]],
    limit: usize,
) -> Result<Option<&'a [u8]>, AllocError>
    requires { CanBeRead (map plain_file files.now) }
    ensures { IfOk result (λ label. (statements : List PlainStatement) (ending : Option PlainFault)
        → Reads (map plain_file files.now) statements ending
        → IsRarestIn limit (times statements) (texts labels.now)
        (option_map (λ l. l.now) label)) }
{
    if labels.is_empty() {
        return Ok(None);
    }
    let left = counted_down(alloc, seed, files, labels, limit)?;
    Ok(most_left(labels, &left))
}
