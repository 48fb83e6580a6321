//! How often labels are named, counted down from a limit.

ghost use Rattle.std.specs.Prelude.{◌≡◌, ◌-◌, ◌∷◌, [], ℕ, List, Option, Some, true, IfOk, OnOk};
ghost use Rattle.std.specs.Prelude.{map};
ghost use Rattle.indexmap.specs.IndexMap.{get};
ghost use Rattle.mm_text.specs.Files.{plain_file};
ghost use Rattle.mm_text.specs.Reading.{PlainFault, Reads};
ghost use Rattle.mm_base.specs.Statement.{PlainStatement};
ghost use Rattle.mm_code.specs.Layout.{texts};
ghost use Rattle.mm_rules.specs.Verdict.{CanBeRead};
ghost use Rattle.mm_groups.specs.Shared.{is_in, times_in, times};
ghost use Rattle.mm_groups.specs.Mirror.Sets.{same_bytes, left_after, left_at_first};
ghost use denote.Ref.{Bor};

use crate::labels::labels_of;
use indexmap::IndexMap;
use mm_base::{File, Seed, Statement};
use mm_text::{Passing, pass_all};
use std::alloc::{AllocError, Global};

/// For each of some labels how many times less than a limit it was named.
#[derive(Drop)]
pub(crate) struct Countdown<'a> {
    alloc: Global,
    pub left: IndexMap<&'a [u8], usize, Seed>,
}

/// The label is named once more.
fn count_down<'a>(
    left: &mut IndexMap<&'a [u8], usize, Seed>,
    label: &'a [u8],
) -> Result<(), AllocError>
    ensures { OnOk result ((other : Bor (List ℕ)) → get same_bytes left.new other
        ≡ left_after (times_in (label.now ∷ []) other.now) (get same_bytes left.old other)) }
{
    match left.get(&label) {
        Some(count) => {
            let less = count.saturating_sub(1);
            left.insert(label, less)?;
            Ok(())
        }
        None => Ok(()),
    }
}

/// Each of the labels is named once more.
fn count_down_all<'a>(
    left: &mut IndexMap<&'a [u8], usize, Seed>,
    labels: &[&'a [u8]],
) -> Result<(), AllocError>
    ensures { OnOk result ((other : Bor (List ℕ)) → get same_bytes left.new other
        ≡ left_after (times_in (texts labels.now) other.now) (get same_bytes left.old other)) }
{
    for label in labels {
        count_down(left, label)?;
    }
    Ok(())
}

impl<'a> Passing<'a> for Countdown<'a> {
    ghost use Rattle.mm_groups.specs.Mirror.Counted.{HasCounted};

    ghost has_passed = { HasCounted };

    fn pass(&mut self, statement: &Statement<'a>) -> Result<(), AllocError> {
        let labels = labels_of(self.alloc, statement)?;
        count_down_all(&mut self.left, &labels)
    }
}

/// The limit for each of the labels.
fn begin<'a>(
    alloc: Global,
    seed: Seed,
    labels: &[&'a [u8]],
    limit: usize,
) -> Result<IndexMap<&'a [u8], usize, Seed>, AllocError>
    ensures { IfOk result (λ left. (label : Bor (List ℕ)) → get same_bytes left label
        ≡ left_at_first limit (is_in (texts labels.now) label.now)) }
{
    let mut left = IndexMap::with_hasher(alloc, seed);
    for label in labels {
        left.insert(*label, limit)?;
    }
    Ok(left)
}

/// For each of the labels how many times less than the limit the proofs of the files name it, or are
/// of it; 0 where they do as often or more often.
#[tactic(auto, using(crate::proofs::LabelTimes::left_none))]
pub(crate) fn counted_down<'a>(
    alloc: Global,
    seed: Seed,
    files: &'a [File<'a>],
    labels: &[&'a [u8]],
    limit: usize,
) -> Result<IndexMap<&'a [u8], usize, Seed>, AllocError>
    requires { CanBeRead (map plain_file files.now) }
    ensures { IfOk result (λ left. (statements : List PlainStatement) (ending : Option PlainFault)
        → Reads (map plain_file files.now) statements ending
        → (label : Bor (List ℕ)) → is_in (texts labels.now) label.now ≡ true
        → get same_bytes left label ≡ Some (limit - times statements label.now)) }
{
    let mut countdown = Countdown {
        alloc,
        left: begin(alloc, seed, labels, limit)?,
    };
    pass_all(alloc, seed, files, &mut countdown)?;
    Ok(countdown.left)
}
