//! What changed between two databases, by the numbers of assertions.

ghost use Rattle.std.specs.Prelude.{◌<◌, map, length, IfOk};
ghost use Rattle.mm_frame.specs.Numbers.{labelled_sentences};
ghost use Rattle.mm_rules.specs.Conclusion.{labels_in};
ghost use Rattle.mm_rules.specs.Rests.{AreInOrder};
ghost use Rattle.mm_diff.specs.Diff.{AreRenamed, IsMissing};
ghost use Rattle.mm_diff.specs.Mirror.Changes.{AreWithin, plain_changes, plain_renaming};
ghost use Rattle.mm_alike.specs.Mirror.Databases.{IsComplete};
ghost use Rattle.mm_diff.specs.Mirror.Outcomes.{AreChangesIn};

use crate::depends::{Dependence, Dependences, dependences_between};
use crate::moved::those_moved;
use crate::renamed::{Renaming, those_missing, those_renamed};
use mm_alike::{Difference, Home, those_reproved, those_that_differ};
use mm_frame::{Book, LabelId};
use mm_verdict::Checked;
use std::alloc::{AllocError, Global};

/// What changed, by the numbers of assertions.
#[derive(Drop)]
pub(crate) struct Changes {
    /// In the old database, those that are gone.
    pub gone: Vec<LabelId>,
    /// In the new one, those that were added.
    pub added: Vec<LabelId>,
    /// In the new one, those that are changed.
    pub changed: Vec<LabelId>,
    /// In the new one, those that are reproved.
    pub reproved: Vec<LabelId>,
    /// In both, those that are renamed.
    pub renamed: Vec<Renaming>,
    /// In the new one, those that were moved.
    pub moved: Vec<LabelId>,
    /// In the new one, the theorems that depend on further axioms, and these.
    pub further: Vec<Dependence>,
    /// In the new one, the theorems that depend on fewer axioms, and in the old one the others.
    pub less: Vec<Dependence>,
}

/// Which labels changed.
#[derive(Drop)]
struct Labels {
    gone: Vec<LabelId>,
    added: Vec<LabelId>,
    renamed: Vec<Renaming>,
}

/// Which labels changed from the old database to the new one.
fn labels_between(alloc: Global, old: &Book, new: &Book) -> Result<Labels, AllocError>
    requires old { length (labelled_sentences old.now.statements) < 4294967295 }
    requires new { length (labelled_sentences new.now.statements) < 4294967295 }
    ensures gone { IfOk result (λ labels. AreInOrder
        (IsMissing old.now.statements new.now.statements) (map (λ l. l.0) labels.gone.items)) }
    ensures added { IfOk result (λ labels. AreInOrder
        (IsMissing new.now.statements old.now.statements) (map (λ l. l.0) labels.added.items)) }
    ensures renamed { IfOk result (λ labels. AreRenamed old.now.statements new.now.statements
        (map plain_renaming labels.renamed.items)) }
{
    let without = those_that_differ(alloc, Difference::Alone, old, new)?;
    let fresh = those_that_differ(alloc, Difference::Alone, new, old)?;
    let gone = those_missing(alloc, old, &without, new, &fresh)?;
    let added = those_missing(alloc, new, &fresh, old, &without)?;
    let renamed = those_renamed(alloc, new, &fresh, old, &without)?;
    Ok(Labels {
        gone,
        added,
        renamed,
    })
}

/// What changed from the old database to the new one.
pub(crate) fn changes_between(
    alloc: Global,
    old: &Checked,
    old_homes: &[Home],
    new: &Checked,
    new_homes: &[Home],
) -> Result<Changes, AllocError>
    requires old { IsComplete old.now old_homes.now }
    requires new { IsComplete new.now new_homes.now }
    ensures changes { IfOk result (λ changes.
        AreChangesIn old.now new.now (plain_changes changes)) }
    ensures within { IfOk result (λ changes. AreWithin (labels_in old.now.sentences)
        (labels_in new.now.sentences) (plain_changes changes)) }
{
    let labels = labels_between(alloc, &old.book, &new.book)?;
    let changed = those_that_differ(alloc, Difference::Changed, &new.book, &old.book)?;
    let reproved = those_reproved(alloc, new, new_homes, old, old_homes)?;
    let moved = those_moved(alloc, &old.book, &new.book)?;
    let dependences = dependences_between(alloc, old, new, &labels.renamed)?;
    let Dependences { further, less } = dependences;
    let Labels {
        gone,
        added,
        renamed,
    } = labels;
    Ok(Changes {
        gone,
        added,
        changed,
        reproved,
        renamed,
        moved,
        further,
        less,
    })
}
