//! A theorem's own proof beside a shorter one.

ghost use Rattle.std.specs.Prelude.{◌≡◌, IfOk, IfErr, IfSome, OnOk};
ghost use Rattle.mm_base.specs.Statement.{plain_statement};
ghost use Rattle.mm_rules.specs.declared.ask.AskFault.TheVariants.{Memory};
ghost use Rattle.mm_minimize.specs.Mirror.AllShortening.{AreCompared, IsSearchedBeside};
ghost use Rattle.mm_minimize.specs.Mirror.AllShortening.{IsShorterFor};
ghost use Rattle.mm_verdict.specs.Mirror.Rereading.{IsTheoremIn};
ghost use Rattle.mm_verdict.specs.Mirror.Theorems.{IsWholeProof};
ghost use Rattle.mm_minimize.specs.Mirror.Shortening.{KnowsDatabase};

use crate::search::Search;
use crate::search_watch::Searched;
use crate::shortening::{Shortening, Shorter};
use crate::sizes::Sizes;
use mm_base::Statement;
use mm_frame::LabelId;
use mm_proof::StepsReader;
use mm_render::{OwnProof, own_small_proof};
use mm_rules::AskFault;
use mm_verdict::Theorem;
use std::alloc::{AllocError, Global};

/// A theorem's own proof, and a shorter one.
#[derive(Drop)]
pub struct Compared {
    pub own: OwnProof,
    pub new: Shorter,
}

/// The proof of a theorem, and a shorter one, where a search finds one.
pub(crate) fn compare<S: Search>(
    alloc: Global,
    shortening: &Shortening,
    theorem: &Theorem,
    search: &mut S,
) -> Result<Option<Compared>, AllocError>
    requires theorem { IsWholeProof shortening.now.checked.now.sentences theorem.now.id.0
        theorem.now.steps }
    requires known { KnowsDatabase shortening.now }
    ensures compared { IfOk result (λ found. IfSome found
        (AreCompared shortening.now.checked.now theorem.now)) }
    ensures whole { S.is_whole search.old → OnOk result (S.is_whole search.new) }
{
    let own = own_small_proof(alloc, shortening.checked, theorem)?;
    let found = shortening.found(alloc, theorem, &own, search)?;
    match found {
        Some(new) => Ok(Some(Compared { own, new })),
        None => Ok(None),
    }
}

/// The proof of the theorem with a number, whose statement this is, as it was read again, and a
/// shorter one, where a search finds one.
pub(crate) fn shorter_proof<'a, S: Search>(
    alloc: Global,
    shortening: &Shortening<'_, 'a>,
    statement: &Statement<'a>,
    id: LabelId,
    search: &mut S,
) -> Result<Option<Compared>, AskFault>
    requires theorem { IsTheoremIn shortening.now.checked.now.files id.0
        (plain_statement statement.now) }
    requires known { KnowsDatabase shortening.now }
    ensures shorter { IfOk result (λ found. IfSome found
        (IsShorterFor shortening.now.checked.now id.0 (plain_statement statement.now))) }
    ensures memory { IfErr result (λ fault. fault ≡ Memory) }
    ensures whole { S.is_whole search.old → OnOk result (S.is_whole search.new) }
{
    let checked = shortening.checked;
    let mut steps = StepsReader::new(alloc);
    let theorem = checked.theorem_at(&mut steps, alloc, statement, id)?;
    let found = compare(alloc, shortening, &theorem, search)?;
    Ok(found)
}

/// What the search for a shorter proof came to, which found this.
pub(crate) fn searched_for(found: &Option<Compared>) -> Searched
    ensures { IsSearchedBeside found.now result }
{
    match found {
        Some(both) => Searched::Shorter {
            own: Sizes::of(&both.own),
            new: Sizes::of(&both.new.proof),
        },
        None => Searched::NoneShorter,
    }
}
