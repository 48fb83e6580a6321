//! The `minimize` questions of an accepted database.

ghost use Rattle.std.specs.Prelude.{◌≡◌, ◌<◌, List, length, None, IfOk, IfErr, OnOk};
ghost use Rattle.mm_rules.specs.declared.ask.AskFault.TheVariants.{Memory};
ghost use Rattle.mm_base.specs.Statement.{PlainStatement};
ghost use Rattle.mm_text.specs.Reading.{Reads};
ghost use Rattle.mm_rules.specs.Rests.{IsAskFault};
ghost use Rattle.mm_rules.specs.Answer.{KeepsLabels};
ghost use Rattle.mm_render.specs.Saved.{FitsSaved};
ghost use Rattle.mm_render.specs.Shorter.{IsMinimized};
ghost use Rattle.mm_minimize.specs.AllShorter.{IsAllShortened, IsAllShorterFault, ShorterLine};
ghost use Rattle.mm_minimize.specs.AllShorter.{AreShorterLines, IsOneShortened, shorter_text};
ghost use Rattle.mm_minimize.specs.declared.search_watch.Searched.TheVariants.{Left};

use crate::proof_pair::{compare, searched_for};
use crate::search::Search;
use crate::search_watch::{SearchWatch, Searched};
use crate::shortening::{Minimized, Shortening};
use crate::shorter_file::{Wanted, file_with_found, shorter_file};
use crate::shorter_list::shorter_list;
use mm_rules::AskFault;
use mm_shorten::Reach;
use mm_verdict::Checked;
use std::alloc::Global;

/// The small text of the shortest proof of the `$p` with this label that is known: of its own,
/// or of one that the search gives, where that has fewer bytes, no more steps, and depends on no
/// further axiom. Marks and mathboxes are heeded: an assertion isn't newly used if the comment
/// right before it says `(New usage is discouraged.)`, or if it stands in another mathbox; and
/// the proof stays if that of the theorem says `(Proof modification is discouraged.)`.
///
/// # Errors
///
/// As for `axioms`.
pub fn minimized<S: Search>(
    alloc: Global,
    checked: &Checked,
    label: &[u8],
    search: &mut S,
) -> Result<Vec<u8>, AskFault>
    ensures text { IfOk result (λ text. (statements : List PlainStatement)
        → Reads checked.now.files statements None
        → IsMinimized checked.now.profile checked.now.files statements label.now text.items) }
    ensures fault { IfErr result (λ fault. (statements : List PlainStatement)
        → Reads checked.now.files statements None → IsAskFault statements label.now fault) }
    ensures whole { S.is_whole search.old → OnOk result (S.is_whole search.new) }
{
    let theorem = checked.read_theorem(alloc, label)?;
    let shortening = Shortening::new(alloc, checked)?;
    let found = shortening.minimized(alloc, &theorem, search)?;
    Ok(found.text)
}

/// What is told of the search for one theorem, which found this and left so many.
fn searched_or_left(found: Searched, left: usize) -> Searched
    ensures left { 0 < left → result ≡ Left left }
    ensures found { left ≡ 0 → result ≡ found }
{
    if left > 0 {
        Searched::Left(left)
    } else {
        found
    }
}

/// The same, by a search in what the database has before the theorem. The watch is told what that
/// came to.
pub fn minimized_by_library<W: SearchWatch>(
    alloc: Global,
    checked: &Checked,
    label: &[u8],
    watch: &mut W,
) -> Result<Vec<u8>, AskFault>
    ensures text { IfOk result (λ text. (statements : List PlainStatement)
        → Reads checked.now.files statements None
        → IsMinimized checked.now.profile checked.now.files statements label.now text.items) }
    ensures fault { IfErr result (λ fault. (statements : List PlainStatement)
        → Reads checked.now.files statements None → IsAskFault statements label.now fault) }
{
    let theorem = checked.read_theorem(alloc, label)?;
    let shortening = Shortening::new(alloc, checked)?;
    let mut search = shortening.search(alloc, Reach::OneMissing);
    let Minimized { text, searched } = shortening.minimized(alloc, &theorem, &mut search)?;
    watch.searched(searched_or_left(searched, search.left));
    Ok(text)
}

/// The bytes of the file in which the `$p` with this label stands, with the shorter proof that this
/// search finds in place of its own, where that has fewer bytes; else as they are. The watch is
/// told what the search came to.
///
/// # Errors
///
/// As for `axioms`.
pub fn minimized_whole<W: SearchWatch>(
    alloc: Global,
    checked: &Checked,
    label: &[u8],
    watch: &mut W,
) -> Result<Vec<u8>, AskFault>
    ensures shortened { IfOk result (λ new. (statements : List PlainStatement)
        → Reads checked.now.files statements None
        → IsOneShortened checked.now.profile checked.now.files statements label.now new.items) }
    ensures fault { IfErr result (λ fault. (statements : List PlainStatement)
        → Reads checked.now.files statements None → IsAskFault statements label.now fault) }
{
    let theorem = checked.read_theorem(alloc, label)?;
    let shortening = Shortening::new(alloc, checked)?;
    let mut search = shortening.search(alloc, Reach::OneMissing);
    let found = compare(alloc, &shortening, &theorem, &mut search)?;
    watch.searched(searched_or_left(searched_for(&found), search.left));
    file_with_found(alloc, checked, &theorem, &found)
}

/// A line for each theorem whose proof becomes shorter, and their sums. The watch is told after each
/// theorem how far this has come, and at the end how many were left.
pub fn minimized_list<W: SearchWatch>(
    alloc: Global,
    checked: &Checked,
    watch: &mut W,
) -> Result<Vec<u8>, AskFault>
    requires { KeepsLabels checked.now.files checked.now }
    ensures list { IfOk result (λ text. (statements : List PlainStatement)
        → Reads checked.now.files statements None
        → (lines : List ShorterLine)
        × AreShorterLines checked.now.profile checked.now.files statements lines
        × (text.items ≡ shorter_text statements lines)) }
    ensures memory { IfErr result (λ fault. fault ≡ Memory) }
{
    let shortening = Shortening::new(alloc, checked)?;
    let mut search = shortening.search(alloc, Reach::OneMissing);
    let list = shorter_list(alloc, &shortening, &mut search, watch);
    watch.searched(Searched::Left(search.left));
    list
}

/// The bytes of a file with each proof replaced that becomes shorter. The watch is told as by
/// `minimized_list`.
pub fn minimized_file<W: SearchWatch>(
    alloc: Global,
    checked: &Checked,
    wanted: Wanted,
    watch: &mut W,
) -> Result<Vec<u8>, AskFault>
    requires { wanted.number < length checked.now.files }
    ensures shortened { IfOk result (λ new. (statements : List PlainStatement)
        → Reads checked.now.files statements None
        → IsAllShortened checked.now.profile wanted.duplicates checked.now.files statements
        wanted.number new.items) }
    ensures fits { IfOk result (λ new. FitsSaved checked.now.files wanted.number new.items) }
    ensures fault { IfErr result (λ fault. (statements : List PlainStatement)
        → Reads checked.now.files statements None
        → IsAllShorterFault checked.now.profile wanted.duplicates checked.now.files statements
        wanted.number fault) }
{
    let shortening = Shortening::new(alloc, checked)?;
    let mut search = shortening.search(alloc, Reach::OneMissing);
    let file = shorter_file(alloc, &shortening, wanted, &mut search, watch);
    watch.searched(Searched::Left(search.left));
    file
}
