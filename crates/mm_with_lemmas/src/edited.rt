//! Whether bytes are those of a file with changes, and no more.

ghost use Rattle.std.specs.Prelude.{◌≡◌, ◌≤◌, ◌++◌, length, IsTrue, IfSome};
ghost use Rattle.mm_save.specs.AllSaved.{with_replaced};
ghost use Rattle.mm_with_lemmas.specs.WithLemmas.{AreApart};
ghost use Rattle.mm_with_lemmas.specs.Mirror.Editing.{places_of};

use crate::change::Change;

/// What is left of bytes behind two parts, where they begin with these.
fn behind<'b>(bytes: &'b [u8], kept: &[u8], text: &[u8]) -> Option<&'b [u8]>
    ensures { IfSome result (λ rest. bytes.now ≡ kept.now ++ (text.now ++ rest.now)) }
{
    match bytes.strip_prefix(kept) {
        Some(others) => others.strip_prefix(text),
        None => None,
    }
}

/// Whether the changes stand in the bytes of a source, each behind those before it, and the bytes
/// are these with the texts of the changes in place of their spans, and no more than the source
/// has.
pub(crate) fn are_edited(source: &[u8], changes: &[Change], bytes: &[u8]) -> bool
    ensures apart { IsTrue result → AreApart (length source.now) (places_of changes.now) }
    ensures whole { IsTrue result
        → bytes.now ≡ with_replaced source.now (places_of changes.now) }
    ensures no_longer { IsTrue result → length bytes.now ≤ length source.now }
{
    if source.len() < bytes.len() {
        return false;
    }
    let mut taken = 0;
    let mut rest = bytes;
    for change in changes {
        let span = change.span();
        let (start, stop) = (span.0 as usize, span.1 as usize);
        if start < taken || stop < start || source.len() < stop {
            return false;
        }
        let Some(others) = behind(rest, &source[taken..start], change.text()) else {
            return false;
        };
        rest = others;
        taken = stop;
    }
    rest == &source[taken..]
}
