//! Whether a statement that was there has the comment that it had.

ghost use Rattle.std.specs.Prelude.{◌≡◌, ◌≤◌, ◌↔◌, ℕ, List, map, length};
ghost use Rattle.std.specs.Prelude.{IfSome, IsTrue, MatchOption};
ghost use Rattle.mm_base.specs.Statement.{plain_statement};
ghost use Rattle.mm_text.specs.Files.{plain_file};
ghost use Rattle.mm_render.specs.Shorter.{home_bytes};
ghost use Rattle.mm_with_lemmas.specs.WithLemmas.{IsCommentKept, IsHeadedAt, IsOwnCommentAt};

use mm_base::{File, Statement};
use mm_text::{comment_before, says_before};

/// Whether the comment right before a position is a heading, from those of parts to the least ones.
fn is_headed_at(bytes: &[u8], at: usize) -> bool
    requires { at ≤ length bytes.now }
    ensures { IsTrue result ↔ IsHeadedAt bytes.now at }
{
    says_before(bytes, at, b"####")
        || says_before(bytes, at, b"#*#*")
        || says_before(bytes, at, b"=-=-")
        || says_before(bytes, at, b"-.-.")
}

/// The comment right before a position, from its `$(` to its `$)`; none where no comment stands
/// there, or a heading.
fn own_comment_at<'b>(bytes: &'b [u8], at: usize) -> Option<&'b [u8]>
    requires { at ≤ length bytes.now }
    ensures { MatchOption result ((text : List ℕ) → ¬ (IsOwnCommentAt bytes.now at text))
        (λ text. IsOwnCommentAt bytes.now at text.now) }
{
    if is_headed_at(bytes, at) {
        return None;
    }
    let (start, stop) = comment_before(bytes, at)?;
    Some(&bytes[start..stop + 2])
}

/// Whether the comments right before two positions are the same, or neither has one but perhaps a
/// heading.
fn have_one_comment(bytes: &[u8], at: usize, others: &[u8], place: usize) -> bool
    requires at { at ≤ length bytes.now }
    requires place { place ≤ length others.now }
    ensures { IsTrue result → (text : List ℕ)
        → IsOwnCommentAt bytes.now at text ↔ IsOwnCommentAt others.now place text }
{
    match own_comment_at(bytes, at) {
        Some(text) => match own_comment_at(others, place) {
            Some(other) => text == other,
            None => false,
        },
        None => match own_comment_at(others, place) {
            Some(_) => false,
            None => true,
        },
    }
}

/// The bytes of the file in which a statement begins; none where they end before it.
fn home_of<'f>(files: &[File<'f>], statement: &Statement) -> Option<&'f [u8]>
    ensures home { IfSome result (λ bytes. bytes.now
        ≡ home_bytes (map plain_file files.now) (plain_statement statement.now)) }
    ensures within { IfSome result (λ bytes. statement.now.first.at ≤ length bytes.now) }
{
    let file = files.get(statement.first.file)?;
    if file.bytes.len() < statement.first.at as usize {
        return None;
    }
    Some(file.bytes)
}

/// Whether a statement, if it has a label, has the comment that it had in these files.
pub(crate) fn is_comment_kept(
    files: &[File],
    anew: &[File],
    old: &Statement,
    new: &Statement,
) -> bool
    ensures { IsTrue result → IsCommentKept (map plain_file files.now) (map plain_file anew.now)
        (plain_statement old.now) (plain_statement new.now) }
{
    if new.label.is_none() {
        return true;
    }
    let Some(bytes) = home_of(files, old) else {
        return false;
    };
    let Some(others) = home_of(anew, new) else {
        return false;
    };
    have_one_comment(bytes, old.first.at as usize, others, new.first.at as usize)
}
