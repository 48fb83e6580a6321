//! What the words of `mm lemmas --all` ask for: which lemmas in which file, and how they are labelled.

ghost use Rattle.std.specs.Prelude.{◌≡◌, ◌||◌, map, IfOk, IfErr, IsTrue, codes, option_map};
ghost use Rattle.std.specs.Prelude.{◌↔◌, unwrap_or};
ghost use Rattle.std.specs.List.{list_all};
ghost use Rattle.mm_base.specs.Token.{is_label, is_label_byte, is_printable, is_space};
ghost use Rattle.mm_text.specs.Remarks.{holds};
ghost use Rattle.mm_words.specs.Words.{IsLemmaWish, IsPrefix, IsRemark, MayBeSaid, NamesLemmaFile};
ghost use Rattle.mm_words.specs.RefusedWords.{IsFaultFor, IsNoLemmaWish, NamesNoLemmaFile};

use crate::command_line::LEMMAS_USE;
use crate::matches::named_file;
use crate::numbers::{decimal_count, numbers_said};
use crate::request::AskedLemmas;
use crate::stop::Stop;
use mm_verdict::is_space;
use std::alloc::Global;

/// With what labels of lemmas begin, where nothing is said.
const LEMMA_PREFIX: &str = "lem";

/// How many bytes they may begin with at most.
const MOST_PREFIX: usize = 100;

/// Whether each byte may stand in a label.
fn are_label_bytes(text: &[u8]) -> bool
    ensures { result ≡ list_all is_label_byte text.now }
{
    text.iter().all(
        |byte| matches!(*byte, b'A'..=b'Z' | b'a'..=b'z' | b'0'..=b'9' | b'-' | b'_' | b'.'),
    )
}

/// Whether a text may be a label.
fn is_label(text: &[u8]) -> bool
    ensures { result ≡ is_label text.now }
{
    !text.is_empty() && are_label_bytes(text)
}

/// Whether labels of lemmas may begin with a text.
fn is_prefix(text: &[u8]) -> bool
    ensures { IsTrue result ↔ IsPrefix text.now }
{
    text.len() <= MOST_PREFIX && is_label(text)
}

/// With what labels of lemmas begin: with the word that is given, if one is.
fn prefix_of<'a>(alloc: Global, given: Option<&'a str>) -> Result<&'a str, Stop<'a>>
    ensures same { IfOk result (λ prefix.
        unwrap_or (option_map (λ word. word.now) given.entry) (codes "lem") ≡ prefix.now) }
    ensures fit { IfOk result (λ prefix. IsPrefix prefix.now) }
    ensures fault { IfErr result (IsFaultFor
        (¬ (IsPrefix (unwrap_or (option_map (λ word. word.now) given.entry) (codes "lem"))))) }
{
    let prefix = given.unwrap_or(LEMMA_PREFIX);
    if is_prefix(prefix.as_bytes()) {
        return Ok(prefix);
    }
    Err(Stop::Usage(format!(in alloc;
        "mm: --prefix takes 1 to {MOST_PREFIX} letters, digits, -, _ and .\nUsage: {LEMMAS_USE}\n"
    )?))
}

/// Whether a byte may stand in a file of a database: whether it is printable ASCII or white space.
fn is_legal(byte: u8) -> bool
    ensures { result ≡ (is_printable byte || is_space byte) }
{
    matches!(byte, 0x21..=0x7e) || is_space(byte)
}

/// Whether each byte may stand there.
fn are_legal(text: &[u8]) -> bool
    ensures { result ≡ list_all (λ b. is_printable b || is_space b) text.now }
{
    text.iter().all(|byte| is_legal(*byte))
}

/// Whether a text holds a word.
fn holds(text: &[u8], word: &[u8]) -> bool
    ensures { result ≡ holds word.now text.now }
{
    for at in 0..text.len() {
        if text[at..].starts_with(word) {
            return true;
        }
    }
    word.is_empty()
}

/// Whether a comment may say a text.
fn is_remark(text: &[u8]) -> bool
    ensures { IsTrue result ↔ IsRemark text.now }
{
    are_legal(text) && !holds(text, b"$(".as_slice()) && !holds(text, b"$)".as_slice())
}

/// Whether comments may say what they are to say, if anything is given.
fn may_be_said(given: Option<&str>) -> bool
    ensures { IsTrue result ↔ MayBeSaid (option_map (λ text. text.now) given.entry) }
{
    match given {
        Some(text) => is_remark(text.as_bytes()),
        None => true,
    }
}

/// The numbers of lines that the first words say, the number of the file that is named behind them,
/// and the names of all files.
fn lines_and_file<'a>(
    alloc: Global,
    words: &[&'a str],
) -> Result<(Vec<usize>, usize, Vec<&'a str>), Stop<'a>>
    ensures named { IfOk result (λ named. NamesLemmaFile (map (λ word. word.now) words.now)
        named.0.items named.1 (map (λ name. name.now) named.2.items)) }
    ensures fault { IfErr result (IsFaultFor
        (NamesNoLemmaFile (map (λ word. word.now) words.now))) }
{
    let (decimals, others) = words.split_at(decimal_count(words));
    let (file, names) = named_file(alloc, others, LEMMAS_USE)?;
    let lines = numbers_said(alloc, decimals)?;
    Ok((lines, file, names))
}

/// What the words behind the command `lemmas` ask for by `--all`, with the words behind `--prefix`
/// and `--comment` and with these limits.
pub(crate) fn lemma_file<'a>(
    alloc: Global,
    words: &[&'a str],
    prefix: Option<&'a str>,
    comment: Option<&'a str>,
    most: usize,
    least: usize,
) -> Result<AskedLemmas<'a>, Stop<'a>>
    ensures wish { IfOk result (IsLemmaWish (map (λ word. word.now) words.now)
        (option_map (λ word. word.now) prefix.entry)
        (option_map (λ word. word.now) comment.entry)) }
    ensures limits { IfOk result (λ asked. (asked.most ≡ most) × (asked.least ≡ least)) }
    ensures fault { IfErr result (IsFaultFor (IsNoLemmaWish (map (λ word. word.now) words.now)
        (option_map (λ word. word.now) prefix.entry)
        (option_map (λ word. word.now) comment.entry))) }
{
    let prefix = prefix_of(alloc, prefix)?;
    if !may_be_said(comment) {
        return Err(Stop::Usage(format!(in alloc;
            "mm: --comment takes printable ASCII and white space, without $( and $)
Usage: {LEMMAS_USE}
"
        )?));
    }
    let (chosen, file, names) = lines_and_file(alloc, words)?;
    Ok(AskedLemmas {
        file,
        most,
        least,
        chosen,
        prefix,
        comment,
        names,
    })
}
