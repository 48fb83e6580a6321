//! The lemmas of a search, as lines.

ghost use Rattle.std.specs.Prelude.{◌≡◌, ◌+◌, ◌++◌, ◌≤◌, ◌<◌, List, [], codes, decimal, min};
ghost use Rattle.std.specs.Prelude.{None, IfOk, IfSome, OnOk, ℕ};
ghost use Rattle.mm_base.specs.Statement.{PlainStatement};
ghost use Rattle.mm_text.specs.Files.{PlainFile};
ghost use Rattle.mm_text.specs.Reading.{Reads};
ghost use Rattle.mm_lemmas.specs.Told.{ListsLemmas, LemmaLine, known_text, lemma_text, made_text};
ghost use Rattle.mm_lemmas.specs.Told.{gain_text, most_sum, name_text, sums_text};
ghost use Rattle.mm_lemmas.specs.Mirror.Listing.{AreNamesOf, AreSums, IsListedSoFar};
ghost use Rattle.mm_lemmas.specs.Mirror.Listing.{PutsLine, line_of, plain_name, plain_known};

use crate::told::{Gain, Name, Source, Told, source_of, told_of};
use mm_find::{push_premises, push_words};
use mm_lemma_search::{Lemma, Words};
use mm_rules::{push_decimal, push_number, push_word};
use mm_verdict::Checked;
use std::alloc::{AllocError, Global};

/// How many lemmas are told, what they save, and how many steps are by them.
#[derive(Clone, Copy)]
struct Sums {
    lemmas: usize,
    saved: usize,
    uses: usize,
}

/// The lines so far, and the sums over them.
#[derive(Drop)]
struct Listing {
    text: Vec<u8>,
    sums: Sums,
}

impl Sums {
    /// The same, with one lemma more.
    fn with(self, gain: Gain) -> Sums
        requires { self.lemmas < usize.MAX }
        ensures lemmas { result.lemmas ≡ self.lemmas + 1 }
        ensures saved { result.saved ≡ min most_sum (self.saved + gain.saved) }
        ensures uses { result.uses ≡ min most_sum (self.uses + gain.uses) }
    {
        Sums {
            lemmas: self.lemmas + 1,
            saved: self.saved.saturating_add(gain.saved),
            uses: self.uses.saturating_add(gain.uses),
        }
    }

    /// Appends the line of the sums.
    fn push(self, out: &mut Vec<u8>) -> Result<(), AllocError>
        ensures { OnOk result ((lines : List LemmaLine) → AreSums lines self
            → out.new.items ≡ out.old.items ++ sums_text lines) }
    {
        push_decimal(out, self.lemmas)?;
        out.extend_from_slice(b" lemmas")?;
        push_number(out, self.saved)?;
        push_number(out, self.uses)?;
        out.push(b'\n')?;
        Ok(())
    }
}

/// Appends a space, and what a step is by.
fn push_name(out: &mut Vec<u8>, name: Name) -> Result<(), AllocError>
    ensures { OnOk result
        (out.new.items ≡ out.old.items ++ codes " " ++ name_text (plain_name name.entry)) }
{
    match name {
        Name::Label(label) => push_word(out, label),
        Name::Line(number) => {
            out.extend_from_slice(b" #")?;
            push_decimal(out, number)
        }
    }
}

/// Appends what says a lemma already, if anything does.
fn push_known(out: &mut Vec<u8>, known: Option<Name>) -> Result<(), AllocError>
    ensures { OnOk result (out.new.items ≡ out.old.items ++ known_text (plain_known known.entry)) }
{
    match known {
        Some(name) => {
            out.extend_from_slice(b" is")?;
            push_name(out, name)
        }
        None => Ok(()),
    }
}

/// Appends what a lemma gains.
fn push_gain(out: &mut Vec<u8>, gain: Gain) -> Result<(), AllocError>
    ensures { OnOk result (out.new.items
        ≡ out.old.items ++ gain_text gain.saved gain.uses gain.proofs) }
{
    push_decimal(out, gain.saved)?;
    push_number(out, gain.uses)?;
    push_number(out, gain.proofs)
}

/// Appends what a lemma is made of.
fn push_source(out: &mut Vec<u8>, source: Source) -> Result<(), AllocError>
    ensures { OnOk result (out.new.items ≡ out.old.items
        ++ made_text (plain_name source.entry.upper) source.entry.place
        (plain_name source.entry.lower) ++ known_text (plain_known source.entry.known)) }
{
    push_name(out, source.upper)?;
    push_number(out, source.place)?;
    push_name(out, source.lower)?;
    push_known(out, source.known)
}

/// Appends the line of a lemma.
fn push_line(out: &mut Vec<u8>, told: &Told) -> Result<(), AllocError>
    ensures { OnOk result (out.new.items ≡ out.old.items ++ lemma_text (line_of told.now)) }
{
    push_gain(out, told.gain)?;
    push_source(out, told.source)?;
    push_word(out, b":")?;
    push_premises(out, &told.hypotheses)?;
    push_words(out, &told.expression)?;
    out.push(b'\n')?;
    Ok(())
}

impl Listing {
    /// Appends the line of a lemma.
    fn push(&mut self, told: &Told) -> Result<(), AllocError>
        requires { self.old.sums.lemmas < usize.MAX }
        ensures { OnOk result (PutsLine (line_of told.now) self.old self.new) }
    {
        push_line(&mut self.text, told)?;
        self.sums = self.sums.with(told.gain);
        Ok(())
    }
}

/// A lemma as it is told behind so many lines, where lemmas are told in these, if it saves so many
/// bytes; none where it can't be told.
fn wanted_of<'a>(
    alloc: Global,
    checked: &Checked<'a>,
    words: Words<'_, 'a>,
    lines: &[usize],
    before: usize,
    least: usize,
    lemma: &Lemma,
) -> Result<Option<Told<'a>>, AllocError>
    ensures { IfOk result (λ told. IfSome told (λ told. (least ≤ told.gain.saved)
        × ((statements : List PlainStatement) → Reads checked.now.files statements None
        → AreNamesOf statements before told.source))) }
{
    let Some(source) = source_of(checked, lines, before, lemma) else {
        return Ok(None);
    };
    let Some(variables) = words.variables.of(&lemma.pattern.variables, lemma.block)? else {
        return Ok(None);
    };
    match told_of(alloc, &variables, words.names, lemma, source)? {
        Some(told) if told.gain.saved >= least => Ok(Some(told)),
        _ => Ok(None),
    }
}

/// Lists the lemmas that can be told, and answers for each the number of its line, or 0: of as many
/// as there are until the list is full.
fn list_each<'a>(
    list: &mut Listing,
    alloc: Global,
    checked: &Checked<'a>,
    words: Words<'_, 'a>,
    lemmas: &[Lemma],
    most: usize,
    least: usize,
) -> Result<Vec<usize>, AllocError>
    requires { IsListedSoFar most least checked.now.files [] list.old }
    ensures { OnOk result ((lines : List LemmaLine)
        × IsListedSoFar most least checked.now.files lines list.new) }
{
    let mut lines = Vec::new(alloc);
    for lemma in lemmas {
        let before = list.sums.lemmas;
        if before >= most {
            return Ok(lines);
        }
        match wanted_of(alloc, checked, words, &lines, before, least, lemma)? {
            Some(told) => {
                list.push(&told)?;
                lines.push(list.sums.lemmas)?;
            }
            None => lines.push(0)?,
        }
    }
    Ok(lines)
}

/// A list without lines.
fn no_lines(alloc: Global) -> Listing
    ensures { (files : List PlainFile) (most least : ℕ)
        → IsListedSoFar most least files [] result }
{
    Listing {
        text: Vec::new(alloc),
        sums: Sums {
            lemmas: 0,
            saved: 0,
            uses: 0,
        },
    }
}

/// For each of these lemmas the number of the line that tells it in such a list, or 0: of as many as
/// there are until the list is full.
pub(crate) fn lines_of<'a>(
    alloc: Global,
    checked: &Checked<'a>,
    words: Words<'_, 'a>,
    lemmas: &[Lemma],
    most: usize,
    least: usize,
) -> Result<Vec<usize>, AllocError> {
    let mut list = no_lines(alloc);
    let lines = list_each(&mut list, alloc, checked, words, lemmas, most, least);
    drop(list);
    lines
}

/// A line for each of these lemmas, so many at most, that saves so many bytes or more, and the sums.
pub(crate) fn listed<'a>(
    alloc: Global,
    checked: &Checked<'a>,
    words: Words<'_, 'a>,
    lemmas: &[Lemma],
    most: usize,
    least: usize,
) -> Result<Vec<u8>, AllocError>
    ensures { IfOk result (λ text. (statements : List PlainStatement)
        → Reads checked.now.files statements None → ListsLemmas most least statements text.items) }
{
    let mut list = no_lines(alloc);
    let lines = list_each(&mut list, alloc, checked, words, lemmas, most, least)?;
    drop(lines);
    let Listing { mut text, sums } = list;
    sums.push(&mut text)?;
    Ok(text)
}
