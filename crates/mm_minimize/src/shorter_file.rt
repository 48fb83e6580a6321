//! A file in which each proof that a search makes shorter is replaced.

ghost use Rattle.std.specs.Prelude.{◌≡◌, ◌<◌, ◌≤◌, List, [], length, true, None, IfOk, IfErr, OnOk};
ghost use Rattle.std.specs.Prelude.{IsTrue, ℕ, ◌↔◌, IfSome};
ghost use Rattle.mm_base.specs.Statement.{PlainStatement, plain_statement, HasForm};
ghost use Rattle.mm_text.specs.Reading.{Reads};
ghost use Rattle.mm_rules.specs.declared.ask.AskFault.TheVariants.{Memory};
ghost use Rattle.mm_minimize.specs.AllShorter.{IsAllShortened, IsAllShorterFault};
ghost use Rattle.mm_render.specs.Saved.{FitsSaved, within_span};
ghost use Rattle.mm_minimize.specs.Mirror.AllShortening.{IsAllShortenedIn, IsShortenedSoFar};
ghost use Rattle.mm_minimize.specs.Mirror.AllShortening.{IsFileOfFound, IsTextOfFound, IsWanted};
ghost use Rattle.mm_minimize.specs.Mirror.AllShortening.{MayBeWritten, MayStandIn, PutsShorter};
ghost use Rattle.mm_render.specs.Mirror.Rewriting.{HoldsSpan};
ghost use Rattle.mm_verdict.specs.Mirror.Rereading.{IsTheoremIn};
ghost use Rattle.mm_minimize.specs.Mirror.Shortening.{KnowsDatabase};
ghost use Rattle.mm_save.specs.Mirror.AllSaving.{IsWrittenSoFar};
ghost use Rattle.mm_verdict.specs.declared.form.Form.TheVariants.{Small};

use crate::proof_pair::{Compared, shorter_proof};
use crate::search::Search;
use crate::shortening::{Shortening, Shorter};
use mm_base::Statement;
use mm_frame::LabelId;
use mm_render::{bytes_of, file_with_text, small_span_text};
use mm_rules::AskFault;
use mm_save::{NewFile, new_file};
use mm_verdict::{Checked, Form, Rereading, Theorem, Watch};
use std::alloc::Global;

/// What is written of a file: which proofs are replaced.
#[derive(Clone, Copy)]
pub struct Wanted {
    /// The number of the file.
    pub number: usize,
    /// Whether a proof is replaced by one that uses one assertion alone, the syntax aside.
    pub duplicates: bool,
}

/// Whether a shorter proof is put, with duplicates or without.
fn is_wanted(duplicates: bool, new: &Shorter) -> bool
    ensures { IsTrue result ↔ IsWanted duplicates new.now }
{
    duplicates || !new.is_duplicate
}

/// What is put in place of the old bytes of a theorem's proof: the shorter one that was found, if it
/// is wanted; else these bytes.
fn text_of_found(
    alloc: Global,
    checked: &Checked,
    duplicates: bool,
    found: &Option<Compared>,
    old: &[u8],
) -> Result<Vec<u8>, AskFault>
    requires may { IfSome found.now (MayBeWritten checked.now) }
    ensures text { IfOk result (λ put. IsTextOfFound checked.now duplicates found.now old.now
        put.items) }
    ensures memory { IfErr result (λ fault. fault ≡ Memory) }
{
    match found {
        Some(both) if is_wanted(duplicates, &both.new) => {
            small_span_text(alloc, checked, &both.new.theorem, old)
        }
        _ => Ok(Vec::from_slice(alloc, old)?),
    }
}

/// The bytes of the file in which a theorem stands, with the shorter proof that was found in place
/// of its own, a duplicate too, where that has fewer bytes; else as they are.
pub(crate) fn file_with_found(
    alloc: Global,
    checked: &Checked,
    theorem: &Theorem,
    found: &Option<Compared>,
) -> Result<Vec<u8>, AskFault>
    requires there { (statements : List PlainStatement) → Reads checked.now.files statements None
        → HoldsSpan checked.now.files theorem.now.file theorem.now.span }
    requires may { IfSome found.now (MayBeWritten checked.now) }
    ensures put { IfOk result (λ new. IsFileOfFound checked.now theorem.now found.now new.items) }
    ensures memory { IfErr result (λ fault. fault ≡ Memory) }
{
    let files = checked.files;
    let old = bytes_of(files, theorem.file, theorem.span);
    let put = text_of_found(alloc, checked, true, found, old)?;
    let new = file_with_text(alloc, files, theorem.file, theorem.span, &put)?;
    Ok(new)
}

/// What is put in place of the old bytes of the proof of the theorem with this number: a shorter
/// one, where one is found that is wanted; else these bytes.
fn text_for<'a, S: Search>(
    alloc: Global,
    shortening: &Shortening<'_, 'a>,
    duplicates: bool,
    statement: &Statement<'a>,
    id: LabelId,
    search: &mut S,
    old: &[u8],
) -> Result<Vec<u8>, AskFault>
    requires theorem { IsTheoremIn shortening.now.checked.now.files id.0
        (plain_statement statement.now) }
    requires formed { HasForm (plain_statement statement.now) }
    requires known { KnowsDatabase shortening.now }
    ensures may { IfOk result (λ put. (bytes : List ℕ)
        → old.now ≡ within_span bytes (plain_statement statement.now).span
        → MayStandIn shortening.now.checked.now duplicates bytes (plain_statement statement.now)
        put.items) }
    ensures memory { IfErr result (λ fault. fault ≡ Memory) }
    ensures whole { S.is_whole search.old → OnOk result (S.is_whole search.new) }
{
    let found = shorter_proof(alloc, shortening, statement, id, search)?;
    text_of_found(alloc, shortening.checked, duplicates, &found, old)
}

/// Writes the theorem with this number, whose statement is read again.
fn write_theorem<'a, S: Search>(
    alloc: Global,
    shortening: &Shortening<'_, 'a>,
    duplicates: bool,
    statement: &Statement<'a>,
    id: LabelId,
    search: &mut S,
    file: &mut NewFile<'a>,
) -> Result<(), AskFault>
    requires theorem { IsTheoremIn shortening.now.checked.now.files id.0
        (plain_statement statement.now) }
    requires formed { HasForm (plain_statement statement.now) }
    requires known { KnowsDatabase shortening.now }
    requires after { file.old.taken ≤ statement.now.span.0 }
    requires order { statement.now.span.0 ≤ statement.now.span.1 }
    requires within { statement.now.span.1 ≤ length file.old.source.now }
    ensures puts { OnOk result (PutsShorter shortening.now.checked.now duplicates
        (plain_statement statement.now) file.old file.new) }
    ensures memory { IfErr result (λ fault. fault ≡ Memory) }
    ensures whole { S.is_whole search.old → OnOk result (S.is_whole search.new) }
{
    let span = statement.span;
    let source = file.source;
    let old = &source[span.0 as usize..span.1 as usize];
    let text = text_for(alloc, shortening, duplicates, statement, id, search, old)?;
    file.put(span, &text)?;
    Ok(())
}

/// Writes each theorem of a file, and tells after each theorem how far this has come.
fn write_all<'a, S: Search, W: Watch>(
    alloc: Global,
    shortening: &Shortening<'_, 'a>,
    wanted: Wanted,
    search: &mut S,
    file: &mut NewFile<'a>,
    watch: &mut W,
) -> Result<(), AskFault>
    requires known { KnowsDatabase shortening.now }
    requires begun { IsShortenedSoFar shortening.now.checked.now wanted.duplicates [] file.old }
    requires home { file.old.number ≡ wanted.number }
    ensures written { OnOk result (IsAllShortenedIn shortening.now.checked.now wanted.duplicates
        wanted.number file.new) }
    ensures memory { IfErr result (λ fault. fault ≡ Memory) }
    ensures whole { S.is_whole search.old → OnOk result (S.is_whole search.new) }
{
    let mut reading = Rereading::new(alloc, shortening.checked)?;
    while let Some(id) = reading.next_theorem(shortening.checked)? {
        if reading.statement.first.file == wanted.number {
            write_theorem(
                alloc,
                shortening,
                wanted.duplicates,
                &reading.statement,
                id,
                search,
                file,
            )?;
        }
        watch.told(reading.so_far(shortening.checked, file.saved()));
    }
    Ok(())
}

/// One of its files, nothing of which was taken yet, to be written with small proofs.
pub(crate) fn begun_file<'a>(alloc: Global, checked: &Checked<'a>, number: usize) -> NewFile<'a>
    requires { number < length checked.now.files }
    ensures begun { IsWrittenSoFar checked.now.files [] result }
    ensures number { result.number ≡ number }
    ensures form { result.form ≡ Small }
{
    let files = checked.files;
    new_file(alloc, files, number, Form::Small)
}

/// The bytes of the file with a number, with each proof replaced that a search makes shorter.
pub(crate) fn shorter_file<'a, S: Search, W: Watch>(
    alloc: Global,
    shortening: &Shortening<'_, 'a>,
    wanted: Wanted,
    search: &mut S,
    watch: &mut W,
) -> Result<Vec<u8>, AskFault>
    requires known { KnowsDatabase shortening.now }
    requires handed { wanted.number < length shortening.now.checked.now.files }
    ensures shortened { IfOk result (λ new. (statements : List PlainStatement)
        → Reads shortening.now.checked.now.files statements None
        → IsAllShortened shortening.now.checked.now.profile wanted.duplicates
        shortening.now.checked.now.files statements wanted.number new.items) }
    ensures fits { IfOk result (λ new. FitsSaved shortening.now.checked.now.files wanted.number
        new.items) }
    ensures fault { IfErr result (λ fault. (statements : List PlainStatement)
        → Reads shortening.now.checked.now.files statements None
        → IsAllShorterFault shortening.now.checked.now.profile wanted.duplicates
        shortening.now.checked.now.files statements wanted.number fault) }
    ensures whole { S.is_whole search.old → OnOk result (S.is_whole search.new) }
{
    let mut file = begun_file(alloc, shortening.checked, wanted.number);
    match write_all(alloc, shortening, wanted, search, &mut file, watch) {
        Ok(()) => file.finish(),
        Err(fault) => {
            drop(file);
            Err(fault)
        }
    }
}
