//! A file with each complete proof written anew.

ghost use Rattle.std.specs.Prelude.{◌≡◌, ◌-◌, ◌<◌, ◌≤◌, ◌↔◌, [], List, ℕ, map, length};
ghost use Rattle.std.specs.Prelude.{OnOk, IfOk, IfErr, IsTrue, None, ◌⊎◌};
ghost use Rattle.mm_base.specs.declared.statement.Kind.TheVariants.{Provable};
ghost use Rattle.mm_base.specs.Statement.{PlainStatement, plain_statement, HasForm};
ghost use Rattle.mm_base.specs.MostBytes.{most_bytes};
ghost use Rattle.mm_text.specs.Files.{plain_file, total_bytes};
ghost use Rattle.mm_frame.specs.Sentence.{sentence_in, IsLabelled};
ghost use Rattle.mm_step.specs.declared.profile.Profile.TheVariants.{Lenient};
ghost use Rattle.mm_rules.specs.Verdict.{AreAccepted};
ghost use Rattle.mm_render.specs.Saved.{FitsSaved, within_span};
ghost use Rattle.mm_save.specs.AllSaved.{IsAllSaved, IsReplacement, IsSavingAllFault};
ghost use Rattle.mm_save.specs.Mirror.AllSaving.{IsTheoremAmong, IsTheoremFault, replacement};
ghost use Rattle.mm_save.specs.Mirror.AllSaving.{PutsAfter, PutsText};
ghost use Rattle.mm_save.specs.Mirror.AllSaving.{PutsProof, KeepsLabel, IsWrittenSoFar};
ghost use Rattle.mm_save.specs.Mirror.AllSaving.{IsWhole, IsFinishFault};

use mm_base::{File, Seed, Statement};
use mm_frame::{Book, LabelId};
use mm_proof::StepsReader;
use mm_render::{SaveFault, most_for, span_text};
use mm_rules::{AskFault, AskRule, CheckFault, Judged, Stop, Visitor};
use mm_step::Profile;
use mm_verdict::{Form, judge_files, read_theorem};
use std::alloc::{AllocError, Global};

/// A file that is written anew on the way through its database, up to a position in its bytes.
#[derive(Drop)]
pub struct NewFile<'a> {
    /// Its number among the handed files.
    number: usize,
    /// The form in which its proofs are written.
    form: Form,
    /// The bytes of the file as it is.
    pub source: &'a [u8],
    /// How many of them were taken.
    taken: usize,
    /// What stands in their place. Nothing is appended past the size limit.
    bytes: Vec<u8>,
    /// How many bytes there may be.
    most: usize,
    /// The label of the first theorem whose normal proof is too long, if there is one. No proof is
    /// put from there on.
    too_long: Option<&'a [u8]>,
    /// From where memory comes.
    alloc: Global,
    /// What reads the proofs that are written, in lists that are used again.
    reader: StepsReader<'a>,
}

/// Puts bytes after others, unless those are more than `most` already.
fn append(most: usize, bytes: &mut Vec<u8>, part: &[u8]) -> Result<(), AllocError>
    ensures { OnOk result (PutsAfter most part.now bytes.old.items bytes.new.items) }
{
    if bytes.len() <= most {
        bytes.extend_from_slice(part)?;
    }
    Ok(())
}

// No bytes, with room for those of a file, and for an eighth more, where there is memory for it. Room
// that is wanting is made when it is needed.
fn room_for(alloc: Global, source: &[u8]) -> Vec<u8>
    ensures { result.items ≡ [] }
{
    let mut bytes = Vec::new(alloc);
    let _ = bytes.reserve(source.len().saturating_add(source.len() / 8));
    bytes
}

/// The file with a number, nothing of which was taken yet.
pub fn new_file<'a>(alloc: Global, files: &'a [File<'a>], number: usize, form: Form) -> NewFile<'a>
    requires { number < length files.now }
    ensures begun { total_bytes (map plain_file files.now) ≤ most_bytes
        → IsWrittenSoFar (map plain_file files.now) [] result }
    ensures number { result.number ≡ number }
    ensures form { result.form ≡ form }
{
    let source = files[number].bytes;
    NewFile {
        number,
        form,
        source,
        taken: 0,
        bytes: room_for(alloc, source),
        most: most_for(files, number),
        too_long: None,
        alloc,
        reader: StepsReader::new(alloc),
    }
}

/// The label of a `$p`.
pub fn label_of<'a>(statement: &Statement<'a>) -> &'a [u8]
    requires formed { HasForm (plain_statement statement.now) }
    requires provable { statement.now.kind ≡ Provable }
    ensures { IsLabelled result.now (sentence_in statement.now) }
{
    match &statement.label {
        Some(label) => label.text,
        // Each `$p` has a label.
        None => unreachable!(),
    }
}

/// What is put in place of the old bytes of a theorem's proof in a form.
fn text_of<'a>(
    reader: &mut StepsReader<'a>,
    alloc: Global,
    form: Form,
    book: &Book<'a>,
    id: LabelId,
    statement: &Statement<'a>,
    old: &[u8],
) -> Result<Vec<u8>, AskFault>
    requires theorem { IsTheoremAmong book.now.statements id.0 (plain_statement statement.now) }
    requires formed { HasForm (plain_statement statement.now) }
    ensures text { IfOk result (λ text. (bytes : List ℕ)
        (theorem : IsTheoremAmong book.now.statements id.0 (plain_statement statement.now))
        → old.now ≡ within_span bytes (plain_statement statement.now).span
        → IsReplacement form bytes theorem.statements (plain_statement statement.now)
        (replacement (plain_statement statement.now) text.items)) }
    ensures fault { IfErr result (IsTheoremFault form book.now.statements id.0
        (plain_statement statement.now)) }
{
    let theorem = read_theorem(reader, alloc, Profile::Lenient, book, id, statement)?;
    span_text(alloc, book, &theorem, form, old)
}

impl<'a> NewFile<'a> {
    /// Whether the proof of a theorem is to be put.
    fn wants(&self, statement: &Statement) -> bool
        ensures { IsTrue result ↔ ((self.now.too_long ≡ None)
            × ((plain_statement statement.now).first.file ≡ self.now.number)) }
    {
        self.too_long.is_none() && statement.first.file == self.number
    }

    /// Takes the bytes up to a span, and puts a text in place of the span.
    pub fn put(&mut self, span: (u32, u32), text: &[u8]) -> Result<(), AllocError>
        requires after { self.old.taken ≤ span.0 }
        requires order { span.0 ≤ span.1 }
        requires within { span.1 ≤ length self.old.source.now }
        ensures { OnOk result (PutsText self.old span text.now self.new) }
    {
        let kept = &self.source[self.taken..span.0 as usize];
        append(self.most, &mut self.bytes, kept)?;
        append(self.most, &mut self.bytes, text)?;
        self.taken = span.1 as usize;
        Ok(())
    }

    /// How many bytes what was put has less than what was taken.
    pub fn saved(&self) -> usize
        ensures { result ≡ self.now.taken - length self.now.bytes.items }
    {
        self.taken.saturating_sub(self.bytes.len())
    }

    /// Puts the proof of a theorem of a book in place of the one that it has; or keeps the
    /// theorem's label, where its normal proof is too long.
    fn write(
        &mut self,
        book: &Book<'a>,
        id: LabelId,
        statement: &Statement<'a>,
    ) -> Result<(), AllocError>
        requires theorem { IsTheoremAmong book.now.statements id.0
            (plain_statement statement.now) }
        requires formed { HasForm (plain_statement statement.now) }
        requires after { self.old.taken ≤ statement.now.span.0 }
        requires order { statement.now.span.0 ≤ statement.now.span.1 }
        requires within { statement.now.span.1 ≤ length self.old.source.now }
        ensures { OnOk result (PutsProof book.now.statements id.0 self.old
            (plain_statement statement.now) self.new ⊎ KeepsLabel book.now.statements id.0 self.old
            (plain_statement statement.now) self.new) }
    {
        let old = &self.source[statement.span.0 as usize..statement.span.1 as usize];
        match text_of(
            &mut self.reader,
            self.alloc,
            self.form,
            book,
            id,
            statement,
            old,
        ) {
            Ok(text) => self.put(statement.span, &text),
            Err(AskFault::Rule(AskRule::L2)) => {
                self.too_long = Some(label_of(statement));
                Ok(())
            }
            Err(AskFault::Memory) => Err(AllocError),
            // The theorem's proof is complete and accepted.
            Err(_) => unreachable!(),
        }
    }

    /// The whole file, once all statements were judged: what wasn't taken is kept.
    pub fn finish(self) -> Result<Vec<u8>, AskFault>
        requires { self.taken ≤ length self.source.now }
        ensures whole { IfOk result (λ new. IsWhole self.entry new.items) }
        ensures fits { IfOk result (λ new. length new.items ≤ self.entry.most) }
        ensures fault { IfErr result (IsFinishFault self.entry) }
    {
        let mut bytes = self.bytes;
        append(self.most, &mut bytes, &self.source[self.taken..])?;
        if bytes.len() > self.most {
            return Err(AskFault::F3);
        }
        Ok(bytes)
    }
}

// It writes each theorem of the file as soon as that is judged.
impl<'a> Visitor<'a> for NewFile<'a> {
    ghost use Rattle.mm_save.specs.Mirror.AllSaving.{HasWritten};

    ghost has_seen = { HasWritten };

    ghost may_stop = { Unit {0} };

    fn see(
        &mut self,
        book: &Book<'a>,
        statement: &Statement<'a>,
        judged: Judged<'a>,
    ) -> Result<(), Stop<'a>> {
        match judged {
            Judged::Theorem(id) if self.wants(statement) => Ok(self.write(book, id, statement)?),
            Judged::Faulty(refusal) => Err(Stop::Refused(refusal)),
            _ => Ok(()),
        }
    }
}

/// The bytes of the handed file with a number, with each complete proof written anew in a form, as
/// `saved` writes that of one theorem. All other bytes are kept, incomplete proofs among them. The
/// files are read once, and each proof is written as soon as it is judged.
///
/// # Errors
///
/// `Check`, with what `check` answers, where it doesn't accept the files, and with `Memory` where a
/// growth was refused before all statements were judged. Else, with `Form::Normal`, `TooLong` with
/// the label of the first theorem of the file, in database order, whose normal proof has over
/// 16,777,216 labels; else `Ask(F3)` where the files would have over 1,073,741,824 bytes in all.
/// `Ask(Memory)` where a growth was refused at the end.
pub fn saved_all<'a>(
    alloc: Global,
    seed: Seed,
    files: &'a [File<'a>],
    number: usize,
    form: Form,
) -> Result<Vec<u8>, SaveFault<'a>>
    requires { number < length files.now }
    ensures saved { IfOk result (λ new. (statements : List PlainStatement)
        × AreAccepted Lenient (map plain_file files.now) statements
        × IsAllSaved form (map plain_file files.now) statements number new.items
        × FitsSaved (map plain_file files.now) number new.items) }
    ensures fault { IfErr result (IsSavingAllFault form (map plain_file files.now) number) }
{
    let mut file = new_file(alloc, files, number, form);
    match judge_files(alloc, seed, Profile::Lenient, files, &mut file) {
        Ok(progress) => drop(progress),
        Err(fault) => {
            drop(file);
            return Err(SaveFault::Check(fault));
        }
    }
    match file.too_long {
        Some(label) => Err(SaveFault::TooLong { label }),
        None => Ok(file.finish()?),
    }
}
