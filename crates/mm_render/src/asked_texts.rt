//! The texts of statements and proofs of a database in which nothing is at fault.

ghost use Rattle.mm_render.specs.Compared.{IsCompared};
ghost use Rattle.mm_rules.specs.Compared.{IsSameFault};
ghost use Rattle.mm_render.specs.Forms.{IsNormalOf, IsNormalFault, IsPackedOf, IsSmallOf};
ghost use Rattle.mm_render.specs.Mirror.Rewriting.{IsSpanTextOf};
ghost use Rattle.mm_render.specs.Mirror.Shortening.{IsOwnProof};
ghost use Rattle.mm_verdict.specs.Mirror.Theorems.{IsWholeProof};
ghost use Rattle.mm_rules.specs.Rests.{IsAskFault};
ghost use Rattle.mm_render.specs.Saved.{IsSaved, FitsSaved, IsSaveFault};
ghost use Rattle.mm_render.specs.Shown.{ShowsProof};
ghost use Rattle.mm_render.specs.ShownUses.{ShowsUses};
ghost use Rattle.mm_verdict.specs.Stated.{TellsStatement};
ghost use Rattle.mm_rules.specs.declared.ask.AskFault.TheVariants.{Memory};
ghost use Rattle.mm_verdict.specs.declared.form.Form.TheVariants.{Small};
ghost use Rattle.mm_text.specs.Reading.{Reads};
ghost use Rattle.mm_base.specs.Statement.{PlainStatement, plain_statement};
ghost use Rattle.mm_text.specs.Files.{plain_file};
ghost use Rattle.mm_frame.specs.Numbers.{IsNumbered, labelled_sentences};
ghost use Rattle.mm_frame.specs.Sentence.{sentence_of, IsLabelled};
ghost use Rattle.mm_rules.specs.Verdict.{sentences};
ghost use Rattle.std.specs.Prelude.{None, IfOk, IfErr};
ghost use Rattle.std.specs.Prelude.{◌≡◌, ◌<◌, ◌∷◌, ◌++◌, [], ℕ, List, map, length};

use crate::comparison::is_same;
use crate::forms::{OwnProof, normal_text, own_proof, packed_text, small_text, span_text};
use crate::listing_lines::listing_text;
use crate::rewrite::{bytes_of, put_in};
use crate::statement_lines::push_told;
use crate::uses_lines::uses_text;
use mm_base::{File, Statement};
use mm_frame::{Book, LabelId};
use mm_rules::{AskFault, place_of, push_place};
use mm_verdict::{Checked, Form, Theorem};
use std::alloc::{AllocError, Global};

/// What is told of the labelled statement with this number, which a book has last: a line with the
/// place of its first token; of an assertion, a line for each mandatory hypothesis and each
/// mandatory pair, and of a `$p` one for each `$d` that says more; and a line of the statement
/// itself.
pub fn statement_text(
    alloc: Global,
    files: &[File],
    book: &Book,
    id: LabelId,
    statement: &Statement,
) -> Result<Vec<u8>, AllocError>
    requires { id.0 < length (labelled_sentences book.now.statements) }
    ensures { IfOk result (λ text. (before : List PlainStatement) (label : List ℕ)
        → book.now.statements ≡ sentences (before ++ plain_statement statement.now ∷ [])
        → IsNumbered book.now.statements id.0 (length before)
        (sentence_of (plain_statement statement.now))
        → IsLabelled label (sentence_of (plain_statement statement.now))
        → TellsStatement (map plain_file files.now) (before ++ plain_statement statement.now ∷ [])
        label text.items) }
{
    let at = statement.first.at as usize;
    let mut out = Vec::new(alloc);
    push_place(&mut out, files, place_of(files, statement.first.file, at))?;
    out.push(b'\n')?;
    push_told(&mut out, alloc, book, id)?;
    Ok(out)
}

/// The listing of the proof of the `$p` with this label, a line for each step in order: its
/// number, its name, and the symbols of the expression that it puts on the stack, with one
/// space between each two. The name is the label of the hypothesis or of the assertion; for a
/// step by a tag it is `@` and the number of the step that the tag stands after.
///
/// # Errors
///
/// As for `axioms`.
pub fn proof_listing(alloc: Global, checked: &Checked, label: &[u8]) -> Result<Vec<u8>, AskFault>
    // The text is that of the listing of its proof, among the statements of the files.
    ensures shown { IfOk result (λ text. (statements : List PlainStatement)
        → Reads checked.now.files statements None
        → ShowsProof statements label.now text.items) }
    ensures fault { IfErr result (λ fault. (statements : List PlainStatement)
        → Reads checked.now.files statements None → IsAskFault statements label.now fault) }
{
    let theorem = checked.read_theorem(alloc, label)?;
    listing_text(alloc, &checked.book, &theorem)
}

/// What each step of the proof of the `$p` with this label uses, as text, in lines: the number
/// of a step, the numbers of the steps that gave it its mandatory hypotheses, its name, and its
/// expression. If `essential`, only the steps that are reached from the last one through `$e`,
/// and only what they use so.
///
/// # Errors
///
/// As for `axioms`.
pub fn uses_listing(
    alloc: Global,
    checked: &Checked,
    label: &[u8],
    essential: bool,
) -> Result<Vec<u8>, AskFault>
    ensures shown { IfOk result (λ text. (statements : List PlainStatement)
        → Reads checked.now.files statements None
        → ShowsUses essential statements label.now text.items) }
    ensures fault { IfErr result (λ fault. (statements : List PlainStatement)
        → Reads checked.now.files statements None → IsAskFault statements label.now fault) }
{
    let theorem = checked.read_theorem(alloc, label)?;
    let steps = &theorem.steps;
    Ok(uses_text(
        alloc,
        &checked.book,
        theorem.id,
        steps,
        steps.codes.len(),
        essential,
    )?)
}

/// The normal proof of the `$p` with this label, laid out in lines: the labels that its proof's
/// tree spells.
///
/// # Errors
///
/// As for `axioms`; and `L2` where there are over 16,777,216 labels.
pub fn normal_form(alloc: Global, checked: &Checked, label: &[u8]) -> Result<Vec<u8>, AskFault>
    ensures text { IfOk result (λ text. (statements : List PlainStatement)
        → Reads checked.now.files statements None
        → IsNormalOf statements label.now text.items) }
    ensures fault { IfErr result (λ fault. (statements : List PlainStatement)
        → Reads checked.now.files statements None → IsNormalFault statements label.now fault) }
{
    let theorem = checked.read_theorem(alloc, label)?;
    normal_text(alloc, &checked.book, &theorem)
}

/// The packed proof of the `$p` with this label, laid out in lines: the one fully shared proof
/// of its proof's tree.
///
/// # Errors
///
/// As for `axioms`.
pub fn packed_form(alloc: Global, checked: &Checked, label: &[u8]) -> Result<Vec<u8>, AskFault>
    ensures text { IfOk result (λ text. (statements : List PlainStatement)
        → Reads checked.now.files statements None
        → IsPackedOf statements label.now text.items) }
    ensures fault { IfErr result (λ fault. (statements : List PlainStatement)
        → Reads checked.now.files statements None → IsAskFault statements label.now fault) }
{
    let theorem = checked.read_theorem(alloc, label)?;
    packed_text(alloc, &checked.book, &theorem)
}

/// The small proof of the `$p` with this label, laid out in lines as a packed one: the one
/// compressed proof of its proof's tree whose labels are listed by use.
///
/// # Errors
///
/// As for `axioms`.
pub fn small_form(alloc: Global, checked: &Checked, label: &[u8]) -> Result<Vec<u8>, AskFault>
    ensures text { IfOk result (λ text. (statements : List PlainStatement)
        → Reads checked.now.files statements None
        → IsSmallOf statements label.now text.items) }
    ensures fault { IfErr result (λ fault. (statements : List PlainStatement)
        → Reads checked.now.files statements None → IsAskFault statements label.now fault) }
{
    let theorem = checked.read_theorem(alloc, label)?;
    small_text(alloc, &checked.book, &theorem)
}

/// Whether a text, as a proof of the `$p` with this label, is the same proof as its own:
/// whether both make the same tree. It is judged under the profile that the database obeys.
///
/// The text is cut into tokens by white space, and has no comments.
///
/// # Errors
///
/// As for `axioms`, before anything is said of the text; then `Text` with the first rule that
/// the text breaks, and its step: `F3` where it has over 1,073,741,824 bytes, `X1` where a
/// token holds a byte that none may hold, `X9` where one holds a `$`, `A3` where one holds a
/// `?`, all of them at step 0; then the rules of a proof: `P1` to `P5`; `P15` where the profile
/// is strict and the text hasn't the form that it demands; `P6` to `P14` and `L1`.
pub fn is_same_proof(
    alloc: Global,
    checked: &Checked,
    label: &[u8],
    text: &[u8],
) -> Result<bool, AskFault>
    ensures compared { IfOk result (λ same. (statements : List PlainStatement)
        → Reads checked.now.files statements None
        → IsCompared checked.now.profile statements label.now text.now same) }
    ensures fault { IfErr result (λ fault. (statements : List PlainStatement)
        → Reads checked.now.files statements None
        → IsSameFault checked.now.profile statements label.now text.now fault) }
{
    let theorem = checked.read_theorem(alloc, label)?;
    is_same(alloc, checked.profile, &checked.book, &theorem, text)
}

/// The number of the file in which the `$p` with this label stands, and the bytes of that file
/// with the proof written in a form.
pub fn saved_file(
    alloc: Global,
    checked: &Checked,
    label: &[u8],
    form: Form,
) -> Result<(usize, Vec<u8>), AskFault>
    ensures saved { IfOk result (λ new. (statements : List PlainStatement)
        → Reads checked.now.files statements None
        → IsSaved form checked.now.files statements label.now new.0 new.1.items) }
    ensures fits { IfOk result (λ new. FitsSaved checked.now.files new.0 new.1.items) }
    ensures fault { IfErr result (λ fault. (statements : List PlainStatement)
        → Reads checked.now.files statements None
        → IsSaveFault form checked.now.files statements label.now fault) }
{
    let theorem = checked.read_theorem(alloc, label)?;
    let old = bytes_of(checked.files, theorem.file, theorem.span);
    let put = span_text(alloc, &checked.book, &theorem, form, old)?;
    let bytes = put_in(alloc, checked.files, theorem.file, theorem.span, &put)?;
    Ok((theorem.file, bytes))
}

/// The small proof of a theorem, and its size.
pub fn own_small_proof(
    alloc: Global,
    checked: &Checked,
    theorem: &Theorem,
) -> Result<OwnProof, AllocError>
    requires { IsWholeProof checked.now.sentences theorem.now.id.0 theorem.now.steps }
    ensures { IfOk result (IsOwnProof checked.now.sentences theorem.now.id.0
        theorem.now.steps.moves) }
{
    own_proof(alloc, &checked.book, theorem)
}

/// What is put in place of the old bytes of a theorem's proof in small form.
pub fn small_span_text(
    alloc: Global,
    checked: &Checked,
    theorem: &Theorem,
    old: &[u8],
) -> Result<Vec<u8>, AskFault>
    requires { IsWholeProof checked.now.sentences theorem.now.id.0 theorem.now.steps }
    ensures put { IfOk result (λ put. IsSpanTextOf Small checked.now.sentences theorem.now.id.0
        theorem.now.steps.moves old.now put.items) }
    ensures memory { IfErr result (λ fault. fault ≡ Memory) }
{
    span_text(alloc, &checked.book, theorem, Form::Small, old)
}
