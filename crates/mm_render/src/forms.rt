//! The normal, the packed and the small proof of a theorem, as texts.

ghost use Rattle.std.specs.Prelude.{◌≡◌, ◌⊎◌, ◌<◌, ◌≤◌, List, ℕ, length, take, IfOk, IfErr};
ghost use Rattle.std.specs.Prelude.{◌∷◌};
ghost use Rattle.std.specs.List.{flat_map};
ghost use Rattle.mm_code.specs.Layout.{texts};
ghost use Rattle.mm_code.specs.SmallLayout.{most_indent};
ghost use Rattle.mm_step.specs.Tree.{spelling};
ghost use Rattle.mm_forms.specs.Spelled.{AreLabelsOf, OfSpelling};
ghost use Rattle.mm_forms.specs.Packing.{OfTree};
ghost use Rattle.mm_forms.specs.Sharing.{HasSteps};
ghost use Rattle.mm_proof.specs.Verified.{OfMoves};
ghost use Rattle.mm_rules.specs.declared.ask.AskFault.TheVariants.{Rule, Memory};
ghost use Rattle.mm_rules.specs.declared.rule.AskRule.TheVariants.{L2};
ghost use Rattle.mm_render.specs.Forms.{most_labels, IsNormalText, IsPackedText, IsSmallText};
ghost use Rattle.mm_render.specs.Forms.{HasSmallProof, IsSmallBehind};
ghost use Rattle.mm_render.specs.Saved.{IsSpanText, IsShorter, spaces, indent_of};
ghost use Rattle.mm_render.specs.Saved.{without_return, has_long_ends, long_end, with_ends_of};
ghost use Rattle.mm_verdict.specs.Mirror.Theorems.{IsWholeProof};
ghost use Rattle.mm_render.specs.Mirror.Shortening.{IsOwnProof};
ghost use Rattle.mm_render.specs.Mirror.Rewriting.{IsSpanTextOf, IsTextFault};

use mm_code::{MOST_INDENT, lay_out_compressed, lay_out_normal, lay_out_small, write_codes};
use mm_forms::{compress, compress_small, expand};
use mm_frame::{Book, LabelId};
use mm_rules::AskFault;
use mm_verdict::{Form, Theorem};
use std::alloc::{AllocError, Global};

// The most labels of a normal proof that is written.
pub(crate) const MOST_LABELS: usize = 16_777_216;

/// The labels with these numbers.
pub(crate) fn names_of<'a>(
    alloc: Global,
    book: &Book<'a>,
    ids: &[LabelId],
) -> Result<Vec<&'a [u8]>, AllocError>
    ensures { IfOk result (λ names. (labels : List (List ℕ))
        → AreLabelsOf book.now.statements ids.now labels → texts names.items ≡ labels) }
{
    let mut names = Vec::with_capacity(alloc, ids.len())?;
    for id in ids {
        names.push(book.label(*id))?;
    }
    Ok(names)
}

/// The labels that the proof of a theorem spells.
fn labels_of(alloc: Global, book: &Book, theorem: &Theorem) -> Result<Vec<LabelId>, AskFault>
    requires { IsWholeProof book.now.statements theorem.now.id.0 theorem.now.steps }
    ensures spelled { IfOk result (λ labels.
        OfMoves book.now.statements theorem.now.id.0 theorem.now.steps.moves
        (λ index s moves. OfSpelling (take index book.now.statements) moves (λ spelled.
        AreLabelsOf book.now.statements labels.items spelled
        × (length spelled ≤ most_labels)))) }
    ensures fault { IfErr result (λ fault. (fault ≡ Memory) ⊎ ((fault ≡ Rule L2)
        × OfMoves book.now.statements theorem.now.id.0 theorem.now.steps.moves
        (λ index s moves. OfSpelling (take index book.now.statements) moves (λ spelled.
        most_labels < length spelled)))) }
{
    Ok(expand(alloc, book, theorem.id, &theorem.steps, MOST_LABELS)?)
}

/// The text of the normal proof of a theorem.
pub(crate) fn normal_text(
    alloc: Global,
    book: &Book,
    theorem: &Theorem,
) -> Result<Vec<u8>, AskFault>
    requires { IsWholeProof book.now.statements theorem.now.id.0 theorem.now.steps }
    ensures text { IfOk result (λ text.
        OfMoves book.now.statements theorem.now.id.0 theorem.now.steps.moves
        (λ index s moves. OfTree (take index book.now.statements) moves
        (λ trees. IsNormalText trees text.items))) }
    ensures fault { IfErr result (λ fault. (fault ≡ Memory) ⊎ ((fault ≡ Rule L2)
        × OfMoves book.now.statements theorem.now.id.0 theorem.now.steps.moves
        (λ index s moves. OfTree (take index book.now.statements) moves
        (λ trees. most_labels < length (spelling trees))))) }
{
    let labels = labels_of(alloc, book, theorem)?;
    let names = names_of(alloc, book, &labels)?;
    Ok(lay_out_normal(alloc, &names)?)
}

/// The text of the packed proof of a theorem.
pub(crate) fn packed_text(
    alloc: Global,
    book: &Book,
    theorem: &Theorem,
) -> Result<Vec<u8>, AskFault>
    requires { IsWholeProof book.now.statements theorem.now.id.0 theorem.now.steps }
    ensures text { IfOk result (λ text.
        OfMoves book.now.statements theorem.now.id.0 theorem.now.steps.moves
        (λ index s moves. OfTree (take index book.now.statements) moves
        (λ trees. IsPackedText (take index book.now.statements) s trees text.items))) }
    ensures memory { IfErr result (λ fault. fault ≡ Memory) }
{
    let packed = compress(alloc, book, theorem.id, &theorem.steps)?;
    let names = names_of(alloc, book, &packed.labels)?;
    let letters = write_codes(alloc, &packed.codes)?;
    Ok(lay_out_compressed(alloc, &names, &letters)?)
}

/// The small proof of a theorem, before it is laid out.
#[derive(Drop)]
struct SmallProof<'a> {
    /// The labels that it lists.
    names: Vec<&'a [u8]>,
    /// The letters that spell its codes.
    letters: Vec<u8>,
    /// How many steps the fully shared proof of the same tree has.
    steps: usize,
}

/// The small proof of a theorem.
fn small_proof<'a>(
    alloc: Global,
    book: &Book<'a>,
    theorem: &Theorem,
) -> Result<SmallProof<'a>, AllocError>
    requires { IsWholeProof book.now.statements theorem.now.id.0 theorem.now.steps }
    ensures proof { IfOk result (λ proof.
        OfMoves book.now.statements theorem.now.id.0 theorem.now.steps.moves
        (λ index s moves. OfTree (take index book.now.statements) moves
        (λ trees. HasSmallProof (take index book.now.statements) s trees
        (λ listed letters. (texts proof.names.items ≡ listed)
        × (proof.letters.items ≡ letters))))) }
    ensures steps { IfOk result (λ proof.
        OfMoves book.now.statements theorem.now.id.0 theorem.now.steps.moves
        (λ index s moves. OfTree (take index book.now.statements) moves
        (λ trees. HasSteps (take index book.now.statements) s trees proof.steps))) }
{
    let small = compress_small(alloc, book, theorem.id, &theorem.steps)?;
    let names = names_of(alloc, book, &small.packed.labels)?;
    let letters = write_codes(alloc, &small.packed.codes)?;
    Ok(SmallProof {
        names,
        letters,
        steps: small.steps,
    })
}

/// The small proof of a theorem, and its size.
#[derive(Drop)]
pub struct OwnProof {
    /// Its text, in the lines of packed proofs.
    pub text: Vec<u8>,
    /// How many letters it has.
    pub letters: usize,
    /// How many steps the fully shared proof of the same tree has.
    pub steps: usize,
}

/// The small proof of a theorem, and its size.
pub fn own_proof(alloc: Global, book: &Book, theorem: &Theorem) -> Result<OwnProof, AllocError>
    requires { IsWholeProof book.now.statements theorem.now.id.0 theorem.now.steps }
    ensures { IfOk result (IsOwnProof book.now.statements theorem.now.id.0
        theorem.now.steps.moves) }
{
    let small = small_proof(alloc, book, theorem)?;
    let text = lay_out_compressed(alloc, &small.names, &small.letters)?;
    Ok(OwnProof {
        text,
        letters: small.letters.len(),
        steps: small.steps,
    })
}

/// The text of the small proof of a theorem, in the lines of packed proofs.
pub(crate) fn small_text(alloc: Global, book: &Book, theorem: &Theorem) -> Result<Vec<u8>, AskFault>
    requires { IsWholeProof book.now.statements theorem.now.id.0 theorem.now.steps }
    ensures text { IfOk result (λ text.
        OfMoves book.now.statements theorem.now.id.0 theorem.now.steps.moves
        (λ index s moves. OfTree (take index book.now.statements) moves
        (λ trees. IsSmallText (take index book.now.statements) s trees text.items))) }
    ensures memory { IfErr result (λ fault. fault ≡ Memory) }
{
    let small = small_proof(alloc, book, theorem)?;
    Ok(lay_out_compressed(alloc, &small.names, &small.letters)?)
}

/// How many spaces bytes begin with.
fn spaces_before(bytes: &[u8]) -> usize
    ensures { result ≡ spaces bytes.now }
{
    for at in 0..bytes.len() {
        if bytes[at] != b' ' {
            return at;
        }
    }
    bytes.len()
}

// The indent of a proof that doesn't stand on lines of its own.
const USUAL_INDENT: usize = 4;

/// Bytes without a carriage return that they begin with.
fn without_return(bytes: &[u8]) -> &[u8]
    ensures { result.now ≡ without_return bytes.now }
{
    if bytes.is_empty() || bytes[0] != b'\r' {
        return bytes;
    }
    &bytes[1..]
}

/// The indent of a proof that stands in a file as these bytes: where they begin with a line end, the
/// spaces right behind it, but no more than a line may begin with. A line end is a line feed, behind
/// a carriage return or alone.
fn indent_in(old: &[u8]) -> usize
    ensures { result ≡ indent_of old.now }
{
    let first = without_return(old);
    if first.is_empty() || first[0] != b'\n' {
        return USUAL_INDENT;
    }
    spaces_before(&first[1..]).min(MOST_INDENT)
}

/// Whether the first line that ends in these bytes ends with a carriage return and a line feed.
fn has_long_ends(bytes: &[u8]) -> bool
    ensures { result ≡ has_long_ends bytes.now }
{
    let mut before = 0;
    for byte in bytes {
        if *byte == b'\n' {
            return before == b'\r';
        }
        before = *byte;
    }
    false
}

/// A text with a carriage return before each line feed.
fn with_long_ends(alloc: Global, text: &[u8]) -> Result<Vec<u8>, AllocError>
    ensures { IfOk result (λ put. put.items ≡ flat_map long_end text.now) }
{
    let mut put = Vec::with_capacity(alloc, text.len())?;
    for byte in text {
        if *byte == b'\n' {
            put.push(b'\r')?;
        }
        put.push(*byte)?;
    }
    Ok(put)
}

/// A text with the line ends of the old bytes of a proof: a carriage return stands before each line
/// feed, if one stands before the first of the old bytes.
fn with_ends_of(alloc: Global, old: &[u8], text: Vec<u8>) -> Result<Vec<u8>, AllocError>
    ensures { IfOk result (λ put. put.items ≡ with_ends_of old.now text.items) }
{
    if has_long_ends(old) {
        return with_long_ends(alloc, &text);
    }
    Ok(text)
}

/// The text of the small proof of a theorem in the lines that files have, behind so many spaces.
fn small_behind(
    alloc: Global,
    book: &Book,
    theorem: &Theorem,
    indent: usize,
) -> Result<Vec<u8>, AllocError>
    requires indent { indent ≤ most_indent }
    requires theorem { IsWholeProof book.now.statements theorem.now.id.0 theorem.now.steps }
    ensures { IfOk result (λ text.
        OfMoves book.now.statements theorem.now.id.0 theorem.now.steps.moves
        (λ index s moves. OfTree (take index book.now.statements) moves
        (λ trees. IsSmallBehind indent (take index book.now.statements) s trees text.items))) }
{
    let small = small_proof(alloc, book, theorem)?;
    lay_out_small(alloc, indent, &small.names, &small.letters)
}

/// The new bytes, where they are fewer than the old ones; else the old ones.
fn shorter(alloc: Global, old: &[u8], new: Vec<u8>) -> Result<Vec<u8>, AllocError>
    ensures { IfOk result (λ put. IsShorter old.now new.items put.items) }
{
    if new.len() < old.len() {
        Ok(new)
    } else {
        Vec::from_slice(alloc, old)
    }
}

/// A text behind a line feed.
fn behind_line_feed(alloc: Global, text: &[u8]) -> Result<Vec<u8>, AllocError>
    ensures { IfOk result (λ put. put.items ≡ 10 ∷ text.now) }
{
    let mut put = Vec::with_capacity(alloc, text.len().saturating_add(1))?;
    put.push(b'\n')?;
    put.extend_from_slice(text)?;
    Ok(put)
}

/// A text behind a line feed, with the line ends of the old bytes of a proof.
fn behind_line_end(alloc: Global, old: &[u8], text: &[u8]) -> Result<Vec<u8>, AllocError>
    ensures { IfOk result (λ put. put.items ≡ with_ends_of old.now (10 ∷ text.now)) }
{
    let put = behind_line_feed(alloc, text)?;
    with_ends_of(alloc, old, put)
}

/// What is put in place of the bytes of a theorem's proof in a form.
pub fn span_text(
    alloc: Global,
    book: &Book,
    theorem: &Theorem,
    form: Form,
    old: &[u8],
) -> Result<Vec<u8>, AskFault>
    requires { IsWholeProof book.now.statements theorem.now.id.0 theorem.now.steps }
    ensures put { IfOk result (λ put. IsSpanTextOf form book.now.statements theorem.now.id.0
        theorem.now.steps.moves old.now put.items) }
    ensures fault { IfErr result (IsTextFault form book.now.statements theorem.now.id.0
        theorem.now.steps.moves) }
{
    match form {
        Form::Normal => {
            let text = normal_text(alloc, book, theorem)?;
            Ok(behind_line_end(alloc, old, &text)?)
        }
        Form::Packed => {
            let text = packed_text(alloc, book, theorem)?;
            Ok(behind_line_end(alloc, old, &text)?)
        }
        Form::Small => {
            let text = small_behind(alloc, book, theorem, indent_in(old))?;
            let ended = with_ends_of(alloc, old, text)?;
            Ok(shorter(alloc, old, ended)?)
        }
    }
}
