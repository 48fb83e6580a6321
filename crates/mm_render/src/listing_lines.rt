//! The lines of `mm show`: the listing of a proof.

ghost use Rattle.std.specs.Prelude.{◌≡◌, ◌++◌, List, take, length, OnOk, IfOk};
ghost use Rattle.std.specs.Prelude.{IfErr};
ghost use Rattle.std.specs.List.{AllZip, AllByRecursion};
ghost use Rattle.mm_proof.specs.Verified.{OfMoves};
ghost use Rattle.mm_listing.specs.Listing.{StepName, ListedStep, IsNameOf, TellsStep, AreLinesOf};
ghost use Rattle.mm_rules.specs.declared.ask.AskFault.TheVariants.{Memory};
ghost use Rattle.mm_render.specs.Shown.{name_text, step_text};
ghost use Rattle.mm_render.specs.Shown.{listing_text as text_of_listing};
ghost use Rattle.mm_verdict.specs.Mirror.Theorems.{IsWholeProof};
ghost use Rattle.mm_render.specs.Mirror.Theorems.{IsListingOf};

use mm_frame::Book;
use mm_listing::{Line, Name, listing};
use mm_rules::{AskFault, push_decimal, push_symbols};
use mm_step::ProofFault;
use mm_verdict::Theorem;
use std::alloc::{AllocError, Global};

/// Appends what a step is called.
pub(crate) fn push_name(out: &mut Vec<u8>, book: &Book, name: Name) -> Result<(), AllocError>
    ensures { OnOk result ((called : StepName) → IsNameOf book.now.statements name called
        → out.new.items ≡ out.old.items ++ name_text called) }
{
    match name {
        Name::Label(id) => out.extend_from_slice(book.label(id)),
        Name::Step(number) => {
            out.push(b'@')?;
            push_decimal(out, number as usize)
        }
    }
}

/// Appends the line of the step with a number.
fn push_line(out: &mut Vec<u8>, book: &Book, number: usize, line: &Line) -> Result<(), AllocError>
    requires { (step : ListedStep) × TellsStep book.now.statements line.now step }
    ensures { OnOk result ((step : ListedStep) → TellsStep book.now.statements line.now step
        → out.new.items ≡ out.old.items ++ step_text number step) }
{
    push_decimal(out, number)?;
    out.push(b' ')?;
    push_name(out, book, line.name)?;
    push_symbols(out, book, &line.expression)?;
    out.push(b'\n')?;
    Ok(())
}

/// The text of these lines.
pub fn text_of(alloc: Global, book: &Book, lines: &[Line]) -> Result<Vec<u8>, AllocError>
    requires { (steps : List ListedStep)
        × AllZip (TellsStep book.now.statements) lines.now steps }
    ensures { IfOk result (λ text. (steps : List ListedStep)
        → AllZip (TellsStep book.now.statements) lines.now steps
        → text.items ≡ text_of_listing steps) }
{
    let mut out = Vec::new(alloc);
    for at in 0..lines.len() {
        push_line(&mut out, book, at + 1, &lines[at])?;
    }
    Ok(out)
}

/// The lines of the listing of a theorem's proof.
pub fn lines_of(alloc: Global, book: &Book, theorem: &Theorem) -> Result<Vec<Line>, AskFault>
    requires { IsWholeProof book.now.statements theorem.now.id.0 theorem.now.steps }
    ensures listed { IfOk result (λ lines.
        OfMoves book.now.statements theorem.now.id.0 theorem.now.steps.moves
        (λ index s moves. AreLinesOf book.now.statements (take index book.now.statements) moves
        lines.items)) }
    ensures memory { IfErr result (λ fault. fault ≡ Memory) }
{
    match listing(alloc, book, theorem.id, &theorem.steps) {
        Ok(lines) => Ok(lines),
        Err(ProofFault::Memory) => Err(AskFault::Memory),
        // `check` accepted the proof under this profile.
        Err(ProofFault::Rule { .. }) => unreachable!(),
    }
}

/// The text of the listing of a theorem's proof.
pub fn listing_text(alloc: Global, book: &Book, theorem: &Theorem) -> Result<Vec<u8>, AskFault>
    requires { IsWholeProof book.now.statements theorem.now.id.0 theorem.now.steps }
    ensures text { IfOk result (λ text.
        OfMoves book.now.statements theorem.now.id.0 theorem.now.steps.moves
        (λ index s moves. IsListingOf (take index book.now.statements) moves text.items)) }
    ensures memory { IfErr result (λ fault. fault ≡ Memory) }
{
    let lines = lines_of(alloc, book, theorem)?;
    Ok(text_of(alloc, book, &lines)?)
}
