//! The lines of `mm show --uses`: the steps that each step of a proof uses.

ghost use Rattle.std.specs.Prelude.{◌≡◌, ◌≤◌, ◌++◌, List, take, length, replicate, true, false};
ghost use Rattle.std.specs.Prelude.{OnOk, IfOk, slice_index_or};
ghost use Rattle.mm_step.specs.Profiles.{limit_of};
ghost use Rattle.mm_step.specs.Proof.{IsWithin};
ghost use Rattle.mm_step.specs.Steps.{AreSteps};
ghost use Rattle.mm_listing.specs.Listing.{ListedStep, TellsStep, TellSteps};
ghost use Rattle.mm_listing.specs.Uses.{rows_of};
ghost use Rattle.mm_proof.specs.CheckedPrefix.{Pass};
ghost use Rattle.mm_proof.specs.Verified.{OfMoves};
ghost use Rattle.mm_render.specs.ShownUses.{more_uses_text, used_step_text, used_steps_text};
ghost use Rattle.mm_render.specs.ShownUses.{uses_text as text_of_uses, TellsUses};

use crate::listing_lines::push_name;
use mm_frame::{Book, LabelId};
use mm_listing::{Line, partial_lines_before, uses_before};
use mm_proof::Steps;
use mm_rules::{push_decimal, push_symbols};
use std::alloc::{AllocError, Global};

/// Appends a comma and the number, for each of these steps.
fn push_more(out: &mut Vec<u8>, steps: &[usize]) -> Result<(), AllocError>
    ensures { OnOk result (out.new.items ≡ out.old.items ++ more_uses_text steps.now) }
{
    for step in steps {
        out.push(b',')?;
        push_decimal(out, *step)?;
    }
    Ok(())
}

/// Appends the numbers of the steps that a step uses.
fn push_uses(out: &mut Vec<u8>, used: &[usize]) -> Result<(), AllocError>
    ensures { OnOk result (out.new.items ≡ out.old.items ++ text_of_uses used.now) }
{
    let Some((first, more)) = used.split_first() else {
        out.push(b'-')?;
        return Ok(());
    };
    push_decimal(out, *first)?;
    push_more(out, more)
}

/// Appends the line of the step with a number, which uses these.
fn push_used(
    out: &mut Vec<u8>,
    book: &Book,
    number: usize,
    line: &Line,
    used: &[usize],
) -> Result<(), AllocError>
    requires { (step : ListedStep) × TellsStep book.now.statements line.now step }
    ensures { OnOk result ((step : ListedStep) → TellsStep book.now.statements line.now step
        → out.new.items ≡ out.old.items ++ used_step_text number step used.now) }
{
    push_decimal(out, number)?;
    out.push(b' ')?;
    push_uses(out, used)?;
    out.push(b' ')?;
    push_name(out, book, line.name)?;
    push_symbols(out, book, &line.expression)?;
    out.push(b'\n')?;
    Ok(())
}

/// The text of those of these lines that are reported.
fn text_of(
    alloc: Global,
    book: &Book,
    lines: &[Line],
    uses: &[Vec<usize>],
    told: &[bool],
) -> Result<Vec<u8>, AllocError>
    requires lines { (steps : List ListedStep) × TellSteps book.now.statements
        (λ index. slice_index_or told.now index false) lines.now steps }
    requires uses { length uses.now ≡ length lines.now }
    requires told { length told.now ≡ length lines.now }
    ensures { IfOk result (λ text. (steps : List ListedStep) → TellSteps book.now.statements
        (λ index. slice_index_or told.now index false) lines.now steps
        → text.items ≡ used_steps_text 1 steps (rows_of uses.now) told.now) }
{
    let mut out = Vec::new(alloc);
    for at in 0..lines.len() {
        if told[at] {
            push_used(&mut out, book, at + 1, &lines[at], &uses[at])?;
        }
    }
    Ok(out)
}

/// All of so many steps are reported.
#[tactic(auto, using(crate::proofs::ToldProofs::ShownUses::one_more_flag))]
fn all_told(alloc: Global, count: usize) -> Result<Vec<bool>, AllocError>
    ensures { IfOk result (λ told. told.items ≡ replicate count true) }
{
    let mut told = Vec::new(alloc);
    for _ in 0..count {
        told.push(true)?;
    }
    Ok(told)
}

/// The text of all steps among so many first moves.
fn whole_text(
    alloc: Global,
    book: &Book,
    id: LabelId,
    steps: &Steps,
    passed: usize,
) -> Result<Vec<u8>, AllocError>
    requires steps { AreSteps book.now.statements id.0 steps.now.moves }
    requires within { passed ≤ length steps.now.moves }
    requires pass { OfMoves book.now.statements id.0 steps.now.moves
        (λ index s moves. Pass (IsWithin (limit_of steps.now.profile))
        (take index book.now.statements) (take passed moves)) }
    ensures { IfOk result (λ text. OfMoves book.now.statements id.0 steps.now.moves
        (λ index s moves. TellsUses false (take index book.now.statements) (take passed moves)
        text.items)) }
{
    let used = uses_before(alloc, book, id, steps, passed, false)?;
    let told = all_told(alloc, used.uses.len())?;
    text_of(alloc, book, &used.lines, &used.uses, &told)
}

/// The text of those steps among so many first moves that are reached through `$e`. It asks for their
/// expressions alone, once it is known which they are: those of the others may take far more memory
/// than the text.
fn essential_text(
    alloc: Global,
    book: &Book,
    id: LabelId,
    steps: &Steps,
    passed: usize,
) -> Result<Vec<u8>, AllocError>
    requires steps { AreSteps book.now.statements id.0 steps.now.moves }
    requires within { passed ≤ length steps.now.moves }
    requires pass { OfMoves book.now.statements id.0 steps.now.moves
        (λ index s moves. Pass (IsWithin (limit_of steps.now.profile))
        (take index book.now.statements) (take passed moves)) }
    ensures { IfOk result (λ text. OfMoves book.now.statements id.0 steps.now.moves
        (λ index s moves. TellsUses true (take index book.now.statements) (take passed moves)
        text.items)) }
{
    let used = uses_before(alloc, book, id, steps, passed, true)?;
    let told = used.reached(alloc)?;
    let lines = partial_lines_before(alloc, book, id, steps, passed, &told)?;
    text_of(alloc, book, &lines, &used.uses, &told)
}

/// The text that tells what the steps among so many first moves of the `$p` with this number use,
/// which pass: a line for each, with its number, the numbers of the steps that gave it its mandatory
/// hypotheses, its name, and its expression. If `essential`, only the steps that are reached through
/// `$e` from those that made what is left, and only what they use so.
///
/// # Errors
///
/// Where a growth was refused.
pub fn uses_text(
    alloc: Global,
    book: &Book,
    id: LabelId,
    steps: &Steps,
    passed: usize,
    essential: bool,
) -> Result<Vec<u8>, AllocError>
    requires steps { AreSteps book.now.statements id.0 steps.now.moves }
    requires within { passed ≤ length steps.now.moves }
    requires pass { OfMoves book.now.statements id.0 steps.now.moves
        (λ index s moves. Pass (IsWithin (limit_of steps.now.profile))
        (take index book.now.statements) (take passed moves)) }
    ensures { IfOk result (λ text. OfMoves book.now.statements id.0 steps.now.moves
        (λ index s moves. TellsUses essential (take index book.now.statements) (take passed moves)
        text.items)) }
{
    if essential {
        essential_text(alloc, book, id, steps, passed)
    } else {
        whole_text(alloc, book, id, steps, passed)
    }
}
