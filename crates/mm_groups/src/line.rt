//! The line that says what faulty proofs share.

ghost use Rattle.std.specs.Prelude.{◌≡◌, ◌++◌, if◌then◌else◌, codes, List, IfOk, OnOk, map};
ghost use Rattle.std.specs.List.{AllZip, list_any};
ghost use Rattle.mm_code.specs.Layout.{texts};
ghost use Rattle.mm_text.specs.Files.{plain_file};
ghost use Rattle.mm_rules.specs.Answer.{plain_refusal};
ghost use Rattle.mm_rules.specs.Verdict.{CanBeRead};
ghost use Rattle.mm_groups.specs.Shared.{AreLabelsAt, IsSharedLine, Labels, TellsNamed};
ghost use Rattle.mm_groups.specs.Shared.{hypothesis_line, named_line, is_of_label};
ghost use Rattle.mm_groups.specs.Mirror.Kept.{HasShared};

use crate::rarest::rarest;
use crate::shared::Shared;
use mm_base::{File, Seed};
use mm_rules::{Refusal, push_decimal};
use std::alloc::{AllocError, Global};

/// Of how many proofs at least it is told what they share.
const FEWEST_OF_GROUP: usize = 3;

/// Appends the line of a hypothesis that so many proofs share.
fn push_hypothesis(out: &mut Vec<u8>, count: usize, label: &[u8]) -> Result<(), AllocError>
    ensures { OnOk result (out.new.items ≡ out.old.items ++ hypothesis_line count label.now) }
{
    out.extend_from_slice(b"all ")?;
    push_decimal(out, count)?;
    out.extend_from_slice(b" faulty proofs have the hypothesis ")?;
    out.extend_from_slice(label)?;
    out.push(b'\n')?;
    Ok(())
}

/// What stands behind a label that is named: whether it is that of one of the theorems.
fn own_words(own: bool) -> &'static [u8]
    ensures { result.now ≡ if own then codes " or prove it\n" else codes "\n" }
{
    if own { b" or prove it\n" } else { b"\n" }
}

/// Appends the line of a label that so many proofs name, or prove.
fn push_named(out: &mut Vec<u8>, count: usize, label: &[u8], own: bool) -> Result<(), AllocError>
    ensures { OnOk result (out.new.items ≡ out.old.items ++ named_line count label.now own) }
{
    out.extend_from_slice(b"all ")?;
    push_decimal(out, count)?;
    out.extend_from_slice(b" faulty proofs name ")?;
    out.extend_from_slice(label)?;
    out.extend_from_slice(own_words(own))?;
    Ok(())
}

/// Whether the refusal is of the theorem with this label.
fn is_of(refusal: &Refusal, label: &[u8]) -> bool
    ensures { result ≡ is_of_label label.now (plain_refusal refusal.now) }
{
    match refusal.label {
        Some(own) => own == label,
        None => false,
    }
}

/// Whether one of the refusals is.
#[tactic(auto, using(mm_base::proofs::Lists::any_found))]
fn is_of_some(refusals: &[Refusal], label: &[u8]) -> bool
    ensures { result ≡ list_any (is_of_label label.now) (map plain_refusal refusals.now) }
{
    for refusal in refusals {
        if is_of(refusal, label) {
            return true;
        }
    }
    false
}

/// The line of a label that the proofs name; empty, where that says little.
fn told_named<'a>(
    alloc: Global,
    seed: Seed,
    files: &'a [File<'a>],
    names: &[&'a [u8]],
    refusals: &[Refusal<'a>],
) -> Result<Vec<u8>, AllocError>
    requires { CanBeRead (map plain_file files.now) }
    ensures { IfOk result (λ line. TellsNamed (map plain_file files.now)
        (map plain_refusal refusals.now) (texts names.now) line.items) }
{
    let count = refusals.len();
    let mut line = Vec::new(alloc);
    match rarest(alloc, seed, files, names, 2 * count)? {
        Some(label) => {
            push_named(&mut line, count, label, is_of_some(refusals, label))?;
            Ok(line)
        }
        None => Ok(line),
    }
}

/// The line that says what the proofs share that are refused; empty, where it isn't told. Note was
/// taken of each of them.
pub fn shared_line<'a>(
    alloc: Global,
    seed: Seed,
    files: &'a [File<'a>],
    shared: &Shared<'a>,
    refusals: &[Refusal<'a>],
) -> Result<Vec<u8>, AllocError>
    requires readable { CanBeRead (map plain_file files.now) }
    ensures { IfOk result (λ line. (each : List Labels)
        → AllZip (AreLabelsAt (map plain_file files.now)) (map plain_refusal refusals.now) each
        → HasShared each shared.now
        → IsSharedLine (map plain_file files.now) (map plain_refusal refusals.now) line.items) }
{
    let count = refusals.len();
    let mut line = Vec::new(alloc);
    if count < FEWEST_OF_GROUP {
        return Ok(line);
    }
    match shared.hypotheses.last() {
        Some(label) => {
            push_hypothesis(&mut line, count, label)?;
            Ok(line)
        }
        None => told_named(alloc, seed, files, &shared.names, refusals),
    }
}
