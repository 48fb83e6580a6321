//! The users of an assertion by accepted proofs, whatever the other proofs.

ghost use Rattle.std.specs.Prelude.{◌≡◌, ◌<◌, ◌++◌, ◌∷◌, ◌⊎◌, [], List, ℕ, length, map};
ghost use Rattle.std.specs.Prelude.{IfOk, IfErr, IfNone, IfSome, OnOk};
ghost use Rattle.std.specs.List.{AllByRecursion};
ghost use Rattle.mm_base.specs.Statement.{PlainStatement};
ghost use Rattle.mm_text.specs.Files.{PlainFile, plain_file};
ghost use Rattle.mm_frame.specs.Form.{IsSound};
ghost use Rattle.mm_frame.specs.Numbers.{labelled_sentences};
ghost use Rattle.mm_frame.specs.Sentence.{IsAssertion};
ghost use Rattle.mm_rules.specs.Answer.{labels_at};
ghost use Rattle.mm_rules.specs.Conclusion.{labels_in};
ghost use Rattle.mm_rules.specs.Rests.{IsNamed};
ghost use Rattle.mm_rules.specs.Verdict.{sentences};
ghost use Rattle.mm_rules.specs.declared.ask.AskFault.TheVariants.{Memory};
ghost use Rattle.mm_verdict.specs.Reply.{lines_of};
ghost use Rattle.mm_axioms.specs.Accepted.{AreAcceptedUsers, AreMeant, ListsAcceptedUsers};
ghost use Rattle.mm_axioms.specs.Mirror.Accepted.{HasKept};
ghost use Rattle.mm_axioms.specs.Users.{IsAssertionFault};

use crate::accepted_uses::{AcceptedUses, accepted_uses};
use crate::users::{all_users_among, users_among};
use mm_base::{File, Seed};
use mm_frame::{Book, Found, LabelId};
use mm_rules::{AskFault, AskRule, CheckFault};
use std::alloc::{AllocError, Global};

/// The number of the `$a` or `$p` that has this label.
fn assertion_in(book: &Book, label: &[u8]) -> Result<LabelId, AskFault>
    ensures found { IfOk result (λ id. (statements : List PlainStatement)
        → book.now.statements ≡ sentences statements
        → IsNamed statements label.now (λ s. IsAssertion s.kind) id.0) }
    ensures fault { IfErr result (λ fault. (statements : List PlainStatement)
        → book.now.statements ≡ sentences statements
        → IsAssertionFault statements label.now fault) }
{
    let broken = match book.find(label) {
        Found::Assertion(id) => return Ok(id),
        Found::Hypothesis { .. } => AskRule::A2,
        Found::None => AskRule::A1,
    };
    Err(AskFault::Rule(broken))
}

/// The users of the assertion with this number, or all of them.
fn users_by(
    alloc: Global,
    uses: &AcceptedUses,
    assertion: LabelId,
    all: bool,
) -> Result<Vec<LabelId>, AllocError>
    requires { (files : List PlainFile)
        × HasKept files uses.now.book.statements uses.now.kept }
    ensures { IfOk result (λ users. (files : List PlainFile)
        (kept : HasKept files uses.now.book.statements uses.now.kept) (label : List ℕ)
        → IsNamed kept.statements label (λ s. IsAssertion s.kind) assertion.0
        → AreAcceptedUsers all kept.statements label (map (λ id. id.0) users.items)) }
{
    if all {
        all_users_among(alloc, &uses.kept, assertion)
    } else {
        users_among(alloc, &uses.kept, assertion)
    }
}

/// A line for the label with this number.
fn push_line(out: &mut Vec<u8>, book: &Book, number: LabelId) -> Result<(), AllocError>
    requires { number.0 < length (labels_in book.now.statements) }
    ensures { OnOk result (out.new.items ≡ out.old.items
        ++ lines_of (labels_at (labels_in book.now.statements) (number.0 ∷ []))) }
{
    out.extend_from_slice(book.label(number))?;
    out.push(b'\n')?;
    Ok(())
}

/// A line for the label of each of these numbers.
#[tactic(auto, using(mm_verdict::proofs::ReplyTexts::one_more_line))]
fn push_lines(out: &mut Vec<u8>, book: &Book, numbers: &[LabelId]) -> Result<(), AllocError>
    requires { AllByRecursion (λ n. n < length (labels_in book.now.statements))
        (map (λ id. id.0) numbers.now) }
    ensures { OnOk result (out.new.items ≡ out.old.items
        ++ lines_of (labels_at (labels_in book.now.statements) (map (λ id. id.0) numbers.now))) }
{
    for number in numbers {
        push_line(out, book, *number)?;
    }
    Ok(())
}

/// A line for each user of the assertion with a label, or for all of them.
fn users_text(
    alloc: Global,
    uses: &AcceptedUses,
    label: &[u8],
    all: bool,
) -> Result<Vec<u8>, AskFault>
    requires { (files : List PlainFile)
        × HasKept files uses.now.book.statements uses.now.kept }
    ensures text { IfOk result (λ text. (files : List PlainFile)
        (kept : HasKept files uses.now.book.statements uses.now.kept)
        → ListsAcceptedUsers all kept.statements label.now text.items) }
    ensures fault { IfErr result (λ fault. (files : List PlainFile)
        (kept : HasKept files uses.now.book.statements uses.now.kept)
        → IsAssertionFault kept.statements label.now fault) }
{
    let book = &uses.book;
    let assertion = assertion_in(book, label)?;
    let users = users_by(alloc, uses, assertion, all)?;
    let mut text = Vec::new(alloc);
    push_lines(&mut text, book, &users)?;
    Ok(text)
}

/// A line for each theorem whose accepted proof uses the assertion with this label, or for all that
/// depend on it by accepted proofs, in database order. It is answered where no rule of the text or
/// of meaning is broken, whatever the proofs: those that are at fault in the lenient profile, and
/// those that are incomplete, don't count. Else there is no answer.
///
/// # Errors
///
/// `A1` where no statement has the label, `A2` where it is that of a hypothesis; `Memory` where
/// a growth was refused.
pub fn accepted_users(
    alloc: Global,
    seed: Seed,
    files: &[File],
    label: &[u8],
    all: bool,
) -> Result<Option<Vec<u8>>, AskFault>
    ensures users { IfOk result (λ answer. IfSome answer (λ text.
        (statements : List PlainStatement) × AreMeant (map plain_file files.now) statements
        × ListsAcceptedUsers all statements label.now text.items)) }
    ensures none { IfOk result (λ answer. IfNone answer ((statements : List PlainStatement)
        → ¬ (AreMeant (map plain_file files.now) statements))) }
    ensures fault { IfErr result (λ fault. (fault ≡ Memory)
        ⊎ ((statements : List PlainStatement) × AreMeant (map plain_file files.now) statements
        × IsAssertionFault statements label.now fault)) }
{
    match accepted_uses(alloc, seed, files) {
        Ok(uses) => {
            let told = users_text(alloc, &uses, label, all);
            drop(uses);
            match told {
                Ok(text) => Ok(Some(text)),
                Err(fault) => Err(fault),
            }
        }
        Err(CheckFault::Memory) => Err(AskFault::Memory),
        Err(CheckFault::Load(_)) => Ok(None),
        Err(CheckFault::Refused(_)) => Ok(None),
    }
}
