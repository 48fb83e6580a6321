//! The labels of a proof: P2 and P3 (the Metamath book, section 4.3 and appendix B).

ghost use Rattle.std.specs.Prelude.{◌≡◌, OnOk, IfErr};
ghost use Rattle.mm_frame.specs.Sentence.{Sentence};
ghost use Rattle.mm_frame.specs.Numbers.{IsNumbered};
ghost use Rattle.mm_proof.specs.Answer.{OnRule};
ghost use Rattle.mm_step.specs.Plain.{ids_in, token_texts};
ghost use Rattle.mm_proof.specs.Mirror.CodeSteps.{IsUseOf, AreFor, BreaksLabels};

use mm_base::Token;
use mm_frame::{Book, Found, Frame, Guesses, LabelId};
use mm_step::{ProofFault, ProofRule};

/// What a label of a proof stands for.
#[derive(Clone, Copy)]
pub enum Use {
    /// No statement before the proof's own has it.
    Unknown,
    /// A hypothesis that isn't active has it.
    Idle,
    /// The number of an active hypothesis, or of an assertion.
    Number(LabelId),
}

// What the label stands for in the proof of the `$p` with a number.
pub fn use_of(book: &Book, guesses: &mut Guesses, own: &Frame, id: LabelId, label: &[u8]) -> Use
    requires book { own.now.statements ≡ book.now.statements }
    requires own { (s : Sentence) × IsNumbered book.now.statements id.0 own.now.index s }
    ensures { IsUseOf book.now.statements own.now.index label.now result }
{
    match book.find_guessed(guesses, label) {
        Found::Assertion(found) if found.0 < id.0 => Use::Number(found),
        Found::Hypothesis { id: found, .. } if found.0 < id.0 => {
            if own.active(found) {
                Use::Number(found)
            } else {
                Use::Idle
            }
        }
        _ => Use::Unknown,
    }
}

/// Fills the list with the numbers of the labels, which are those of a proof: P2 where one is that
/// of no statement before the proof's own, or else P3 where one is that of a hypothesis that isn't
/// active.
pub(crate) fn fill_numbers(
    ids: &mut Vec<LabelId>,
    book: &Book,
    guesses: &mut Guesses,
    own: &Frame,
    id: LabelId,
    labels: &[Token],
) -> Result<(), ProofFault>
    requires book { own.now.statements ≡ book.now.statements }
    requires own { (s : Sentence) × IsNumbered book.now.statements id.0 own.now.index s }
    ensures ok { OnOk result (AreFor book.now.statements own.now.index
        (ids_in ids.new.items) (token_texts labels.now)) }
    ensures fault { IfErr result (λ e. OnRule e (λ rule step. (step ≡ 0)
        × BreaksLabels rule book.now.statements own.now.index (token_texts labels.now))) }
{
    ids.clear();
    let mut idle = false;
    for label in labels {
        match use_of(book, guesses, own, id, label.text) {
            Use::Number(number) => ids.push(number)?,
            Use::Idle => idle = true,
            Use::Unknown => {
                return Err(ProofFault::Rule {
                    rule: ProofRule::P2,
                    step: 0,
                });
            }
        }
    }
    if idle {
        return Err(ProofFault::Rule {
            rule: ProofRule::P3,
            step: 0,
        });
    }
    Ok(())
}
