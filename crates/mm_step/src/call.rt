//! What a label of a proof stands for, and the step by it.

ghost use Rattle.std.specs.Prelude.{◌≡◌, ℕ, List, take, Err, OnOk};
ghost use Rattle.mm_step.specs.Mirror.CodeVerify.{AreStackEntries};
ghost use Rattle.mm_step.specs.Mirror.CodeRun.{CarriesOn, StopsAt};
ghost use Rattle.mm_step.specs.Mirror.CodeApply.{IsCallOf, MayBeCalled};

use crate::apply::apply;
use crate::fault::{ProofFault, ProofRule};
use crate::site::Site;
use crate::store::Store;
use mm_frame::{Book, LabelId, LabelKind, Signature, Sym};

/// What a label of a proof stands for.
#[derive(Clone, Copy)]
pub enum Call<'b> {
    /// A hypothesis, by its symbols.
    Hypothesis(&'b [Sym]),
    /// An assertion.
    Assertion(Signature<'b>),
}

/// What the label with a number stands for, where it may be used.
pub fn call_of<'b>(book: &'b Book<'_>, id: LabelId) -> Call<'b>
    ensures { (index : ℕ) → MayBeCalled book.now.statements index id.0 result }
{
    if !book.is_label(id) {
        return Call::Hypothesis(&[]);
    }
    match book.kind(id) {
        LabelKind::Floating | LabelKind::Essential => Call::Hypothesis(book.expression(id)),
        _ => Call::Assertion(book.frame(id).signature()),
    }
}

/// The step by what a label stands for: the symbols of a hypothesis are put on the stack, and an
/// assertion is applied; or the first of P8 to P12 and L1 that it breaks.
#[inline(always)]
pub fn step_by<S: Store>(
    store: &mut S,
    site: &Site,
    call: &Call,
    number: usize,
) -> Result<(), ProofFault>
    requires call { (id : ℕ) × IsCallOf site.now.statements site.now.index id call.now }
    requires entries { AreStackEntries site.now.statements (take site.now.index site.now.statements)
        (S.stack store.old) }
    ensures carried { OnOk result
        ((id : ℕ) → IsCallOf site.now.statements site.now.index id call.now
        → CarriesOn site.now.limit site.now.statements site.now.index id (S.stack store.old)
        (S.stack store.new)) }
    ensures entries { OnOk result
        (AreStackEntries site.now.statements (take site.now.index site.now.statements)
        (S.stack store.new)) }
    ensures kept { S.kept store.new ≡ S.kept store.old }
    ensures fault { (rule : ProofRule) → (at : ℕ) → result ≡ Err (ProofFault.Rule rule at)
        → (at ≡ number)
        × ((id : ℕ) → IsCallOf site.now.statements site.now.index id call.now
        → StopsAt site.now.limit site.now.statements site.now.index id (S.stack store.old) rule) }
{
    match call {
        Call::Hypothesis(expression) => {
            if expression.len() > site.limit {
                return Err(ProofFault::Rule {
                    rule: ProofRule::L1,
                    step: number,
                });
            }
            store.push(expression)?;
            Ok(())
        }
        Call::Assertion(signature) => {
            apply(store, site.book, &site.own, signature, site.limit, number)
        }
    }
}
