//! The `axioms` and `users` questions of an accepted database.

ghost use Rattle.mm_rules.specs.Answer.{IsKeptOf};
ghost use Rattle.mm_axioms.specs.Mirror.Tables.{AreTables, IsOfKind, IsReportAt};
ghost use Rattle.mm_rules.specs.Rests.{AreInOrder, IsNumberWhere, RestsOn};
ghost use Rattle.mm_rules.specs.Mirror.Marks.{IsAxiomNumber, UsedIn};
ghost use Rattle.mm_rules.specs.Rests.{IsNamed, IsAskFault, IsReport};
ghost use Rattle.mm_axioms.specs.Users.{IsAssertionFault, AreUsers};
ghost use Rattle.mm_axioms.specs.Chains.{AreEnds, IsChain, IsChainFault};
ghost use Rattle.mm_axioms.specs.Essential.{IsEssentialReport};
ghost use Rattle.mm_frame.specs.Numbers.{labelled_sentences};
ghost use Rattle.mm_rules.specs.declared.ask.AskFault.TheVariants.{Memory};
ghost use Rattle.mm_frame.specs.Form.{IsSound};
ghost use Rattle.mm_frame.specs.Sentence.{IsAssertion};
ghost use Rattle.mm_text.specs.Reading.{Reads};
ghost use Rattle.mm_base.specs.Statement.{PlainStatement};
ghost use Rattle.mm_base.specs.declared.statement.Kind.TheVariants.{Provable};
ghost use Rattle.std.specs.List.{AllByRecursion};
ghost use Rattle.std.specs.Prelude.{map};
ghost use Rattle.std.specs.Prelude.{true, false, Some, None, IfOk, IfErr, IfSome, ℕ, Contains};
ghost use Rattle.std.specs.Prelude.{◌≡◌, ◌<◌, List, map, length, slice_get};

use crate::bits::index_of;
use crate::chains::{ChainFault, chain_between};
use crate::essential::of_type;
use crate::report::{
    Report, Tables, axioms_among, axioms_in, marked_among, reach, report_in, tables_of,
    theorems_of, unproved_in,
};
use crate::users::{all_users_among, users_among};
use mm_frame::{Found, LabelId};
use mm_rules::{AskFault, AskRule};
use mm_verdict::Checked;
use std::alloc::{AllocError, Global};

/// What the `$p` with this label depends on.
///
/// It depends on the assertions in the tree that its proof spells and, with each `$p` among them
/// whose proof is complete, on those that this one depends on. Axioms of syntax are axioms too.
///
/// # Errors
///
/// `A1` where no statement has the label, `A2` where it isn't that of a `$p`, `A3` where the
/// proof is incomplete; `Memory` where a growth was refused.
pub fn axioms(alloc: Global, checked: &Checked, label: &[u8]) -> Result<Report, AskFault>
    // The lists are those of the statements of the files: the `$a`, and the incomplete `$p`,
    // among what the theorem depends on.
    ensures report { IfOk result (λ report. (statements : List PlainStatement)
        → Reads checked.now.files statements None → IsReport statements label.now
        (map (λ id. id.0) report.axioms.items) (map (λ id. id.0) report.unproved.items)) }
    ensures fault { IfErr result (λ fault. (statements : List PlainStatement)
        → Reads checked.now.files statements None → IsAskFault statements label.now fault) }
    // Each number is that of a label.
    ensures in_range { IfOk result (λ report.
        AllByRecursion (λ n. n < length checked.now.labels) (map (λ id. id.0) report.axioms.items)
        × AllByRecursion (λ n. n < length checked.now.labels)
        (map (λ id. id.0) report.unproved.items)) }
{
    let kept = &checked.kept;
    let theorem = checked.theorem(label)?;
    let marks = reach(alloc, kept, theorem)?;
    let axioms = axioms_among(alloc, &checked.book, &marks, theorem)?;
    let unproved = marked_among(alloc, &checked.incomplete, &marks)?;
    Ok(Report { axioms, unproved })
}

/// What the `$p` with this label rests on, as `axioms` lists it, but of the axioms those alone that
/// have the type code of the `$p`: the first symbol of its statement. The unproved `$p` are listed
/// whatever theirs.
///
/// # Errors
///
/// As for `axioms`.
pub fn essential_axioms(alloc: Global, checked: &Checked, label: &[u8]) -> Result<Report, AskFault>
    ensures report { IfOk result (λ report. (statements : List PlainStatement)
        → Reads checked.now.files statements None → IsEssentialReport statements label.now
        (map (λ id. id.0) report.axioms.items) (map (λ id. id.0) report.unproved.items)) }
    ensures fault { IfErr result (λ fault. (statements : List PlainStatement)
        → Reads checked.now.files statements None → IsAskFault statements label.now fault) }
    // Each number is that of a label.
    ensures in_range { IfOk result (λ report.
        AllByRecursion (λ n. n < length checked.now.labels) (map (λ id. id.0) report.axioms.items)
        × AllByRecursion (λ n. n < length checked.now.labels)
        (map (λ id. id.0) report.unproved.items)) }
{
    let book = &checked.book;
    let theorem = checked.theorem(label)?;
    let report = axioms(alloc, checked, label)?;
    let Report {
        axioms: all_axioms,
        unproved,
    } = report;
    let axioms = of_type(alloc, book, theorem, &all_axioms)?;
    Ok(Report { axioms, unproved })
}

/// The number of the `$a` or `$p` that has this label.
fn assertion(checked: &Checked, label: &[u8]) -> Result<LabelId, AskFault>
    ensures found { IfOk result (λ id. (statements : List PlainStatement)
        → IsKeptOf statements checked.now
        → IsNamed statements label.now (λ s. IsAssertion s.kind) id.0) }
    ensures fault { IfErr result (λ fault. (statements : List PlainStatement)
        → IsKeptOf statements checked.now → IsAssertionFault statements label.now fault) }
    ensures sound { IsSound checked.now.sentences }
{
    let broken = match checked.book.find(label) {
        Found::Assertion(id) => return Ok(id),
        Found::Hypothesis { .. } => AskRule::A2,
        Found::None => AskRule::A1,
    };
    Err(AskFault::Rule(broken))
}

/// The `$p` with complete proofs that use the assertion with this label, in database order.
///
/// # Errors
///
/// `A1` where no statement has the label, `A2` where it is that of a hypothesis; `Memory` where
/// a growth was refused.
pub fn direct_users(
    alloc: Global,
    checked: &Checked,
    label: &[u8],
) -> Result<Vec<LabelId>, AskFault>
    ensures users { IfOk result (λ users. (statements : List PlainStatement)
        → Reads checked.now.files statements None
        → AreUsers false statements label.now (map (λ id. id.0) users.items)) }
    ensures fault { IfErr result (λ fault. (statements : List PlainStatement)
        → Reads checked.now.files statements None → IsAssertionFault statements label.now fault) }
    // Each number is that of a label.
    ensures in_range { IfOk result (λ users.
        AllByRecursion (λ n. n < length checked.now.labels) (map (λ id. id.0) users.items)) }
{
    let kept = &checked.kept;
    let assertion = assertion(checked, label)?;
    Ok(users_among(alloc, kept, assertion)?)
}

/// The `$p` with complete proofs that depend on the assertion with this label, in database order:
/// their proofs use it, or a theorem that depends on it.
///
/// # Errors
///
/// As for `users`.
pub fn all_users(alloc: Global, checked: &Checked, label: &[u8]) -> Result<Vec<LabelId>, AskFault>
    ensures users { IfOk result (λ users. (statements : List PlainStatement)
        → Reads checked.now.files statements None
        → AreUsers true statements label.now (map (λ id. id.0) users.items)) }
    ensures fault { IfErr result (λ fault. (statements : List PlainStatement)
        → Reads checked.now.files statements None → IsAssertionFault statements label.now fault) }
    // Each number is that of a label.
    ensures in_range { IfOk result (λ users.
        AllByRecursion (λ n. n < length checked.now.labels) (map (λ id. id.0) users.items)) }
{
    let kept = &checked.kept;
    let assertion = assertion(checked, label)?;
    Ok(all_users_among(alloc, kept, assertion)?)
}

/// The numbers between which a chain is asked for.
#[derive(Clone, Copy)]
struct Ends {
    theorem: LabelId,
    assertion: LabelId,
}

/// The `$p` with one label, and the assertion with the other.
fn ends_of(checked: &Checked, label: &[u8], other: &[u8]) -> Result<Ends, ChainFault>
    ensures within { IfOk result (λ ends.
        ends.theorem.0 < length (labelled_sentences checked.now.sentences)) }
    ensures ends { IfOk result (λ ends. (statements : List PlainStatement)
        → IsKeptOf statements checked.now
        → AreEnds statements label.now other.now ends.theorem.0 ends.assertion.0) }
    ensures fault { IfErr result (λ fault. (statements : List PlainStatement)
        → IsKeptOf statements checked.now → IsChainFault statements label.now other.now fault) }
    ensures sound { IfOk result (λ ends. IsSound checked.now.sentences) }
{
    match checked.theorem(label) {
        Ok(theorem) => match assertion(checked, other) {
            Ok(assertion) => Ok(Ends { theorem, assertion }),
            Err(AskFault::Memory) => Err(ChainFault::Memory),
            Err(fault) => Err(ChainFault::Assertion(fault)),
        },
        Err(AskFault::Memory) => Err(ChainFault::Memory),
        Err(fault) => Err(ChainFault::Theorem(fault)),
    }
}

/// Why the `$p` with one label depends on the assertion with the other: a chain in which each uses
/// the next, from the one to the other. No chain is shorter; of those as short it is the one whose
/// assertions come first in the database, compared from the theorem on. The chain from a `$p` to
/// itself has it alone.
///
/// # Errors
///
/// `Theorem` and `Assertion` with what can't be asked of the label, as for `axioms` and
/// `direct_users`; `Independent` where no chain leads there; `Memory` where a growth was refused.
pub fn chain(
    alloc: Global,
    checked: &Checked,
    label: &[u8],
    other: &[u8],
) -> Result<Vec<LabelId>, ChainFault>
    ensures chain { IfOk result (λ chain. (statements : List PlainStatement)
        → Reads checked.now.files statements None
        → IsChain statements label.now other.now (map (λ id. id.0) chain.items)) }
    ensures fault { IfErr result (λ fault. (statements : List PlainStatement)
        → Reads checked.now.files statements None
        → IsChainFault statements label.now other.now fault) }
    // Each number is that of a label.
    ensures in_range { IfOk result (λ chain.
        AllByRecursion (λ n. n < length checked.now.labels) (map (λ id. id.0) chain.items)) }
{
    let kept = &checked.kept;
    let ends = ends_of(checked, label, other)?;
    match chain_between(alloc, kept, ends.theorem, ends.assertion)? {
        Some(chain) => Ok(chain),
        None => Err(ChainFault::Independent),
    }
}

/// The tables of what all theorems depend on.
pub fn tables(alloc: Global, checked: &Checked) -> Result<Tables, AllocError>
    ensures { IfOk result (λ tables. AreTables checked.now.sentences checked.now.incomplete
        checked.now.uses tables) }
{
    tables_of(alloc, &checked.book, &checked.kept, &checked.incomplete)
}

/// The `$p`, in database order.
pub(crate) fn theorems_in(alloc: Global, checked: &Checked) -> Result<Vec<LabelId>, AllocError>
    ensures kinds { IfOk result (λ ids.
        AreInOrder (IsOfKind checked.now.sentences Provable) (map (λ l. l.0) ids.items)) }
    ensures told { IfOk result (λ ids. (statements : List PlainStatement)
        → Reads checked.now.files statements None
        → AreInOrder (IsNumberWhere statements (λ s. s.kind ≡ Provable))
        (map (λ l. l.0) ids.items)) }
    ensures in_range { IfOk result (λ ids.
        AllByRecursion (λ n. n < length checked.now.labels) (map (λ l. l.0) ids.items)) }
{
    theorems_of(alloc, &checked.book)
}

/// What a theorem depends on, as the tables tell it; nothing where its proof is incomplete.
pub(crate) fn report_at(
    alloc: Global,
    checked: &Checked,
    tables: &Tables,
    theorem: LabelId,
) -> Result<Option<Report>, AllocError>
    requires tables { AreTables checked.now.sentences checked.now.incomplete checked.now.uses
        tables.now }
    requires theorem { IsOfKind checked.now.sentences Provable theorem.0 }
    ensures report { IfOk result (λ told. (statements : List PlainStatement)
        → Reads checked.now.files statements None → (label : List ℕ)
        → slice_get checked.now.labels theorem.0 ≡ Some label
        → IsReportAt statements label theorem.0 told) }
    ensures in_range { IfOk result (λ told. IfSome told (λ report.
        AllByRecursion (λ n. n < length checked.now.labels) (map (λ id. id.0) report.axioms.items)
        × AllByRecursion (λ n. n < length checked.now.labels)
        (map (λ id. id.0) report.unproved.items))) }
{
    match index_of(&checked.incomplete, theorem) {
        Some(_) => Ok(None),
        None => {
            let report = report_in(alloc, tables, &checked.incomplete, theorem)?;
            Ok(Some(report))
        }
    }
}

/// The axioms that a theorem depends on, as the tables tell them, in database order.
pub fn axioms_at(
    alloc: Global,
    checked: &Checked,
    tables: &Tables,
    theorem: LabelId,
) -> Result<Vec<LabelId>, AllocError>
    requires { AreTables checked.now.sentences checked.now.incomplete checked.now.uses
        tables.now }
    ensures { IfOk result (λ ids. AreInOrder (λ n. IsAxiomNumber checked.now.sentences n
        × RestsOn (UsedIn checked.now.uses) theorem.0 n) (map (λ l. l.0) ids.items)) }
{
    axioms_in(alloc, tables, theorem)
}

/// The theorems with incomplete proofs that a theorem depends on, as the tables tell them, in
/// database order.
pub fn unproved_at(
    alloc: Global,
    checked: &Checked,
    tables: &Tables,
    theorem: LabelId,
) -> Result<Vec<LabelId>, AllocError>
    requires { AreTables checked.now.sentences checked.now.incomplete checked.now.uses
        tables.now }
    ensures { IfOk result (λ ids. AreInOrder (λ n. Contains checked.now.incomplete n
        × RestsOn (UsedIn checked.now.uses) theorem.0 n) (map (λ l. l.0) ids.items)) }
{
    unproved_in(alloc, tables, &checked.incomplete, theorem)
}
