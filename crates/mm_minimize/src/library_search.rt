//! A search for shorter proofs by what the database has before a theorem.

ghost use Rattle.std.specs.Prelude.{◌≡◌, ◌↔◌, ◌+◌, false, max, min, ⊤, IfOk, IsTrue, OnOk};
ghost use Rattle.mm_frame.specs.Numbers.{IsAssertionNumber};
ghost use Rattle.mm_step.specs.Steps.{AreSteps};
ghost use Rattle.mm_rules.specs.Conclusion.{numbers_of};
ghost use Rattle.mm_rules.specs.Rests.{AreRising};
ghost use Rattle.mm_verdict.specs.Mirror.Theorems.{AreProvedSteps};

use crate::remarks::Remark;
use crate::search::{OwnSize, Search};
use mm_frame::{Book, LabelId, LabelKind};
use mm_listing::{UsedSteps, uses_of};
use mm_proof::Steps;
use mm_rules::Kept;
use mm_shorten::{Entry, Library, Reach, Rests, Size, Theorem, has_few_symbols};
use mm_step::ProofFault;
use std::alloc::{AllocError, Global};

/// A search by the assertions before a theorem. It is asked for theorems in database order.
#[derive(Drop)]
pub(crate) struct LibrarySearch<'c> {
    library: Library,
    /// How many labelled statements were passed: those before this number.
    passed: u32,
    kept: &'c Kept,
    remarks: &'c [Remark],
    reach: Reach,
    /// How many theorems were left, as their proofs are too long to search.
    pub left: usize,
    /// The proofs stand in database order.
    ghost ordered: { AreRising (numbers_of kept.now) },
}

// No file has more mathboxes, as a rule.
const MATHBOXES: usize = 4096;

/// A number for the mathbox of a statement, 0 where it stands in none: mathboxes of different files
/// have different numbers, as a rule.
fn mathbox_number(remark: &Remark) -> u32 {
    if remark.mathbox == 0 {
        return 0;
    }
    let number = remark
        .file
        .saturating_mul(MATHBOXES)
        .saturating_add(remark.mathbox);
    number.min(u32::MAX as usize) as u32
}

/// Whether a number is that of an assertion.
fn is_assertion(book: &Book, id: LabelId) -> bool
    ensures { IsTrue result ↔ IsAssertionNumber book.now.statements id.0 }
{
    if !book.is_label(id) {
        return false;
    }
    matches!(book.kind(id), LabelKind::Axiom | LabelKind::Proof)
}

/// What each step of a proof uses; none where the steps prove nothing.
fn used_by(
    alloc: Global,
    book: &Book,
    id: LabelId,
    steps: &Steps,
) -> Result<Option<UsedSteps>, AllocError>
    requires steps { AreSteps book.now.statements id.0 steps.now.moves }
    requires whole { steps.now.prefix ≡ false }
{
    match uses_of(alloc, book, id, steps, false) {
        Ok(used) => Ok(Some(used)),
        Err(ProofFault::Memory) => Err(AllocError),
        Err(ProofFault::Rule { .. }) => Ok(None),
    }
}

impl<'c> LibrarySearch<'c> {
    /// A search in a database of which this is kept and said.
    pub fn new(
        alloc: Global,
        book: &Book,
        kept: &'c Kept,
        remarks: &'c [Remark],
        reach: Reach,
    ) -> LibrarySearch<'c>
        requires { AreRising (numbers_of kept.now) }
    {
        LibrarySearch {
            library: Library::new(alloc, book.seed()),
            passed: 0,
            kept,
            remarks,
            reach,
            left: 0,
        }
    }

    /// The number of the mathbox of a statement; 0 where it stands in none.
    fn mathbox(&self, id: LabelId) -> u32 {
        match self.remarks.get(id.0 as usize) {
            Some(remark) => mathbox_number(remark),
            None => 0,
        }
    }

    /// What an assertion depends on.
    fn rests(&self, id: LabelId) -> Rests<'c> {
        let kept = self.kept;
        match kept.index_of(id) {
            Some(at) => Rests::Uses(kept.used(at)),
            None => Rests::Itself,
        }
    }

    /// Enters a statement of the book, if it is an assertion.
    fn enter(&mut self, book: &Book, id: LabelId) -> Result<(), AllocError>
        ensures passed { self.new.passed ≡ self.old.passed }
        ensures others { ¬ (IsAssertionNumber book.now.statements id.0) → self.new ≡ self.old }
    {
        if !is_assertion(book, id) {
            return Ok(());
        }
        let usable = match self.remarks.get(id.0 as usize) {
            Some(remark) => !remark.is_discouraged,
            None => false,
        };
        let entry = Entry {
            usable,
            mathbox: self.mathbox(id),
            rests: self.rests(id),
        };
        self.library.enter(book, id, entry)
    }

    /// Enters the assertions before a number that weren't entered.
    fn pass(&mut self, book: &Book, end: LabelId) -> Result<(), AllocError>
        ensures { OnOk result (self.new.passed ≡ max self.old.passed end.0) }
    {
        for number in self.passed..end.0 {
            self.enter(book, LabelId(number))?;
            self.passed = number + 1;
        }
        Ok(())
    }

    /// Whether a proof is short enough to search; if not, its theorem is counted as left.
    fn may_search(&mut self, alloc: Global, book: &Book, steps: &Steps) -> Result<bool, AllocError>
        ensures passed { self.new.passed ≡ self.old.passed }
        ensures searched { IfOk result (λ may. IsTrue may → self.new.left ≡ self.old.left) }
        ensures left { IfOk result (λ may. ¬ (IsTrue may)
            → self.new.left ≡ min usize.MAX (self.old.left + 1)) }
    {
        let is_short = has_few_symbols(alloc, book, steps)?;
        if !is_short {
            self.left = self.left.saturating_add(1);
        }
        Ok(is_short)
    }
}

impl<'c> Search for LibrarySearch<'c> {
    ghost is_whole = { λ _. ⊤ };

    fn candidate(
        &mut self,
        alloc: Global,
        book: &Book,
        id: LabelId,
        steps: &Steps,
        size: OwnSize,
    ) -> Result<Option<Vec<u8>>, AllocError>
        requires steps { AreSteps book.now.statements id.0 steps.now.moves }
        requires proved { AreProvedSteps book.now.statements id.0 steps.now }
        requires whole { steps.now.prefix ≡ false }
        ensures whole { ⊤ → OnOk result ⊤ }
        // A refused growth on the way to the theorem isn't passed over.
        ensures passed { OnOk result (self.new.passed ≡ max self.old.passed id.0) }
    {
        self.pass(book, id)?;
        if !self.may_search(alloc, book, steps)? {
            return Ok(None);
        }
        let Some(used) = used_by(alloc, book, id, steps)? else {
            return Ok(None);
        };
        let frame = book.frame(id);
        let kept = self.kept;
        let uses = kept.used_by(id);
        let theorem = Theorem {
            book,
            frame: &frame,
            uses,
            mathbox: self.mathbox(id),
        };
        let size = Size {
            letters: size.letters,
            steps: size.steps,
        };
        self.library
            .shorten(alloc, &theorem, &used, size, self.reach)
    }
}
