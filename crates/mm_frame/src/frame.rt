//! Frames of assertions.

ghost use Rattle.std.specs.Prelude.{◌≡◌, ◌↔◌, ◌<◌, ℕ, List, Some, IfOk, IsTrue, length, map};
ghost use Rattle.std.specs.Prelude.{slice_get};
ghost use Rattle.mm_base.specs.MostBytes.{most_bytes};
ghost use Rattle.mm_frame.specs.Sentence.{Sentence, IsAssertion};
ghost use Rattle.mm_frame.specs.Active.{IsActive};
ghost use Rattle.mm_frame.specs.Frame.{IsDistinct};
ghost use Rattle.mm_frame.specs.Form.{IsSound};
ghost use Rattle.mm_frame.specs.Numbers.{IsNumbered, IsNumberOf, IsAssertionNumber};
ghost use Rattle.mm_frame.specs.FrameIndex.{AreHypotheses, HaveTypings, ArePairs};
ghost use Rattle.mm_frame.specs.FrameIndex.{AreFurtherIndices, AreItsSymbols, before_it};
ghost use Rattle.mm_frame.specs.Pieces.{variables_of, AreItsPieces, HavePatterns};
ghost use Rattle.mm_frame.specs.Pieces.{HaveIndices, HaveMandatoryPatterns, HaveMandatoryIndices};

use crate::book::Book;
use crate::distinct::DistinctPair;
use crate::hypothesis::Hypothesis;
use crate::number::{LabelId, Sym};
use crate::reads::label_index;
use crate::signature::Signature;
use std::alloc::{AllocError, Global};
use std::marker::Model;

/// What an assertion of a book takes from the statements before it (the Metamath book, section
/// 4.2.7). It stays true while the book grows.
#[derive(Drop)]
pub struct Frame<'b, 'a> {
    pub(crate) book: &'b Book<'a>,
    pub(crate) id: LabelId,
    pub(crate) index: usize,
}

impl<'b, 'a> Model for Frame<'b, 'a> {
    ghost use Rattle.mm_frame.specs.Sentence.{Sentence, IsAssertion};
    ghost use Rattle.mm_frame.specs.Numbers.{IsNumbered};
    ghost use Rattle.mm_frame.specs.FrameIndex.{FrameIndex};

    ghost Value = { FrameIndex };

    ghost view = { λ f. record { statements = f.book.now.statements; index = f.index } };

    // It is the frame of an assertion of its book.
    ghost invariant = { λ f. (s : Sentence)
        × IsNumbered f.book.now.statements f.id.0 f.index s × IsAssertion s.kind };
}

impl<'b, 'a> Frame<'b, 'a> {
    /// What a step by the assertion asks of it.
    pub fn signature(&self) -> Signature<'b>
        ensures ids { AreHypotheses self.now (map (λ h. h.id.0) result.hypotheses.now) }
        ensures typed { HaveTypings self.now.statements result.hypotheses.now }
        ensures pairs { ArePairs self.now
            (map (λ pair. (pair.variables.0.0, pair.variables.1.0)) result.pairs.now) }
        ensures indices { HaveIndices (variables_of result.hypotheses.now) result.pairs.now }
        ensures conclusion { (s : Sentence)
            × (slice_get self.now.statements self.now.index ≡ Some s)
            × AreItsPieces self.now.statements (variables_of result.hypotheses.now) s
            result.conclusion.now }
        ensures patterns { HavePatterns self.now.statements (variables_of result.hypotheses.now)
            result.pieces.now result.hypotheses.now }
    {
        self.book.signature(self.id)
    }

    /// The mandatory hypotheses, in database order. They are those of its signature.
    pub fn hypotheses(&self) -> &'b [Hypothesis]
        ensures ids { AreHypotheses self.now (map (λ h. h.id.0) result.now) }
        ensures typed { HaveTypings self.now.statements result.now }
        ensures few { length result.now < most_bytes }
        ensures patterns { HaveMandatoryPatterns self.now result.now }
    {
        self.book.hypotheses(self.id)
    }

    /// The mandatory distinct pairs, each once.
    pub fn pairs(&self) -> &'b [DistinctPair]
        ensures variables { ArePairs self.now
            (map (λ pair. (pair.variables.0.0, pair.variables.1.0)) result.now) }
        ensures indices { HaveMandatoryIndices self.now result.now }
    {
        self.book.pairs(self.id)
    }

    /// The indices, in its book, of the `$d` that say more than the mandatory pairs, in database
    /// order: they are active at the assertion, and one of their members isn't mandatory.
    pub fn further(&self, alloc: Global) -> Result<Vec<usize>, AllocError>
        ensures { IfOk result (λ indices. AreFurtherIndices self.now indices.items) }
    {
        self.book.further(alloc, self.id)
    }

    /// The symbols of the assertion.
    pub fn expression(&self) -> &'b [Sym]
        ensures { AreItsSymbols self.now (map (λ n. n.0) result.now) }
    {
        self.book.expression(self.id)
    }

    /// Whether a hypothesis is active at the assertion's index.
    pub fn active(&self, hypothesis: LabelId) -> bool
        ensures { (index : ℕ) (s : Sentence)
            → IsNumbered self.now.statements hypothesis.0 index s
            → (IsTrue result ↔ IsActive (before_it self.now) index) }
    {
        self.book.is_active(hypothesis, self.index)
    }

    /// Whether two variables are a distinct pair at the assertion's index.
    pub fn distinct(&self, a: Sym, b: Sym) -> bool
        ensures { (x y : List ℕ) → IsNumberOf self.now.statements x a.0
            → IsNumberOf self.now.statements y b.0
            → (IsTrue result ↔ IsDistinct (before_it self.now) x y) }
    {
        self.book.is_distinct(a, b, self.index)
    }
}

impl<'a> Book<'a> {
    /// The frame of an assertion (the Metamath book, section 4.2.7).
    pub fn frame(&self, id: LabelId) -> Frame<'_, 'a>
        requires { IsAssertionNumber self.now.statements id.0 }
        ensures book { result.statements ≡ self.now.statements }
        ensures index { (s : Sentence) × IsNumbered self.now.statements id.0 result.index s
            × IsAssertion s.kind }
        ensures sound { IsSound self.now.statements }
    {
        Frame {
            book: self,
            id,
            index: label_index(&self.tables, id),
        }
    }
}
