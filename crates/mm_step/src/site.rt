//! Where a proof is judged.

ghost use Rattle.std.specs.Prelude.{◌≡◌, ℕ};
ghost use Rattle.mm_frame.specs.Sentence.{Sentence};
ghost use Rattle.mm_frame.specs.Form.{IsSound};
ghost use Rattle.mm_frame.specs.FrameIndex.{AreHypotheses, AreItsSymbols};
ghost use Rattle.mm_step.specs.Profiles.{limit_of};
ghost use Rattle.mm_step.specs.Steps.{IsProofNumber};
ghost use Rattle.mm_step.specs.Plain.{label_ids};
ghost use Rattle.mm_step.specs.Stores.{numbers_in};

use crate::profile::Profile;
use mm_frame::{Book, Frame, Hypothesis, LabelId, Sym};
use std::marker::Model;

/// Where a proof is judged: the book, the number of its `$p` and the frame of that, and the most
/// symbols that an expression may have.
#[derive(Drop)]
pub struct Site<'b, 'a> {
    pub book: &'b Book<'a>,
    pub own: Frame<'b, 'a>,
    pub id: LabelId,
    pub limit: usize,
}

impl<'b, 'a> Model for Site<'b, 'a> {
    ghost use Rattle.std.specs.Prelude.{◌≡◌};
    ghost use Rattle.mm_step.specs.Mirror.Sites.{ProofSite, IsSite};

    ghost Value = { ProofSite };

    ghost view = { λ a. record {
      statements = a.book.now.statements;
      index = a.own.index;
      number = a.id.0;
      limit = a.limit;
    } };

    // The frame is of this book, which is sound, and its assertion has the number.
    ghost invariant = { λ a. (a.own.statements ≡ a.book.now.statements)
        × IsSite (record {
          statements = a.book.now.statements;
          index = a.own.index;
          number = a.id.0;
          limit = a.limit;
        }) };
}

impl<'b, 'a> Site<'b, 'a> {
    ghost use Rattle.mm_step.specs.Mirror.Sites.{IsSite};

    /// Where the proof of the `$p` with the number is judged, under the profile.
    #[tactic(auto, using(mm_frame::proofs::Names::LabelNumbers::numbered_unique))]
    pub fn new(book: &'b Book<'a>, id: LabelId, profile: Profile) -> Site<'b, 'a>
        requires { (index : ℕ) × (s : Sentence) × IsProofNumber book.now.statements id.0 index s }
        ensures site { IsSite result }
        ensures statements { result.statements ≡ book.now.statements }
        ensures number { result.number ≡ id.0 }
        ensures limit { result.limit ≡ limit_of profile }
        ensures sound { IsSound book.now.statements }
    {
        Site {
            book,
            own: book.frame(id),
            id,
            limit: profile.limit(),
        }
    }

    /// The symbols that the `$p` says to be provable.
    pub fn expression(&self) -> &'b [Sym]
        ensures symbols { AreItsSymbols
            (record { statements = self.now.statements; index = self.now.index })
            (numbers_in result.now) }
        ensures site { IsSite self.now }
    {
        self.own.expression()
    }

    /// The mandatory hypotheses of the `$p`, in database order.
    pub fn hypotheses(&self) -> &'b [Hypothesis]
        ensures ids { AreHypotheses
            (record { statements = self.now.statements; index = self.now.index })
            (label_ids result.now) }
    {
        self.own.hypotheses()
    }
}
