//! The labels that all of some proofs have in common.

ghost use Rattle.std.specs.Prelude.{◌≡◌, ◌∷◌, ◌++◌, [], List, OnOk, length};
ghost use Rattle.mm_base.specs.declared.statement.Kind.TheVariants.{Provable};
ghost use Rattle.mm_base.specs.Statement.{plain_statement};
ghost use Rattle.mm_frame.specs.Sentence.{Sentence, sentence_of};
ghost use Rattle.mm_step.specs.Steps.{IsProofNumber};
ghost use Rattle.mm_groups.specs.Shared.{Labels, AreLabelsOf};
ghost use Rattle.mm_groups.specs.Mirror.Kept.{HasShared};

use crate::common::common;
use crate::essentials::essentials_of;
use crate::labels::labels_of;
use mm_base::{Seed, Statement};
use mm_frame::{Book, LabelId};
use std::alloc::{AllocError, Global};

/// The labels that all proofs have in common of which note was taken.
#[derive(Drop)]
pub struct Shared<'a> {
    alloc: Global,
    seed: Seed,
    /// Whether note was taken of one.
    begun: bool,
    /// Those of essential hypotheses of all theorems, in database order.
    pub(crate) hypotheses: Vec<&'a [u8]>,
    /// Those that all proofs name, or that are their theorems'.
    pub(crate) names: Vec<&'a [u8]>,
}

impl<'a> Shared<'a> {
    /// Of no proofs.
    pub fn new(alloc: Global, seed: Seed) -> Shared<'a>
        ensures { HasShared [] result }
    {
        Shared {
            alloc,
            seed,
            begun: false,
            hypotheses: Vec::new(alloc),
            names: Vec::new(alloc),
        }
    }

    /// Takes note of one more proof, that of the `$p` with the number, which the book took last.
    pub fn note(
        &mut self,
        book: &Book<'a>,
        id: LabelId,
        statement: &Statement<'a>,
    ) -> Result<(), AllocError>
        requires { (before : List Sentence)
            × (book.now.statements ≡ before ++ sentence_of (plain_statement statement.now) ∷ [])
            × IsProofNumber book.now.statements id.0 (length before)
            (sentence_of (plain_statement statement.now)) }
        ensures { OnOk result ((before : List Sentence)
            → book.now.statements ≡ before ++ sentence_of (plain_statement statement.now) ∷ []
            → IsProofNumber book.now.statements id.0 (length before)
            (sentence_of (plain_statement statement.now))
            → (labels : Labels) × AreLabelsOf before (plain_statement statement.now) labels
            × ((each : List Labels) → HasShared each self.old
            → HasShared (each ++ labels ∷ []) self.new)) }
    {
        let hypotheses = essentials_of(self.alloc, book, id)?;
        let names = labels_of(self.alloc, statement)?;
        if !self.begun {
            self.begun = true;
            self.hypotheses = hypotheses;
            self.names = names;
            return Ok(());
        }
        self.hypotheses = common(self.alloc, self.seed, &self.hypotheses, &hypotheses)?;
        self.names = common(self.alloc, self.seed, &self.names, &names)?;
        Ok(())
    }
}
