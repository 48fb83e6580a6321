//! A checked database, of whose proofs it is known where they stand.

ghost use Rattle.std.specs.Prelude.{◌≡◌, IfOk};
ghost use Rattle.mm_verdict.specs.Mirror.Theorems.{IsWholeProof};
ghost use Rattle.mm_alike.specs.Mirror.Databases.{IsComplete, IsTheorem, SayOwnSteps};

use crate::homes::{Home, bytes_at};
use crate::words::proof_in;
use mm_frame::LabelId;
use mm_proof::StepsReader;
use mm_rules::AskFault;
use mm_verdict::{Checked, Theorem, read_theorem};
use std::alloc::{AllocError, Global};

/// A database in which nothing is at fault and no proof is incomplete.
#[derive(Drop)]
pub struct Database<'a> {
    pub checked: Checked<'a>,
    /// For each labelled statement, where its proof stands.
    pub homes: Vec<Home>,
}

/// The theorem with a number, and the steps of its proof.
pub(crate) fn theorem_at(
    alloc: Global,
    checked: &Checked,
    homes: &[Home],
    id: LabelId,
) -> Result<Theorem, AllocError>
    requires complete { IsComplete checked.now homes.now }
    requires theorem { IsTheorem checked.now.sentences id.0 }
    ensures id { IfOk result (λ theorem. theorem.id.0 ≡ id.0) }
    ensures whole { IfOk result (λ theorem.
        IsWholeProof checked.now.sentences theorem.id.0 theorem.steps) }
    ensures told { IfOk result (λ theorem. SayOwnSteps checked.now id.0 theorem.steps.moves) }
{
    let bytes = bytes_at(checked.files, homes[id.0 as usize]);
    let statement = proof_in(alloc, bytes)?;
    let mut reader = StepsReader::new(alloc);
    match read_theorem(
        &mut reader,
        alloc,
        checked.profile,
        &checked.book,
        id,
        &statement,
    ) {
        Ok(theorem) => Ok(theorem),
        Err(AskFault::Memory) => Err(AllocError),
        // `check` accepted the proof.
        Err(_) => unreachable!(),
    }
}
