//! All faults of a database, in one run.

ghost use Rattle.std.specs.Prelude.{◌≡◌, [], ◌∷◌, ◌++◌, map, IfOk, IfErr, OnOk};
ghost use Rattle.mm_text.specs.Files.{plain_file};
ghost use Rattle.mm_rules.specs.Verdict.{HasVerdict};
ghost use Rattle.mm_rules.specs.Answer.{KeepsLabels, KeepsCounts, KeepsUses, KeepsFiles};
ghost use Rattle.mm_rules.specs.Answer.{plain_refusal, verdict_of_conclusion};
ghost use Rattle.mm_verdict.specs.Faults.{AreAllFaults, HaveFaults};
ghost use Rattle.mm_verdict.specs.declared.faults.AllFaults.TheVariants.{Memory};

use crate::checked::Checked;
use crate::verdict::{conclude, judge_files};
use mm_base::{File, Seed, Statement};
use mm_frame::Book;
use mm_rules::{CheckFault, Judged, Refusal, Rule, Stop, Visitor};
use mm_step::Profile;
use std::alloc::{AllocError, Global};
use thiserror::Error;

/// What is found where a database isn't accepted.
#[derive(Debug, Drop, Error)]
pub enum AllFaults<'a> {
    /// The handed files break F1, F2 or F3 as a whole.
    #[error("the files break {0:?}")]
    Load(Rule),
    /// These statements are at fault, in the order of the database; there is at least one.
    #[error("statements are at fault")]
    Refused(Vec<Refusal<'a>>),
    /// A growth was refused.
    #[error("out of memory")]
    Memory,
}

impl<'a> From<AllocError> for AllFaults<'a> {
    ghost from_gives = { λ _ e. e ≡ Memory };

    fn from(_e: AllocError) -> AllFaults<'a> {
        AllFaults::Memory
    }
}

/// A visitor that lists the refusals of all proofs that are at fault.
#[derive(Drop)]
struct Faults<'a> {
    refusals: Vec<Refusal<'a>>,
}

impl<'a> Faults<'a> {
    /// Lists one more refusal.
    fn list(&mut self, refusal: Refusal<'a>) -> Result<(), AllocError>
        ensures { OnOk result (self.new.refusals.items ≡ self.old.refusals.items
            ++ refusal.entry ∷ []) }
    {
        self.refusals.push(refusal)?;
        Ok(())
    }
}

impl<'a> Visitor<'a> for Faults<'a> {
    ghost has_seen = { λ profile files first now statements listed.
        listed ≡ map plain_refusal now.refusals.items };

    ghost may_stop = { ⊥ };

    fn see(
        &mut self,
        _book: &Book<'a>,
        _statement: &Statement<'a>,
        judged: Judged<'a>,
    ) -> Result<(), Stop<'a>> {
        match judged {
            Judged::Faulty(refusal) => Ok(self.list(refusal)?),
            _ => Ok(()),
        }
    }
}

/// Checks in a profile the database that the files hold, as `check_with` does, and finds all its
/// faults in one run. A `$p` whose proof is at fault stands all the same: what a proof may use
/// doesn't depend on the proofs before it. What breaks a rule of meaning ends the run, and so does
/// a fault of the text.
///
/// # Errors
///
/// `Load` where the files can't be taken as a whole, else `Refused` with all faults; `Memory` where
/// a growth was refused, and nothing is said of the files then.
pub fn all_faults<'a>(
    alloc: Global,
    seed: Seed,
    profile: Profile,
    files: &'a [File<'a>],
) -> Result<Checked<'a>, AllFaults<'a>>
    // Where there is no fault, the answer is that of `check_with`.
    ensures none { IfOk result (λ checked. HaveFaults profile (map plain_file files.now) []) }
    ensures verdict { IfOk result (λ checked. HasVerdict profile (map plain_file files.now)
        (verdict_of_conclusion checked)) }
    ensures labels { IfOk result (KeepsLabels (map plain_file files.now)) }
    ensures counts { IfOk result (KeepsCounts (map plain_file files.now)) }
    ensures uses { IfOk result (KeepsUses (map plain_file files.now)) }
    ensures files { IfOk result (KeepsFiles (map plain_file files.now)) }
    ensures profile { IfOk result (λ checked. checked.profile ≡ profile) }

    // Else these are all faults.
    ensures faults { IfErr result (AreAllFaults profile (map plain_file files.now)) }
{
    let mut faults = Faults {
        refusals: Vec::new(alloc),
    };
    match judge_files(alloc, seed, profile, files, &mut faults) {
        Ok(progress) => {
            if faults.refusals.is_empty() {
                return Ok(conclude(profile, files, progress));
            }
            drop(progress);
            Err(AllFaults::Refused(faults.refusals))
        }
        Err(CheckFault::Refused(last)) => {
            faults.list(last)?;
            Err(AllFaults::Refused(faults.refusals))
        }
        Err(CheckFault::Load(rule)) => Err(AllFaults::Load(rule)),
        Err(CheckFault::Memory) => Err(AllFaults::Memory),
    }
}
