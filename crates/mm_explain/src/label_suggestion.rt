//! Suggests the labels of earlier statements for an unknown one.

ghost use Rattle.std.specs.Prelude.{◌≡◌, [], List, map, IfOk, OnOk};
ghost use Rattle.mm_code.specs.Layout.{texts};
ghost use Rattle.mm_text.specs.Files.{plain_file};
ghost use Rattle.mm_rules.specs.Verdict.{labels_of};
ghost use Rattle.mm_near.specs.Near.{AreNearestBelow};
ghost use Rattle.mm_explain.specs.Near.{AreNearestIn};
ghost use Rattle.mm_explain.specs.Mirror.Offered.{HasOffered};

use mm_base::{File, Seed, Statement};
use mm_near::Nearest;
use mm_rules::CheckFault;
use mm_text::{Passing, pass_next};
use mm_verdict::load;
use std::alloc::{AllocError, Global};

/// What the labels of statements are offered to.
#[derive(Drop)]
struct Offers<'w, 'a> {
    nearest: Nearest<'w, 'a>,
}

impl<'w, 'a> Passing<'a> for Offers<'w, 'a> {
    ghost has_passed = { λ first now passed. HasOffered first.nearest now.nearest passed };

    fn pass(&mut self, statement: &Statement<'a>) -> Result<(), AllocError> {
        match &statement.label {
            Some(label) => self.nearest.offer(label.text),
            None => Ok(()),
        }
    }
}

/// The labels of statements of the files that are nearest to this one, which no statement has: those
/// with the same letters in another case, or else those that differ in the fewest changes. These are
/// two at most, or one if the label has fewer than four bytes; none is near to a label of more than
/// 100 bytes. Of those that are equally near the first three are answered. The files are read to
/// their end, or to the first fault of the text; where they break a rule as a whole, there are none.
pub fn nearest_labels<'a>(
    alloc: Global,
    seed: Seed,
    files: &'a [File<'a>],
    label: &[u8],
) -> Result<Vec<&'a [u8]>, AllocError>
    ensures { IfOk result (λ found.
        AreNearestIn (map plain_file files.now) label.now (texts found.items)) }
{
    let mut statements = match load(alloc, seed, files) {
        Ok(statements) => statements,
        Err(CheckFault::Memory) => return Err(AllocError),
        // Nothing is read of files that can't be taken as a whole.
        Err(CheckFault::Load(_) | CheckFault::Refused(_)) => return Ok(Vec::new(alloc)),
    };
    let nearest = Nearest::new(alloc, label, &[]);
    let mut offers = Offers { nearest };
    pass_next(alloc, &mut statements, usize::MAX, &mut offers)?;
    Ok(offers.nearest.found)
}
