//! The lines of a report that give a place in the files.

ghost use Rattle.std.specs.Prelude.{◌≡◌, ◌++◌, map, OnOk};
ghost use Rattle.mm_text.specs.Files.{plain_file};
ghost use Rattle.mm_facts.specs.Explained.{begun_at, last_closed_at, stated_later_at, detail_text};
ghost use Rattle.mm_rules.specs.Places.{place_of as place_at, place_text};

use mm_base::File;
use mm_rules::{place_of, push_place};
use std::alloc::AllocError;

/// Where what the fault stands in began.
#[tactic(auto, using(mm_facts::proofs::DetailTexts::three_parts))]
pub(crate) fn push_begun(
    out: &mut Vec<u8>,
    files: &[File],
    file: usize,
    at: usize,
) -> Result<(), AllocError>
    ensures { OnOk result (out.new.items ≡ out.old.items
        ++ detail_text (begun_at (place_text (map plain_file files.now)
        (place_at (map plain_file files.now) file at)))) }
{
    out.extend_from_slice(b"  begun: ")?;
    push_place(out, files, place_of(files, file, at))?;
    out.push(b'\n')?;
    Ok(())
}

/// Where the last block is closed.
#[tactic(auto, using(mm_facts::proofs::DetailTexts::three_parts))]
pub(crate) fn push_last_closed(
    out: &mut Vec<u8>,
    files: &[File],
    file: usize,
    at: usize,
) -> Result<(), AllocError>
    ensures { OnOk result (out.new.items ≡ out.old.items
        ++ detail_text (last_closed_at (place_text (map plain_file files.now)
        (place_at (map plain_file files.now) file at)))) }
{
    out.extend_from_slice(b"  the last block is closed: ")?;
    push_place(out, files, place_of(files, file, at))?;
    out.push(b'\n')?;
    Ok(())
}

/// Where a later statement has the label that is the token at fault.
#[tactic(auto, using(mm_facts::proofs::DetailTexts::three_parts))]
pub(crate) fn push_stated_later(
    out: &mut Vec<u8>,
    files: &[File],
    file: usize,
    at: usize,
) -> Result<(), AllocError>
    ensures { OnOk result (out.new.items ≡ out.old.items
        ++ detail_text (stated_later_at (place_text (map plain_file files.now)
        (place_at (map plain_file files.now) file at)))) }
{
    out.extend_from_slice(b"  stated further down: ")?;
    push_place(out, files, place_of(files, file, at))?;
    out.push(b'\n')?;
    Ok(())
}
