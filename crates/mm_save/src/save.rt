//! A file with the proof of one theorem written anew.

ghost use Rattle.std.specs.Prelude.{◌≡◌, List, map, IfOk, IfErr};
ghost use Rattle.mm_base.specs.Statement.{PlainStatement};
ghost use Rattle.mm_text.specs.Files.{plain_file};
ghost use Rattle.mm_step.specs.declared.profile.Profile.TheVariants.{Lenient};
ghost use Rattle.mm_rules.specs.Verdict.{AreAccepted};
ghost use Rattle.mm_render.specs.Saved.{IsSaved, FitsSaved, IsSavingFault};

use mm_base::{File, Seed};
use mm_render::{SaveFault, saved_file};
use mm_verdict::{Form, check};
use std::alloc::Global;

/// The number of the file in which the `$p` with a label stands, and the bytes of that file with
/// the proof of the `$p` written in a form, in lines: they stand after a line feed, in place of the
/// bytes between its `$=` and its `$.`. All other bytes are kept. With `Form::Small` the lines have
/// the indent of the proof that stands there, and that one is kept where it has no more bytes.
///
/// # Errors
///
/// `Check`, with what `check` answers, where it doesn't accept the files. Else `Ask`, with what
/// `Checked::normal`, `Checked::packed` or `Checked::small` answers, and with `F3` where that would
/// be no refusal and the files would have over 1,073,741,824 bytes in all.
pub fn saved<'a>(
    alloc: Global,
    seed: Seed,
    files: &'a [File<'a>],
    label: &[u8],
    form: Form,
) -> Result<(usize, Vec<u8>), SaveFault<'a>>
    ensures saved { IfOk result (λ new. (statements : List PlainStatement)
        × AreAccepted Lenient (map plain_file files.now) statements
        × IsSaved form (map plain_file files.now) statements label.now new.0 new.1.items
        × FitsSaved (map plain_file files.now) new.0 new.1.items) }
    ensures fault { IfErr result (IsSavingFault form (map plain_file files.now) label.now) }
{
    let checked = match check(alloc, seed, files) {
        Ok(checked) => checked,
        Err(fault) => return Err(SaveFault::Check(fault)),
    };
    let answer = saved_file(alloc, &checked, label, form);
    drop(checked);
    match answer {
        Ok(new) => Ok(new),
        Err(fault) => Err(SaveFault::Ask(fault)),
    }
}
