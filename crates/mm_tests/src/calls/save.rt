//! Saving: the file with the proof of one theorem written anew, and all else kept.

ghost use Rattle.std.specs.Prelude.{◌≡◌, ◌≤◌, length};

use crate::tests::reply_to;
use mm_base::{File, Seed};
use mm_check::{Command, Question};
use mm_core_tests::databases::FIRST;
use mm_laws::{
    all_saved_proofs_are_strict, one_all_saved, one_saved, packed_texts_tell,
    saving_again_changes_nothing, saving_all_again_changes_nothing, saving_all_changes_no_answer,
    saving_changes_no_answer, small_files_do_not_grow,
};
use mm_rules::Status;
use mm_save::{saved, saved_all};
use mm_verdict::Form;
use std::alloc::{AllocError, Global};
use std::test::Fail;

const OLD: &[u8] = b"\
$c 0 + ( ) term $. $( a comment $)
$v t r $.
tt $f term t $.
tr $f term r $.
tze $a term 0 $.
tpl $a term ( t + r ) $.
th $p term ( 0 + 0 ) $= $( c $) tze tze tpl $( d $) $. $( the end $)
";

const NORMAL: &[u8] = b"\
$c 0 + ( ) term $. $( a comment $)
$v t r $.
tt $f term t $.
tr $f term r $.
tze $a term 0 $.
tpl $a term ( t + r ) $.
th $p term ( 0 + 0 ) $=
      tze tze tpl
$. $( the end $)
";

const PACKED: &[u8] = b"\
$c 0 + ( ) term $. $( a comment $)
$v t r $.
tt $f term t $.
tr $f term r $.
tze $a term 0 $.
tpl $a term ( t + r ) $.
th $p term ( 0 + 0 ) $=
      ( tze tpl )
      AAB
$. $( the end $)
";

const SMALL: &[u8] = b"\
$c 0 + ( ) term $. $( a comment $)
$v t r $.
tt $f term t $.
tr $f term r $.
tze $a term 0 $.
tpl $a term ( t + r ) $.
th $p term ( 0 + 0 ) $=
    ( tze tpl ) AAB $. $( the end $)
";

/// A top file that includes another one, with these bytes.
fn two_files(bytes: &[u8]) -> [File<'_>; 2] {
    [
        File {
            name: b"top.mm",
            bytes: b"$[ a.mm $]",
        },
        File {
            name: b"a.mm",
            bytes,
        },
    ]
}

/// Whether the theorem `th` is saved in a form as these bytes, in the second file.
fn saves(alloc: Global, old: &[u8], form: Form, bytes: &[u8]) -> Result<bool, Fail> {
    let files = two_files(old);
    match saved(alloc, Seed::known(), &files, b"th", form) {
        Ok((number, new)) => Ok(number == 1 && new.as_slice() == bytes),
        Err(_) => Err(Fail::from("not saved")),
    }
}

#[test]
fn a_proof_is_saved_in_its_own_file(rt: HostRuntime) -> Result<(), Fail> {
    assert!(rt; saves(rt.alloc(), OLD, Form::Normal, NORMAL)?);
    assert!(rt; saves(rt.alloc(), OLD, Form::Packed, PACKED)?);
    assert!(rt; saves(rt.alloc(), OLD, Form::Small, SMALL)?);
    Ok(())
}

#[test]
fn saving_again_gives_equal_bytes(rt: HostRuntime) -> Result<(), Fail> {
    assert!(rt; saves(rt.alloc(), NORMAL, Form::Normal, NORMAL)?);
    assert!(rt; saves(rt.alloc(), PACKED, Form::Packed, PACKED)?);
    assert!(rt; saves(rt.alloc(), SMALL, Form::Small, SMALL)?);
    assert!(rt; saves(rt.alloc(), PACKED, Form::Normal, NORMAL)?);
    Ok(())
}

#[test]
fn the_whole_file_is_answered(rt: HostRuntime) -> Result<(), Fail> {
    let command = Command::About {
        label: b"th",
        question: Question::Form {
            form: Form::Packed,
            whole: true,
        },
    };
    let (text, status) = reply_to(rt.alloc(), &command, &two_files(OLD))?;
    assert!(rt; status == Status::Done && text.as_slice() == PACKED);
    Ok(())
}

#[test]
fn unknown_labels_are_refused(rt: HostRuntime) -> Result<(), Fail> {
    let command = Command::About {
        label: b"none",
        question: Question::Form {
            form: Form::Normal,
            whole: true,
        },
    };
    let (text, status) = reply_to(rt.alloc(), &command, &two_files(OLD))?;
    assert!(rt; status == Status::Refused && text.as_slice() == b"ask A1 none\n".as_slice());
    Ok(())
}

/// Whether the second file is saved with all its proofs in a form as these bytes.
fn saves_all(alloc: Global, old: &[u8], form: Form, bytes: &[u8]) -> Result<bool, Fail> {
    let files = two_files(old);
    match saved_all(alloc, Seed::known(), &files, 1, form) {
        Ok(new) => Ok(new.as_slice() == bytes),
        Err(_) => Err(Fail::from("not saved")),
    }
}

#[test]
fn all_proofs_of_a_file_are_saved(rt: HostRuntime) -> Result<(), Fail> {
    assert!(rt; saves_all(rt.alloc(), OLD, Form::Normal, NORMAL)?);
    assert!(rt; saves_all(rt.alloc(), OLD, Form::Packed, PACKED)?);
    assert!(rt; saves_all(rt.alloc(), OLD, Form::Small, SMALL)?);
    Ok(())
}

/// Files that have as many bytes in all as there may be. The first one has these bytes. Of the
/// others nothing is read: each has the bytes of the filler, but for the last, which has what is
/// left of them; the name of each is a longer part of the filler than that of the one before.
fn full_files<'a>(
    alloc: Global,
    first: &'a [u8],
    filler: &'a [u8],
) -> Result<Vec<File<'a>>, AllocError>
    requires filler { length filler.now ≡ 2097152 }
    requires first { length first.now ≤ length filler.now }
{
    let mut files = Vec::new(alloc);
    files.push(File {
        name: b"first.mm",
        bytes: first,
    })?;
    for count in 1..512 {
        files.push(File {
            name: &filler[..count],
            bytes: filler,
        })?;
    }
    files.push(File {
        name: filler,
        bytes: &filler[first.len()..],
    })?;
    Ok(files)
}

/// The reply where a file is saved whole in normal form, and the files have as many bytes in all as
/// there may be.
fn saved_full(alloc: Global, first: &[u8]) -> Result<(Vec<u8>, Status), Fail> {
    let mut filler = Vec::new(alloc);
    filler.resize(2_097_152, b'f')?;
    if first.len() > filler.len() {
        return Err(Fail::from("the first file is longer than the filler"));
    }
    let files = full_files(alloc, first, &filler)?;
    let command = Command::File {
        form: Form::Normal,
        file: 0,
    };
    reply_to(alloc, &command, &files)
}

#[test]
fn files_that_would_be_too_large_are_not_saved(rt: HostRuntime) -> Result<(), Fail> {
    let (text, status) = saved_full(rt.alloc(), FIRST)?;
    assert!(rt; status == Status::Stopped && text.as_slice() == b"ask F3 first.mm\n".as_slice());
    Ok(())
}

#[test]
fn files_of_the_most_bytes_are_saved(rt: HostRuntime) -> Result<(), Fail> {
    let (text, status) = saved_full(rt.alloc(), NORMAL)?;
    assert!(rt; status == Status::Done && text.as_slice() == NORMAL);
    Ok(())
}

#[test]
fn laws_of_saving_whole_files_are_called() {
    saving_all_changes_no_answer();
    all_saved_proofs_are_strict();
    one_all_saved();
    saving_all_again_changes_nothing();
}

#[test]
fn laws_of_saving_and_forms_are_called() {
    packed_texts_tell();
    small_files_do_not_grow();
    saving_changes_no_answer();
    one_saved();
    saving_again_changes_nothing();
}
