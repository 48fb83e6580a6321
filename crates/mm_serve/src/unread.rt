//! What is said of a file that can't be read.

ghost use Rattle.std.specs.Prelude.{◌≡◌, ◌<◌, option_map, OnOk, OnErr};
ghost use Rattle.mm_text.specs.Device.{faults_of};
ghost use Rattle.mm_serve.specs.Ending.{AddsLabel, BreaksOff, TakesWhole, input_line};
ghost use Rattle.mm_serve.specs.Ending.{label_of, looks_like_file, order_line, unread_lines};

use crate::say::{say_all, say_text};
use mm_check::Command;
use mm_text::{Counted, WriteFault};
use mm_words::Stop;
use std::io::Write;

const CANNOT_READ: &[u8] = b"mm: cannot read ";

const INPUT: &[u8] = b"mm: the name of standard input is /dev/stdin\n";

const FOR_THE_LABEL: &[u8] = b" was taken for the label, and ";

const FOR_A_FILE: &[u8] = b" for a file: the label comes first\n";

/// The label that a command asks about, where it asks about one.
pub(crate) fn asked_label<'a>(command: &Command<'a>) -> Option<&'a [u8]>
    ensures { option_map (λ label. label.now) result ≡ label_of command.now }
{
    match command {
        Command::Whole { .. }
        | Command::File { .. }
        | Command::Shorter { .. }
        | Command::Lemmas { .. }
        | Command::Find { .. } => None,
        Command::About { label, .. }
        | Command::Lone { label, .. }
        | Command::Statement { label, .. } => Some(*label),
    }
}

/// The end of a command that was asked for with this label: where a file can't be read, the label
/// is reported too.
pub(crate) fn labelled<'a>(stop: Stop<'a>, label: Option<&'a [u8]>) -> Stop<'a>
    ensures { AddsLabel label.entry stop.entry result }
{
    match stop {
        Stop::CannotRead { name, .. } => Stop::CannotRead { name, label },
        other => other,
    }
}

/// The line on how standard input is named, where a file has the name that often stands for it.
fn input_hint(name: &[u8]) -> &'static [u8]
    ensures { result.now ≡ input_line name.now }
{
    if name == b"-".as_slice() { INPUT } else { b"" }
}

/// Whether a word looks like a file's name.
fn is_file_name(word: &[u8]) -> bool
    ensures { result ≡ looks_like_file word.now }
{
    word.ends_with(b".mm".as_slice())
}

/// Where the word that was taken for the label looks like a file's name, says which word was taken
/// for what.
fn tell_order<E: Write>(
    err: &mut Counted<E>,
    name: &[u8],
    label: Option<&[u8]>,
) -> Result<(), WriteFault>
    requires { faults_of err.old < u64.MAX }
    ensures all { OnOk result (TakesWhole E.contents
        (order_line name.now (option_map (λ label. label.now) label.entry)) err.old err.new) }
    ensures beginning { OnErr result (BreaksOff E.contents
        (order_line name.now (option_map (λ label. label.now) label.entry)) err.old err.new) }
{
    match label {
        Some(label) if is_file_name(label) => {
            say_all(err, b"mm: ", label, FOR_THE_LABEL)?;
            say_text(err, name)?;
            say_text(err, FOR_A_FILE)
        }
        _ => Ok(()),
    }
}

/// Says that a file can't be read. Where its name stands for standard input elsewhere, or the label
/// looks like a file's name, a line on that follows.
pub(crate) fn tell_unread<E: Write>(
    err: &mut Counted<E>,
    name: &[u8],
    label: Option<&[u8]>,
) -> Result<(), WriteFault>
    requires { faults_of err.old < u64.MAX }
    ensures all { OnOk result (TakesWhole E.contents
        (unread_lines name.now (option_map (λ label. label.now) label.entry)) err.old err.new) }
    ensures beginning { OnErr result (BreaksOff E.contents
        (unread_lines name.now (option_map (λ label. label.now) label.entry)) err.old err.new) }
{
    say_all(err, CANNOT_READ, name, b"\n")?;
    say_text(err, input_hint(name))?;
    tell_order(err, name, label)
}
