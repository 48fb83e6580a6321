//! The program over its words and devices.

ghost use Rattle.std.specs.Prelude.{◌≡◌, ◌↔◌, ◌<◌, ◌≤◌, ◌⊎◌, map, string_bytes};
ghost use Rattle.std.specs.Prelude.{IfOk, IfErr, IfSome, List, None, OnOk, OnErr, ℕ};
ghost use Rattle.mm_code.specs.Layout.{texts};
ghost use Rattle.mm_text.specs.Device.{faults_of};
ghost use Rattle.mm_text.specs.Files.{plain_file};
ghost use Rattle.mm_rules.specs.Status.{number_of};
ghost use Rattle.mm_serve.specs.Ending.{BreaksOff, Ends, EndsWithoutWords, AnswersWords};
ghost use Rattle.mm_serve.specs.Ending.{IsReplyOver};
ghost use Rattle.mm_serve.specs.Answer.{outcome_of, quiet};
ghost use Rattle.mm_serve.specs.Ending.{Stops, StopsDiff, StopsNoted, TellsNotes};
ghost use Rattle.mm_serve.specs.Noted.{IsNotedReplyOver, request_in};
ghost use Rattle.mm_serve.specs.Versions.{IsDiffReplyOver};
ghost use Rattle.mm_serve.specs.Ending.{IsTextCommand, IsTextReplyOver, StopsText};
ghost use Rattle.mm_words.specs.Words.{AsksNamed, Asks, AsksRun};
ghost use Rattle.mm_serve.specs.Ending.{StaysUnshown, StopsRun, TakesWhole, TellsLine, error_line};
ghost use Rattle.mm_serve.specs.Ending.{label_of, stop_status};
ghost use Rattle.mm_verdict.specs.declared.question.Command.TheVariants.{Whole};
ghost use Rattle.mm_verdict.specs.declared.question.WholeQuestion.TheVariants.{Check};
ghost use Rattle.mm_step.specs.declared.profile.Profile.{Profile};
ghost use Rattle.mm_serve.specs.Folder.{plain_read};
ghost use Rattle.mm_serve.specs.declared.files.Comments.TheVariants.{LeftOut};
ghost use Rattle.mm_words.specs.declared.stop.Stop.TheVariants.{CannotWrite};
ghost use Rattle.mm_words.specs.declared.request.Request.TheVariants.{Find};
ghost use Rattle.mm_help.specs.declared.texts.Texts.{Texts};
ghost use Rattle.mm_verdict.specs.declared.question.Command.{Command};
ghost use Rattle.clap.specs.Words.{Text};

use crate::answer::Answer;
use crate::files::{Comments, FileFault, ReadFile, read_file, read_files};
use crate::folder::{Folder, Resources};
use crate::hint::{keep_hint, tell_reason};
use crate::noted::{Wanted, noted};
use crate::progress_line::{ProgressLine, watched_reply};
use crate::search_note::{CHECK, all_notes};
use crate::unread::{asked_label, labelled, tell_unread};
use crate::versions::{Versions, compared_versions, read_versions};
use mm_base::File;
use mm_check::{Command, LoneQuestion, Question, WholeQuestion, alike_files_have_one_reply};
use mm_help::{Texts, explanation, help_text};
use mm_rules::Status;
use mm_step::Profile;
use mm_text::{BYTE_LIMIT, Counted, alike_files_leave_out_the_same};
use mm_verdict::Reply;
use mm_words::{
    Arguments, AskedPatterns, AskedText, AskedVersions, Request, Stop, TextQuestion, request_of,
};
use std::alloc::{AllocError, Global};
use std::io::Write;

const TOO_LONG: &[u8] = b"load F3\n";

const TOO_LONG_PROOF: &[u8] = b"text F3 0\n";

const CANNOT_WRITE: &[u8] = b"mm: cannot write\n";

const OUT_OF_MEMORY: &[u8] = b"mm: out of memory\n";

const NOT_TEXT: &[u8] = b"mm: a word is not UTF-8\n";

/// Writes an answer without notes, with which this status goes.
fn reply<'a, O: Write>(
    out: &mut Counted<O>,
    text: &[u8],
    status: Status,
) -> Result<Answer, Stop<'a>>
    requires { faults_of out.old < u64.MAX }
    ensures outcome { IfOk result (λ answer. outcome_of answer ≡ quiet (number_of status)) }
    ensures all { OnOk result (TakesWhole O.contents text.now out.old out.new) }
    ensures stop { IfErr result (λ stop. stop ≡ CannotWrite) }
    ensures beginning { OnErr result (BreaksOff O.contents text.now out.old out.new) }
{
    match out.write_all(text) {
        Ok(()) => Ok(Answer {
            status,
            notes: None,
        }),
        Err(_) => Err(Stop::CannotWrite),
    }
}

/// Writes the reply to a command, beside which these notes are reported.
fn noted_reply<'a, O: Write>(
    out: &mut Counted<O>,
    reply: &Reply,
    notes: Vec<u8>,
) -> Result<Answer, Stop<'a>>
    requires { faults_of out.old < u64.MAX }
    ensures outcome { IfOk result (λ answer. outcome_of answer ≡ record {
      status = number_of reply.now.status;
      notes = notes.items;
    }) }
    ensures all { OnOk result (TakesWhole O.contents reply.now.text.items out.old out.new) }
    ensures stop { IfErr result (λ stop. stop ≡ CannotWrite) }
    ensures beginning { OnErr result (BreaksOff O.contents reply.now.text.items out.old out.new) }
{
    match out.write_all(&reply.text) {
        Ok(()) => Ok(Answer {
            status: reply.status,
            notes: Some(notes),
        }),
        Err(_) => {
            drop(notes);
            Err(Stop::CannotWrite)
        }
    }
}

/// The files as the verdict takes them.
fn plain_files<'f>(alloc: Global, files: &'f [ReadFile<'_>]) -> Result<Vec<File<'f>>, AllocError>
    ensures { IfOk result (λ plain. map plain_file plain.items ≡ map plain_read files.now) }
{
    let mut plain = Vec::new(alloc);
    for file in files {
        plain.push(File {
            name: file.name.as_bytes(),
            bytes: &file.bytes,
        })?;
    }
    Ok(plain)
}

/// What becomes of comments as files are read for a command: they are left out exactly for `check`,
/// of files that `check` takes.
fn comments_for(command: &Command<'_>, max: usize) -> Comments
    ensures { result ≡ LeftOut
        ↔ (((profile : Profile) × (command.now ≡ Whole profile Check)) × (max ≤ BYTE_LIMIT)) }
{
    match command {
        Command::Whole {
            question: WholeQuestion::Check,
            ..
        } if max <= BYTE_LIMIT => Comments::LeftOut,
        _ => Comments::Kept,
    }
}

/// Runs a command over the database in the files with these names, which may hold at most `max`
/// bytes in all, and writes the reply. The notes beside it, on files that weren't included, on an
/// asked label that no statement has and on what a search came to, are made before it is written.
///
/// # Errors
///
/// `CannotRead` where a file can't be opened or read; `CannotWrite` where standard output failed,
/// after a beginning of the reply; `Memory` where a growth was refused, and then nothing is
/// written.
pub fn run_over<'a, F: Folder, O: Write, P: Write>(
    resources: Resources,
    folder: &F,
    command: &Command<'_>,
    names: &[&'a str],
    max: usize,
    out: &mut Counted<O>,
    progress: &mut ProgressLine<P>,
) -> Result<Answer, Stop<'a>>
    requires faults { faults_of out.old < u64.MAX }
    requires named { AsksNamed command.now (map (λ name. name.now) names.now) }
    ensures replies { IfOk result (λ answer. (text : _) × IsReplyOver (F.holds folder.now)
        command.now (map (λ name. name.now) names.now) max text (outcome_of answer)
        × TakesWhole O.contents text out.old out.new) }
    ensures stops { IfErr result (λ stop. StopsRun O.contents (F.holds folder.now)
        (F.may_fail folder.now) command.now
        (map (λ name. name.now) names.now) max stop out.old out.new) }
    ensures unshown { StaysUnshown progress.old progress.new }
{
    alike_files_have_one_reply();
    alike_files_leave_out_the_same();
    let Resources { alloc, seed } = resources;
    let files = match read_files(alloc, folder, names, max, comments_for(command, max)) {
        Ok(files) => files,
        Err(FileFault::CannotRead(name)) => return Err(Stop::CannotRead { name, label: None }),
        Err(FileFault::TooLong) => return reply(out, TOO_LONG, Status::Stopped),
        Err(FileFault::Memory) => return Err(Stop::Memory),
    };
    let files = plain_files(alloc, &files)?;
    let watched = watched_reply(resources, command, &files, progress)?;
    let notes = all_notes(alloc, seed, &files, command, &watched)?;
    keep_hint(progress, resources, command, &files, names, &watched.reply);
    noted_reply(out, &watched.reply, notes)
}

/// The question about the text in this file and the theorem with a label.
fn text_command<'c>(question: TextQuestion, label: &'c [u8], proof: File<'c>) -> Command<'c>
    ensures { IsTextCommand question label.now (plain_file proof.entry) result }
{
    match question {
        TextQuestion::Same => Command::About {
            label,
            question: Question::Same(proof.bytes),
        },
        TextQuestion::Try => Command::Lone {
            label,
            question: LoneQuestion::Try {
                name: proof.name,
                text: proof.bytes,
            },
        },
    }
}

/// Answers a question about a proof's text, and writes the reply. The file with the proof is read
/// first; its bytes are counted apart.
///
/// # Errors
///
/// As for `run_over`.
fn text_over<'a, F: Folder, O: Write, P: Write>(
    resources: Resources,
    folder: &F,
    asked: &AskedText<'a>,
    max: usize,
    out: &mut Counted<O>,
    progress: &mut ProgressLine<P>,
) -> Result<Answer, Stop<'a>>
    requires { faults_of out.old < u64.MAX }
    ensures replies { IfOk result (λ answer. (text : _) × IsTextReplyOver asked.now.question
        (F.holds folder.now) asked.now.label.now asked.now.proof.now
        (map (λ name. name.now) asked.now.names.items) max
        text (outcome_of answer) × TakesWhole O.contents text out.old out.new) }
    ensures stops { IfErr result (λ stop. StopsText asked.now.question O.contents
        (F.holds folder.now) (F.may_fail folder.now) asked.now.label.now asked.now.proof.now
        (map (λ name. name.now) asked.now.names.items) max stop out.old out.new) }
    ensures unshown { StaysUnshown progress.old progress.new }
{
    let file = match read_file(resources.alloc, folder, asked.proof, max, Comments::Kept) {
        Ok(file) => file,
        Err(FileFault::CannotRead(name)) => return Err(Stop::CannotRead { name, label: None }),
        Err(FileFault::TooLong) => return reply(out, TOO_LONG_PROOF, Status::Stopped),
        Err(FileFault::Memory) => return Err(Stop::Memory),
    };
    let proof = File {
        name: asked.proof.as_bytes(),
        bytes: &file.bytes,
    };
    let command = text_command(asked.question, asked.label.as_bytes(), proof);
    let names = &asked.names;
    run_over(resources, folder, &command, names, max, out, progress)
}

/// The bytes of these words.
fn bytes_of<'w>(alloc: Global, words: &[&'w str]) -> Result<Vec<&'w [u8]>, AllocError>
    ensures { IfOk result (λ bytes. texts bytes.items ≡ map (λ word. word.now) words.now) }
{
    let mut bytes = Vec::new(alloc);
    for word in words {
        bytes.push(word.as_bytes())?;
    }
    Ok(bytes)
}

/// The command for the assertions that have these patterns.
fn find_command<'p>(asked: &AskedPatterns<'_>, patterns: &'p [&'p [u8]]) -> Command<'p>
    requires { texts patterns.now ≡ map (λ pattern. pattern.now) asked.now.patterns.items }
    ensures asks { (words : List Text) → Asks words (Find asked.now)
        → AsksRun words result (map (λ name. name.now) asked.now.names.items) }
    ensures unlabelled { label_of result ≡ None }
{
    Command::Find {
        patterns,
        whole: asked.whole,
        shape: asked.shape,
        hypotheses: asked.hypotheses,
    }
}

/// Lists the assertions that have these patterns, and writes the reply.
///
/// # Errors
///
/// As for `run_over`.
fn find_over<'a, F: Folder, O: Write, P: Write>(
    resources: Resources,
    folder: &F,
    asked: &AskedPatterns<'a>,
    max: usize,
    out: &mut Counted<O>,
    progress: &mut ProgressLine<P>,
) -> Result<Answer, Stop<'a>>
    requires faults { faults_of out.old < u64.MAX }
    requires asked { (words : List Text) × Asks words (Find asked.now) }
    ensures replies { IfOk result (λ answer. (words : List Text) → Asks words (Find asked.now)
        → (text : List ℕ) × (command : Command)
        × AsksRun words command (map (λ name. name.now) asked.now.names.items)
        × IsReplyOver (F.holds folder.now) command
        (map (λ name. name.now) asked.now.names.items) max text (outcome_of answer)
        × TakesWhole O.contents text out.old out.new) }
    ensures stops { IfErr result (λ stop. (texts : Texts) (words : List Text)
        → Asks words (Find asked.now) → Stops O.contents (F.holds folder.now)
        (F.may_fail folder.now) texts max words stop out.old out.new) }
    ensures unshown { StaysUnshown progress.old progress.new }
{
    let patterns = bytes_of(resources.alloc, &asked.patterns)?;
    let command = find_command(asked, &patterns);
    match run_over(
        resources,
        folder,
        &command,
        &asked.names,
        max,
        out,
        progress,
    ) {
        Ok(answer) => Ok(answer),
        Err(stop) => Err(labelled(stop, None)),
    }
}

/// Tells what changed between two versions of a database, and writes the reply. The notes beside it,
/// on files that weren't included, are made before it is written. The files are read as for `check`,
/// the old ones first; the bytes of the new ones are counted apart.
///
/// # Errors
///
/// As for `run_over`.
fn diff_over<'a, F: Folder, O: Write>(
    resources: Resources,
    folder: &F,
    asked: &AskedVersions<'a>,
    max: usize,
    out: &mut Counted<O>,
) -> Result<Answer, Stop<'a>>
    requires { faults_of out.old < u64.MAX }
    ensures replies { IfOk result (λ answer. (text : List ℕ) × IsDiffReplyOver
        (F.holds folder.now) (map (λ name. name.now) asked.now.old.now)
        (map (λ name. name.now) asked.now.new.now) max text (outcome_of answer)
        × TakesWhole O.contents text out.old out.new) }
    ensures stops { IfErr result (λ stop. StopsDiff O.contents (F.holds folder.now)
        (F.may_fail folder.now) (map (λ name. name.now) asked.now.old.now)
        (map (λ name. name.now) asked.now.new.now) max stop out.old out.new) }
{
    alike_files_have_one_reply();
    alike_files_leave_out_the_same();
    let comments = comments_for(&CHECK, max);
    let Versions {
        old: before,
        new: after,
    } = match read_versions(resources.alloc, folder, asked, max, comments) {
        Ok(versions) => versions,
        Err(FileFault::CannotRead(name)) => return Err(Stop::CannotRead { name, label: None }),
        Err(FileFault::TooLong) => return reply(out, TOO_LONG, Status::Stopped),
        Err(FileFault::Memory) => return Err(Stop::Memory),
    };
    let old = plain_files(resources.alloc, &before)?;
    let new = plain_files(resources.alloc, &after)?;
    let compared = compared_versions(resources, &old, &new)?;
    let notes = compared.notes;
    noted_reply(out, &compared.reply, notes)
}

/// Tells which changes mend the proof of a theorem, or gives a file with lemmas, and writes the
/// reply. The notes beside it are made before it is written.
///
/// # Errors
///
/// As for `run_over`.
fn noted_over<'a, F: Folder, O: Write, P: Write>(
    resources: Resources,
    folder: &F,
    asked: Wanted<'_, 'a>,
    max: usize,
    out: &mut Counted<O>,
    progress: &mut ProgressLine<P>,
) -> Result<Answer, Stop<'a>>
    requires { faults_of out.old < u64.MAX }
    ensures replies { IfOk result (λ answer. (text : List ℕ) × IsNotedReplyOver
        (F.holds folder.now) (request_in asked.entry) max text (outcome_of answer)
        × TakesWhole O.contents text out.old out.new) }
    ensures stops { IfErr result (λ stop. StopsNoted O.contents (F.holds folder.now)
        (F.may_fail folder.now) (request_in asked.entry) max stop out.old out.new) }
    ensures unshown { StaysUnshown progress.old progress.new }
{
    let label = asked.label();
    let kept = Comments::Kept;
    let files = match read_files(resources.alloc, folder, asked.names(), max, kept) {
        Ok(files) => files,
        Err(FileFault::CannotRead(name)) => return Err(Stop::CannotRead { name, label }),
        Err(FileFault::TooLong) => return reply(out, TOO_LONG, Status::Stopped),
        Err(FileFault::Memory) => return Err(Stop::Memory),
    };
    let files = plain_files(resources.alloc, &files)?;
    let told = noted(resources, &files, asked, progress)?;
    let notes = told.notes;
    noted_reply(out, &told.reply, notes)
}

/// Does what the words ask for, and gives back what goes with the answer that was written.
fn answer<'a, F: Folder, O: Write, P: Write>(
    resources: Resources,
    folder: &F,
    texts: &Texts<'_>,
    words: &'a [&'a str],
    out: &mut Counted<O>,
    progress: &mut ProgressLine<P>,
) -> Result<Answer, Stop<'a>>
    requires { faults_of out.old < u64.MAX }
    ensures answers { IfOk result (λ answer. (text : _) × AnswersWords (F.holds folder.now)
        texts.now BYTE_LIMIT (map (λ word. word.now) words.entry.now) text (outcome_of answer)
        × TakesWhole O.contents text out.old out.new) }
    ensures stops { IfErr result (λ stop. Stops O.contents (F.holds folder.now)
        (F.may_fail folder.now) texts.now BYTE_LIMIT (map (λ word. word.now) words.entry.now)
        stop out.old out.new) }
    ensures unshown { StaysUnshown progress.old progress.new }
{
    let alloc = resources.alloc;
    match request_of(alloc, words)? {
        Request::Help(topic) => {
            let text = help_text(alloc, texts, topic)?;
            reply(out, text.as_bytes(), Status::Done)
        }
        Request::Version => reply(out, texts.version.as_bytes(), Status::Done),
        Request::Explain(asked) => {
            let text = explanation(alloc, texts, &asked)?;
            reply(out, text.as_bytes(), Status::Done)
        }
        Request::Run { command, names } => {
            match run_over(
                resources, folder, &command, &names, BYTE_LIMIT, out, progress,
            ) {
                Ok(answer) => Ok(answer),
                Err(stop) => Err(labelled(stop, asked_label(&command))),
            }
        }
        Request::Find(asked) => find_over(resources, folder, &asked, BYTE_LIMIT, out, progress),
        Request::Diff(asked) => diff_over(resources, folder, &asked, BYTE_LIMIT, out),
        Request::Mend(asked) => {
            let asked = Wanted::Mend(&asked);
            noted_over(resources, folder, asked, BYTE_LIMIT, out, progress)
        }
        Request::LemmaFile(asked) => {
            let asked = Wanted::LemmaFile(&asked);
            noted_over(resources, folder, asked, BYTE_LIMIT, out, progress)
        }
        Request::Text(asked) => {
            match text_over(resources, folder, &asked, BYTE_LIMIT, out, progress) {
                Ok(answer) => Ok(answer),
                Err(stop) => Err(labelled(stop, Some(asked.label.as_bytes()))),
            }
        }
    }
}

/// Writes a line to standard error. What becomes of it changes nothing.
fn say<E: Write>(err: &mut Counted<E>, line: &[u8])
    requires { faults_of err.old < u64.MAX }
    ensures { TellsLine E.contents line.now err.old err.new }
{
    let _ = err.write_all(line);
}

/// Writes notes to standard error, where there are any.
fn tell_notes<E: Write>(err: &mut Counted<E>, notes: &[u8])
    requires { faults_of err.old < u64.MAX }
    ensures { TellsNotes E.contents notes.now err.old err.new }
{
    if !notes.is_empty() {
        say(err, notes);
    }
}

/// Says on standard error why there is no answer, and gives back the status that goes with that.
/// It takes no memory.
pub(crate) fn tell<E: Write>(stop: &Stop<'_>, err: &mut Counted<E>) -> Status
    requires { faults_of err.old < u64.MAX }
    ensures status { result ≡ stop_status stop.now }
    ensures told { TellsLine E.contents (error_line stop.now) err.old err.new }
{
    match stop {
        Stop::Usage(text) => {
            say(err, text.as_bytes());
            Status::Usage
        }
        Stop::NotText => {
            say(err, NOT_TEXT);
            Status::Usage
        }
        Stop::CannotRead { name, label } => {
            let _ = tell_unread(err, name.as_bytes(), *label);
            Status::Stopped
        }
        Stop::CannotWrite => {
            say(err, CANNOT_WRITE);
            Status::Stopped
        }
        Stop::Memory => {
            say(err, OUT_OF_MEMORY);
            Status::Stopped
        }
    }
}

/// Runs the program over these words, the program's name first: reads the files that they name in
/// the folder, writes the answer to standard output, and to standard error why there is none, or
/// after a reply which of these files weren't included; and gives back the status with which the
/// program ends:
///
/// - 0: the reply is yes, or what was asked for: axioms, steps, a proof, help, version or an
///   explanation; or two proofs are the same;
/// - 1: the reply is no, or the asked label isn't that of a theorem, or two proofs or two versions
///   differ, or a text is no proof of the theorem;
/// - 2: the words aren't understood;
/// - 3: a proof is incomplete, in the database or among those that are asked about;
/// - 4: a file, a device, a limit or memory stood in the way.
///
/// It stops writing to either device at that one's first failed call. A failing standard error
/// changes no status. Progress is reported on a device of its own, where it is shown.
pub fn serve_words<F: Folder, O: Write, E: Write, P: Write>(
    resources: Resources,
    folder: &F,
    texts: &Texts<'_>,
    words: &[&str],
    out: &mut Counted<O>,
    err: &mut Counted<E>,
    progress: &mut ProgressLine<P>,
) -> u8
    requires out_faults { faults_of out.old < u64.MAX }
    requires err_faults { faults_of err.old < u64.MAX }
    ensures status { result ≤ 4 }
    ensures ends { Ends O.contents E.contents (F.holds folder.now) (F.may_fail folder.now) texts.now
        BYTE_LIMIT (map (λ word. word.now) words.entry.now) result out.old out.new err.old err.new }
    ensures unshown { StaysUnshown progress.old progress.new }
{
    match answer(resources, folder, texts, words, out, progress) {
        Ok(answer) => {
            tell_notes(err, answer.notes());
            progress.tell_hint();
            answer.status.number()
        }
        Err(stop) => {
            let status = tell(&stop, err);
            tell_reason(folder, &stop, progress);
            status.number()
        }
    }
}

/// The texts of the words.
fn texts_of(alloc: Global, words: &[String]) -> Result<Vec<&str>, AllocError>
    ensures { IfOk result (λ texts.
        map (λ text. text.now) texts.items ≡ map string_bytes words.now) }
{
    let mut texts = Vec::new(alloc);
    for word in words {
        texts.push(word.as_str())?;
    }
    Ok(texts)
}

/// Serves the words with which the program was started.
pub fn start<A: Arguments, F: Folder, O: Write, E: Write, P: Write>(
    resources: Resources,
    arguments: &A,
    folder: &F,
    texts: &Texts<'_>,
    out: &mut Counted<O>,
    err: &mut Counted<E>,
    progress: &mut ProgressLine<P>,
) -> u8
    requires out_faults { faults_of out.old < u64.MAX }
    requires err_faults { faults_of err.old < u64.MAX }
    ensures status { result ≤ 4 }
    ensures ends { ((words : _) × IfSome (A.words arguments.now) (λ all. words ≡ all)
        × Ends O.contents E.contents (F.holds folder.now) (F.may_fail folder.now) texts.now
        BYTE_LIMIT words result out.old out.new err.old err.new)
        ⊎ EndsWithoutWords E.contents (A.may_fail arguments.now) result
        out.old out.new err.old err.new }
    ensures unshown { StaysUnshown progress.old progress.new }
{
    let alloc = resources.alloc;
    let words = match arguments.words(alloc) {
        Ok(words) => words,
        Err(fault) => return tell(&Stop::from(fault), err).number(),
    };
    match texts_of(alloc, &words) {
        Ok(words) => serve_words(resources, folder, texts, &words, out, err, progress),
        Err(fault) => tell(&Stop::from(fault), err).number(),
    }
}
