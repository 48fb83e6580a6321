//! The commands, and their replies to a writer.

ghost use Rattle.std.specs.Prelude.{◌≡◌, ◌+◌, ◌<◌, ◌↔◌, map, IfOk, IsErrOf};
ghost use Rattle.mm_text.specs.Files.{plain_file};
ghost use Rattle.mm_text.specs.Device.{faults_of, inner_of};
ghost use Rattle.mm_rules.specs.Status.{number_of};
ghost use Rattle.mm_check.specs.Reply.{AsksHanded, IsAboutReply, IsReplyTo, Writes};
ghost use Rattle.mm_check.specs.Reply.{WritesBeginningOf};
ghost use Rattle.mm_check.specs.declared.command.RunFault.TheVariants.{Memory};

use crate::accepted::{Asked, checked_reply};
use crate::alone::lone_reply;
use crate::stated::statement_reply;
use crate::users::users_reply;
use crate::whole::{all_saved_reply, lemmas_reply, whole_reply};
use mm_base::{File, Seed};
use mm_find::{Sought, find_reply};
use mm_minimize::{SearchWatch, Wanted};
use mm_rules::Status;
use mm_step::Profile;
use mm_text::Counted;
use mm_verdict::{Command, LoneQuestion, Question, Reply, Unwatched, WholeQuestion};
use std::alloc::{AllocError, Global};
use std::io::Write;
use thiserror::Error;

/// Why a reply wasn't written, or not to its end.
#[derive(Clone, Copy, PartialEq, Eq, Debug, Drop, Error)]
pub enum RunFault {
    /// The writer failed: a beginning of the reply is written.
    #[error("the writer failed")]
    Device,
    /// A growth was refused: nothing is written.
    #[error("out of memory")]
    Memory,
}

impl From<AllocError> for RunFault {
    ghost from_gives = { λ _ e. e ≡ Memory };

    fn from(_e: AllocError) -> RunFault {
        RunFault::Memory
    }
}

/// The reply to a question about the statement with a label.
fn about_reply<W: SearchWatch>(
    alloc: Global,
    seed: Seed,
    files: &[File],
    label: &[u8],
    question: &Question,
    watch: &mut W,
) -> Result<Reply, AllocError>
    ensures { IfOk result (λ reply. IsAboutReply question.now (map plain_file files.now) label.now
        reply.text.items (number_of reply.status)) }
{
    match question {
        Question::Users { all } => users_reply(alloc, seed, files, label, *all, watch),
        _ => {
            let asked = Asked::About {
                label,
                question: *question,
            };
            checked_reply(alloc, seed, Profile::Lenient, files, asked, watch)
        }
    }
}

/// The reply to a command over the files, the first of which is the top file, before it is written.
/// Where shorter proofs are looked for in all of them, the watch is told after each theorem how far
/// this has come; where lemmas are, after each of them. Where shorter proofs are looked for at all,
/// it is told what that came to, and where a search for lemmas is broken off, that it is; where users
/// are told, also which proofs don't count.
pub fn reply_to<W: SearchWatch>(
    alloc: Global,
    seed: Seed,
    command: &Command,
    files: &[File],
    watch: &mut W,
) -> Result<Reply, AllocError>
    requires { AsksHanded (map plain_file files.now) command.now }
    ensures { IfOk result (λ reply. IsReplyTo (map plain_file files.now) command.now
        reply.text.items (number_of reply.status)) }
{
    match command {
        Command::Whole { profile, question } => {
            whole_reply(alloc, seed, files, *profile, *question, watch)
        }
        Command::About { label, question } => {
            about_reply(alloc, seed, files, label, question, watch)
        }
        Command::Lone { label, question } => lone_reply(alloc, seed, files, label, question),
        Command::Statement { label, comment } => {
            statement_reply(alloc, seed, files, label, *comment)
        }
        Command::File { form, file } => all_saved_reply(alloc, seed, files, *form, *file),
        Command::Shorter { file, duplicates } => {
            let asked = Asked::File(Wanted {
                number: *file,
                duplicates: *duplicates,
            });
            checked_reply(alloc, seed, Profile::Lenient, files, asked, watch)
        }
        Command::Lemmas { most, least } => {
            lemmas_reply(alloc, seed, files, *most, *least, watch)
        }
        Command::Find {
            patterns,
            whole,
            shape,
            hypotheses,
        } => {
            let sought = Sought {
                patterns: *patterns,
                whole: *whole,
                shape: *shape,
                hypotheses: *hypotheses,
            };
            find_reply(alloc, seed, files, &sought)
        }
    }
}

/// Runs a command over the files, the first of which is the top file: writes the text of the reply
/// and answers its status. The whole reply is made before its first byte is written.
///
/// # Errors
///
/// `Device` where the writer failed in this call, after a beginning of the reply; `Memory` where a
/// growth was refused, and then nothing is written.
pub fn run<W: Write>(
    alloc: Global,
    seed: Seed,
    command: &Command,
    files: &[File],
    out: &mut Counted<W>,
) -> Result<Status, RunFault>
    requires faults { faults_of out.old < u64.MAX }
    requires asks { AsksHanded (map plain_file files.now) command.now }
    ensures reply { IfOk result (λ status. Writes (map plain_file files.now) command.now
        (number_of status) (W.contents (inner_of out.old)) (W.contents (inner_of out.new))) }
    ensures device { IsErrOf result RunFault.Device → WritesBeginningOf
        (map plain_file files.now) command.now (W.contents (inner_of out.old))
        (W.contents (inner_of out.new)) }
    ensures memory { IsErrOf result RunFault.Memory → inner_of out.new ≡ inner_of out.old }
    ensures counted { IsErrOf result RunFault.Device ↔ (faults_of out.new ≡ faults_of out.old + 1) }
    ensures uncounted { ¬ IsErrOf result RunFault.Device → faults_of out.new ≡ faults_of out.old }
{
    let reply = reply_to(alloc, seed, command, files, &mut Unwatched)?;
    match out.write_all(&reply.text) {
        Ok(()) => Ok(reply.status),
        Err(_) => Err(RunFault::Device),
    }
}
