//! What the words of `mm show` ask for.

ghost use Rattle.std.specs.Prelude.{List, Bool, IfOk, IfErr, IfSome, IfNone, codes};
ghost use Rattle.clap.specs.Words.{Text, found_of, rows_of};
ghost use Rattle.mm_words.specs.Words.{Asks, AsksRun, AsksShow, AsksTold, Commands};
ghost use Rattle.mm_words.specs.RefusedWords.{AreSeveral, IsWordFault};

use crate::command_line::{ESSENTIAL, FILES, KNOWN, LABEL, LETTERS, USES};
use crate::matches::{asked_word, is_given, values_of};
use crate::request::Request;
use crate::stop::Stop;
use clap::ArgMatches;
use mm_verdict::{LoneQuestion, Question, Telling};
use std::alloc::Global;

/// What is said where flags of `show` are given that exclude each other.
const SHOW_FLAGS: &str = "mm: --letters, --essential and --uses exclude each other
Usage: mm show [--known] [--letters | --essential | --uses] LABEL FILES..
";

/// What is told of each step by the flags that are given; none where two exclude each other.
fn telling_by(letters: bool, essential: bool, uses: bool) -> Option<Telling>
    ensures told { IfSome result (λ telling. (words : List Text) (label : Text) (known : Bool)
        (names : List Text) → AsksShow words label known letters essential uses names
        → AsksTold words label known telling names) }
    ensures none { IfNone result (AreSeveral letters essential uses) }
{
    match (letters, essential, uses) {
        (false, false, false) => Some(Telling::Steps),
        (true, false, false) => Some(Telling::Letters),
        (false, true, false) => Some(Telling::Uses { essential: true }),
        (false, false, true) => Some(Telling::Uses { essential: false }),
        _ => None,
    }
}

/// The command for the steps of the proof of the theorem with a label, told so; or for those that
/// pass.
fn show_command<'a>(label: &'a [u8], known: bool, telling: Telling) -> mm_verdict::Command<'a>
    ensures { (words names : List Text) → AsksTold words label.now known telling names
        → AsksRun words result names }
{
    if known {
        return mm_verdict::Command::Lone {
            label,
            question: LoneQuestion::Known(telling),
        };
    }
    let question = match telling {
        Telling::Steps => Question::Show,
        Telling::Letters => Question::Letters,
        Telling::Uses { essential } => Question::Uses { essential },
    };
    mm_verdict::Command::About { label, question }
}

/// What the matches of the command `show` ask for.
pub(crate) fn show_request<'a>(
    alloc: Global,
    matches: &ArgMatches<'a>,
) -> Result<Request<'a>, Stop<'a>>
    ensures request { IfOk result (λ request. (words : List Text)
        → Commands words (codes "show") (rows_of (found_of matches.now))
        → Asks words request) }
    ensures fault { IfErr result (λ stop. (words : List Text)
        → Commands words (codes "show") (rows_of (found_of matches.now))
        → IsWordFault words stop) }
{
    let label = asked_word(matches, LABEL).as_bytes();
    let known = is_given(matches, KNOWN);
    let letters = is_given(matches, LETTERS);
    let essential = is_given(matches, ESSENTIAL);
    let uses = is_given(matches, USES);
    let names = values_of(alloc, matches, FILES)?;
    match telling_by(letters, essential, uses) {
        Some(telling) => {
            let command = show_command(label, known, telling);
            Ok(Request::Run { command, names })
        }
        None => Err(Stop::Usage(format!(in alloc; "{SHOW_FLAGS}")?)),
    }
}
