//! Explains faults of the text.

ghost use Rattle.std.specs.Prelude.{◌≡◌, ◌++◌, List, [], map, not, true, option_map, Option, Some};
ghost use Rattle.std.specs.Prelude.{IfErr, IfOk, OnOk, if◌then◌else◌};
ghost use Rattle.std.specs.List.{prefix_len};
ghost use Rattle.mm_base.specs.Token.{plain_token, is_space as is_white_space};
ghost use Rattle.mm_base.specs.Statement.{PlainStatement, plain_statement};
ghost use Rattle.mm_base.specs.Blocks.{is_closing};
ghost use Rattle.mm_text.specs.Files.{plain_file};
ghost use Rattle.mm_text.specs.Reading.{PlainFault, Reads};
ghost use Rattle.mm_rules.specs.Answer.{plain_refusal};
ghost use Rattle.mm_facts.specs.Explained.{Detail, details_text};
ghost use Rattle.mm_explain.specs.Mirror.Last.{IsBegin, IsTextRefusal, TellsOrigins};
ghost use Rattle.mm_explain.specs.Mirror.Last.{IsOpenBlock, is_of_text};
ghost use Rattle.mm_rules.specs.declared.rule.Rule.TheVariants.{Text};
ghost use Rattle.mm_explain.specs.TextFacts.{AreTextFacts, blocks_closed, closing_tokens, last_of};
ghost use Rattle.mm_explain.specs.TextFacts.{blocks_opened, missing_facts, missing as missing_of};
ghost use Rattle.mm_explain.specs.TextFacts.{is_labelled as is_labelled_of};
ghost use Rattle.mm_explain.specs.TextFacts.{files_up_to as files_up_to_of, places_begun};
ghost use Rattle.mm_explain.specs.TextFacts.{is_of_unclosed as is_of_unclosed_at};
ghost use Rattle.mm_explain.specs.TextFacts.{unclosed_in as unclosed_in_of};
ghost use Rattle.mm_explain.specs.TextFacts.{token_from as token_from_of};
ghost use Rattle.mm_rules.specs.Verdict.{CanBeRead, text_refusal};

use crate::conflict::OpenBlocks;
use crate::place_lines::{push_begun, push_last_closed};
use crate::source::push_open_block;
use mm_base::{File, Kind, Seed, Statement, Token};
use mm_facts::{push_missing_before, push_token};
use mm_rules::{Refusal, Rule, bytes_before, bytes_from, bytes_of};
use mm_text::{Passing, Statements, TextFault, TextRule, pass_all};
use mm_verdict::is_space;
use std::alloc::{AllocError, Global};

/// How many bytes stand before the first white space.
fn token_len(bytes: &[u8]) -> usize
    ensures { result ≡ prefix_len (λ b. not (is_white_space b)) bytes.now }
{
    bytes.iter().take_while(|byte| !is_space(**byte)).count()
}

/// The token that begins at a position.
fn token_from(bytes: &[u8], at: usize) -> &[u8]
    ensures { result.now ≡ token_from_of bytes.now at }
{
    let rest = bytes_from(bytes, at);
    bytes_before(rest, token_len(rest))
}

/// The files, that with the number up to a position alone.
fn files_up_to<'a>(
    alloc: Global,
    files: &[File<'a>],
    file: usize,
    at: usize,
) -> Result<Vec<File<'a>>, AllocError>
    ensures { IfOk result (λ cut. map plain_file cut.items
        ≡ files_up_to_of (map plain_file files.now) file at) }
{
    let mut cut = Vec::from_slice(alloc, files)?;
    if file < cut.len() {
        let whole = cut[file];
        cut[file] = File {
            name: whole.name,
            bytes: bytes_before(whole.bytes, at),
        };
    }
    Ok(cut)
}

/// Whether a rule is broken where a comment, an inclusion or a statement isn't closed at the end of
/// its file.
fn is_of_unclosed(rule: TextRule) -> bool
    ensures { result ≡ is_of_unclosed_at rule }
{
    matches!(rule, TextRule::X2 | TextRule::X5 | TextRule::X8)
}

/// The token of a statement that is a `$}`, else the one before.
fn closed_by<'a>(statement: &Statement<'a>, before: Option<Token<'a>>) -> Option<Token<'a>>
    ensures { option_map plain_token result
        ≡ (if is_closing (plain_statement statement.now).kind
        then Some (plain_statement statement.now).first else option_map plain_token before.entry) }
{
    match statement.kind {
        Kind::Closing => Some(statement.first),
        _ => before,
    }
}

/// The token of the last `$}` of some statements.
#[derive(Drop)]
struct LastClosed<'a> {
    token: Option<Token<'a>>,
}

impl<'a> Passing<'a> for LastClosed<'a> {
    ghost has_passed = { λ first now passed.
        option_map plain_token now.token ≡ last_of (closing_tokens passed) };

    fn pass(&mut self, statement: &Statement<'a>) -> Result<(), AllocError> {
        self.token = closed_by(statement, self.token);
        Ok(())
    }
}

/// The token of the last `$}` of the files.
fn last_closed<'a>(
    alloc: Global,
    seed: Seed,
    files: &'a [File<'a>],
) -> Result<Option<Token<'a>>, AllocError>
    requires { CanBeRead (map plain_file files.now) }
    ensures { IfOk result (λ closed. (statements : List PlainStatement)
        (ending : Option PlainFault) → Reads (map plain_file files.now) statements ending
        → option_map plain_token closed ≡ last_of (closing_tokens statements)) }
{
    let mut closed = LastClosed { token: None };
    pass_all(alloc, seed, files, &mut closed)?;
    Ok(closed.token)
}

/// Reads what is left, up to the end or to the fault.
fn read_out<'a>(statements: &mut Statements<'a>, into: &mut Statement<'a>) -> Result<(), AllocError>
    ensures none { OnOk result (statements.new.statements ≡ []) }
    ensures ending { OnOk result (statements.new.ending ≡ statements.old.ending) }
{
    while statements.more(into)? {}
    Ok(())
}

/// Where began what isn't closed at the end of a file, by the fault that comes next, or by the end.
fn unclosed_in<'a>(
    statements: &mut Statements<'a>,
    into: &mut Statement<'a>,
    file: usize,
) -> Result<Option<usize>, AllocError>
    requires { statements.old.statements ≡ [] }
    ensures begin { IfOk result (λ begin. begin ≡ unclosed_in_of file statements.old.ending) }
    ensures memory { IfErr result (λ fault. statements.new.refused ≡ true) }
{
    match statements.read(into) {
        Err(
            TextFault::Fault {
                rule,
                file: there,
                at,
                ..
            },
        ) => {
            if there == file && is_of_unclosed(rule) {
                Ok(Some(at as usize))
            } else {
                Ok(None)
            }
        }
        Err(TextFault::Memory) => Err(AllocError),
        Ok(false) => Ok(None),
        // No statement is left, and the files are read.
        Ok(true) | Err(TextFault::Load(_)) => unreachable!(),
    }
}

/// Where the comment, the inclusion or the statement began in which a position of a file stands, if
/// it stands in one. The files are read once more, that one up to there.
fn begin_before<'a>(
    alloc: Global,
    seed: Seed,
    files: &[File<'a>],
    file: usize,
    at: usize,
) -> Result<Option<usize>, AllocError>
    requires { CanBeRead (map plain_file files.now) }
    ensures { IfOk result (IsBegin (map plain_file files.now) file at) }
{
    let cut = files_up_to(alloc, files, file, at)?;
    let mut statements = Statements::of_readable(alloc, seed, &cut)?;
    let mut statement = Statement::empty(alloc);
    read_out(&mut statements, &mut statement)?;
    unclosed_in(&mut statements, &mut statement, file)
}

/// The token of the innermost block of the files that is open where their text ends, or its fault
/// comes, if one is open there.
fn open_block<'a>(
    alloc: Global,
    seed: Seed,
    files: &'a [File<'a>],
) -> Result<Option<Token<'a>>, AllocError>
    requires { CanBeRead (map plain_file files.now) }
    ensures { IfOk result (λ block. (statements : List PlainStatement)
        (ending : Option PlainFault) → Reads (map plain_file files.now) statements ending
        → IsOpenBlock statements block) }
{
    let mut open = OpenBlocks {
        blocks: Vec::new(alloc),
    };
    pass_all(alloc, seed, files, &mut open)?;
    Ok(open.blocks.pop())
}

/// Where what isn't closed in a file began, if such is there.
fn push_begin(
    out: &mut Vec<u8>,
    files: &[File],
    file: usize,
    begin: Option<usize>,
) -> Result<(), AllocError>
    ensures { OnOk result (out.new.items ≡ out.old.items
        ++ details_text (places_begun (map plain_file files.now) file begin)) }
{
    match begin {
        Some(at) => push_begun(out, files, file, at),
        None => Ok(()),
    }
}

/// Where an open block begins, if there is one.
fn push_opened(
    out: &mut Vec<u8>,
    files: &[File],
    block: Option<Token>,
    source: bool,
) -> Result<(), AllocError>
    ensures { OnOk result (out.new.items ≡ out.old.items
        ++ details_text (blocks_opened source (map plain_file files.now)
        (option_map plain_token block.entry))) }
{
    match block {
        Some(token) => push_open_block(out, files, token, source),
        None => Ok(()),
    }
}

/// Where the last block before a fault is closed.
fn push_block(out: &mut Vec<u8>, files: &[File], closed: Option<Token>) -> Result<(), AllocError>
    ensures { OnOk result (out.new.items ≡ out.old.items
        ++ details_text (blocks_closed (map plain_file files.now)
        (option_map plain_token closed.entry))) }
{
    match closed {
        Some(closed) => push_last_closed(out, files, closed.file, closed.at as usize),
        None => Ok(()),
    }
}

/// The rule of a fault of the text.
fn rule_in(refusal: &Refusal) -> TextRule
    requires { is_of_text refusal.now.rule ≡ true }
    ensures { Text result ≡ refusal.now.rule }
{
    match refusal.rule {
        Rule::Text(rule) => rule,
        // The text has the fault.
        _ => unreachable!(),
    }
}

/// Where what the fault stands in began.
fn push_origins<'a>(
    out: &mut Vec<u8>,
    alloc: Global,
    seed: Seed,
    files: &'a [File<'a>],
    refusal: &Refusal,
    source: bool,
) -> Result<(), AllocError>
    requires { IsTextRefusal (map plain_file files.now) (plain_refusal refusal.now) }
    ensures { OnOk result ((statements : List PlainStatement) (fault : PlainFault)
        → Reads (map plain_file files.now) statements (Some fault)
        → plain_refusal refusal.now ≡ text_refusal (map plain_file files.now) fault
        → TellsOrigins source (map plain_file files.now) statements fault out.old.items
        out.new.items) }
{
    match rule_in(refusal) {
        TextRule::S6 => {
            let closed = last_closed(alloc, seed, files)?;
            push_block(out, files, closed)
        }
        TextRule::X6 => {
            let begin = begin_before(alloc, seed, files, refusal.file, refusal.at)?;
            push_begin(out, files, refusal.file, begin)?;
            let block = open_block(alloc, seed, files)?;
            push_opened(out, files, block, source)
        }
        _ => {
            let begin = begin_before(alloc, seed, files, refusal.file, refusal.at)?;
            push_begin(out, files, refusal.file, begin)
        }
    }
}

/// Whether the token is the keyword of a statement that has a label.
fn is_labelled(token: &[u8]) -> bool
    ensures { result ≡ is_labelled_of token.now }
{
    token == b"$f".as_slice()
        || token == b"$e".as_slice()
        || token == b"$a".as_slice()
        || token == b"$p".as_slice()
}

/// What is missing before the token at which the rule is broken, where the two tell that.
fn missing(rule: TextRule, token: &[u8]) -> Option<&'static [u8]>
    ensures { option_map (λ what. what.now) result ≡ missing_of rule token.now }
{
    match rule {
        TextRule::S1 => {
            if is_labelled(token) {
                Some(b"a label")
            } else {
                None
            }
        }
        TextRule::S4 => {
            if token == b"$.".as_slice() {
                Some(b"$=")
            } else if token == b"$=".as_slice() {
                None
            } else {
                Some(b"$.")
            }
        }
        _ => None,
    }
}

/// That fact.
fn push_missing(out: &mut Vec<u8>, rule: TextRule, token: &[u8]) -> Result<(), AllocError>
    ensures { OnOk result (out.new.items ≡ out.old.items
        ++ details_text (missing_facts rule token.now)) }
{
    match missing(rule, token) {
        Some(what) => push_missing_before(out, what),
        None => Ok(()),
    }
}

/// The facts that explain the refusal for a fault of the text, and the position that is reported.
pub(crate) fn text_facts<'a>(
    alloc: Global,
    seed: Seed,
    files: &'a [File<'a>],
    refusal: &Refusal,
    source: bool,
) -> Result<(usize, Vec<u8>), AllocError>
    requires { IsTextRefusal (map plain_file files.now) (plain_refusal refusal.now) }
    ensures { IfOk result (λ told. (details : List Detail)
        × AreTextFacts source (map plain_file files.now) (plain_refusal refusal.now) told.0 details
        × (told.1.items ≡ details_text details)) }
{
    let mut out = Vec::new(alloc);
    let bytes = bytes_of(files, refusal.file);
    let token = token_from(bytes, refusal.at);
    push_token(&mut out, token)?;
    push_missing(&mut out, rule_in(refusal), token)?;
    push_origins(&mut out, alloc, seed, files, refusal, source)?;
    Ok((refusal.at, out))
}
