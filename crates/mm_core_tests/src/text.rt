//! The reader over small files.

use mm_base::{File, Kind, Seed, Statement, Token};
use mm_text::{
    LoadFault, LoadRule, Statements, TextFault, TextRule, WriteFault, alike_files_are_read_alike,
    one_reading, proof_spans_follow, proofs_stand_in_spans, replaced_proofs_are_read, shown_tokens,
};
use std::alloc::Global;
use std::test::Fail;

/// A small database: the first expressions of demo0.mm.
const FIRST: &[u8] = b"$c 0 + ( ) term $.\n\
$v t r $.\n\
tt $f term t $.\n\
tr $f term r $.\n\
tze $a term 0 $.\n\
tpl $a term ( t + r ) $.\n\
th $p term ( 0 + 0 ) $= tze tze tpl $.\n";

/// Blocks, and a file that is put in once. The last `$}` lacks its `${`.
const TOP: &[u8] = b"$[ b $] ${ e $e a $. $} $[ b $] $( $} $) $} $d x y $.";

/// A statement: its kind, the file and the position of its first token, how many symbols it has,
/// and the position of its proof.
struct Form(Kind, usize, u32, usize, (u32, u32));

const FIRST_FORMS: [Form; 7] = [
    Form(Kind::Constants, 0, 0, 5, (0, 0)),
    Form(Kind::Variables, 0, 19, 2, (0, 0)),
    Form(Kind::Floating, 0, 29, 2, (0, 0)),
    Form(Kind::Floating, 0, 45, 2, (0, 0)),
    Form(Kind::Axiom, 0, 61, 2, (0, 0)),
    Form(Kind::Axiom, 0, 78, 6, (0, 0)),
    Form(Kind::Provable, 0, 103, 6, (126, 139)),
];

const TOP_FORMS: [Form; 4] = [
    Form(Kind::Constants, 1, 0, 1, (0, 0)),
    Form(Kind::Opening, 0, 8, 0, (0, 0)),
    Form(Kind::Essential, 0, 11, 1, (0, 0)),
    Form(Kind::Closing, 0, 21, 0, (0, 0)),
];

/// A fault of the first file: its rule, its position, the number of its statement, and how long the
/// label of that is; 0 where there is none.
#[derive(Clone, Copy)]
struct Fault(TextRule, u32, usize, usize);

/// A text that is faulty in its first statement.
struct Case(&'static [u8], Fault);

fn has_form(statement: &Statement, form: &Form) -> bool {
    let Form(kind, file, at, symbols, span) = form;
    statement.kind == *kind
        && statement.first.file == *file
        && statement.first.at == *at
        && statement.symbols.len() == *symbols
        && statement.span == *span
}

fn is_empty(statement: &Statement) -> bool {
    statement.symbols.is_empty() && statement.proof.is_empty()
}

fn length_of(label: &Option<Token>) -> usize {
    match label {
        Some(token) => token.text.len(),
        None => 0,
    }
}

fn is_fault(answer: &Result<bool, TextFault>, fault: &Fault) -> bool {
    let Fault(wanted, index, number, length) = fault;
    match answer {
        Err(
            TextFault::Fault {
                rule,
                file,
                at,
                statement,
                label,
            },
        ) => {
            rule == wanted
                && *file == 0
                && at == index
                && statement == number
                && length_of(label) == *length
        }
        _ => false,
    }
}

/// Reads the next statement; `false` at the end.
fn read<'a>(statements: &mut Statements<'a>, into: &mut Statement<'a>) -> Result<bool, Fail> {
    Ok(statements.read(into)?)
}

/// Reads the next statements, which have these forms.
fn read_forms<'a>(
    statements: &mut Statements<'a>,
    into: &mut Statement<'a>,
    forms: &[Form],
) -> Result<(), Fail> {
    for form in forms {
        if !read(statements, into)? || !has_form(into, form) {
            return Err(Fail::from("another statement"));
        }
    }
    Ok(())
}

/// Reads as many statements.
fn read_next<'a>(
    statements: &mut Statements<'a>,
    into: &mut Statement<'a>,
    count: usize,
) -> Result<(), Fail> {
    for _ in 0..count {
        if !read(statements, into)? {
            return Err(Fail::from("a statement is wanting"));
        }
    }
    Ok(())
}

/// Whether a part is at this position of a text.
fn spans((start, end): (u32, u32), text: &[u8], part: &[u8]) -> bool {
    text.get(start as usize..end as usize) == Some(part)
}

/// Whether the statements are read, and the proof of the last one stands at its position.
fn reads_first<'a>(
    statements: &mut Statements<'a>,
    into: &mut Statement<'a>,
) -> Result<bool, Fail> {
    read_forms(statements, into, &FIRST_FORMS)?;
    Ok(into.proof.len() == 3 && spans(into.span, FIRST, b" tze tze tpl "))
}

#[test]
fn reads_a_database(rt: HostRuntime) -> Result<(), Fail> {
    let files = [File {
        name: b"first.mm",
        bytes: FIRST,
    }];
    let mut statements = Statements::new(rt.alloc(), Seed::known(), &files)?;
    let mut statement = Statement::empty(rt.alloc());
    let answer = reads_first(&mut statements, &mut statement);
    drop(statement);
    drop(statements);
    assert!(rt; answer?);
    Ok(())
}

/// Whether each of three calls after the last statement answers the end.
fn answers_the_end<'a>(
    statements: &mut Statements<'a>,
    into: &mut Statement<'a>,
) -> Result<bool, Fail> {
    read_next(statements, into, 7)?;
    for _ in 0..3 {
        if read(statements, into)? || !is_empty(into) {
            return Ok(false);
        }
    }
    Ok(true)
}

#[test]
fn answers_the_end_for_good(rt: HostRuntime) -> Result<(), Fail> {
    let files = [File {
        name: b"first.mm",
        bytes: FIRST,
    }];
    let mut statements = Statements::new(rt.alloc(), Seed::known(), &files)?;
    let mut statement = Statement::empty(rt.alloc());
    let answer = answers_the_end(&mut statements, &mut statement);
    drop(statement);
    drop(statements);
    assert!(rt; answer?);
    Ok(())
}

/// Whether each of six calls answers the fault, and leaves the statement empty.
fn answers_for_good<'a>(
    statements: &mut Statements<'a>,
    into: &mut Statement<'a>,
    fault: &Fault,
) -> bool {
    for _ in 0..6 {
        if !is_fault(&statements.read(into), fault) || !is_empty(into) {
            return false;
        }
    }
    true
}

/// Whether the first call, and each one after it, answers the fault of the text.
fn is_faulty(alloc: Global, case: &Case) -> Result<bool, Fail> {
    let Case(bytes, fault) = case;
    let files = [File { name: b"a", bytes }];
    let mut statements = Statements::new(alloc, Seed::known(), &files)?;
    let mut statement = Statement::empty(alloc);
    let answer = answers_for_good(&mut statements, &mut statement, fault);
    drop(statement);
    drop(statements);
    Ok(answer)
}

fn each_is_faulty(alloc: Global, cases: &[Case]) -> Result<(), Fail> {
    for case in cases {
        if !is_faulty(alloc, case)? {
            return Err(Fail::from("another answer"));
        }
    }
    Ok(())
}

// Each function names a short list, since the proof that a list is well formed grows with the
// square of its length.

#[test]
fn answers_faults_of_starts(rt: HostRuntime) -> Result<(), Fail> {
    const CASES: [Case; 7] = [
        Case(b"e $e a", Fault(TextRule::X8, 0, 1, 1)),
        Case(b"a ${ a", Fault(TextRule::S3, 2, 1, 1)),
        Case(b"$c ${ a", Fault(TextRule::S4, 3, 1, 0)),
        Case(b"$d a $.", Fault(TextRule::S5, 5, 1, 0)),
        Case(b"$}", Fault(TextRule::S6, 0, 1, 0)),
        Case(b"ab $[ a $]", Fault(TextRule::X6, 3, 1, 2)),
        Case(b"a $( b", Fault(TextRule::X2, 2, 1, 1)),
    ];
    each_is_faulty(rt.alloc(), &CASES)
}

#[test]
fn answers_faults_of_tokens(rt: HostRuntime) -> Result<(), Fail> {
    const CASES: [Case; 7] = [
        Case(b"$c a", Fault(TextRule::X8, 0, 1, 0)),
        Case(b" a", Fault(TextRule::X8, 1, 1, 1)),
        Case(b"$c a\x7f $.", Fault(TextRule::X1, 3, 1, 0)),
        Case(b"$c a $) $.", Fault(TextRule::X4, 5, 1, 0)),
        Case(b"ab $a a$ $.", Fault(TextRule::X9, 6, 1, 2)),
        Case(b"$f a b $.", Fault(TextRule::S1, 0, 1, 0)),
        Case(b"a# $a a $.", Fault(TextRule::S2, 0, 1, 0)),
    ];
    each_is_faulty(rt.alloc(), &CASES)
}

#[test]
fn answers_faults_of_forms(rt: HostRuntime) -> Result<(), Fail> {
    const CASES: [Case; 5] = [
        Case(b"a $c b $.", Fault(TextRule::S3, 2, 1, 1)),
        Case(b"p $p $.", Fault(TextRule::S4, 5, 1, 1)),
        Case(b"$c $=", Fault(TextRule::S4, 3, 1, 0)),
        Case(b"p $p $=", Fault(TextRule::S5, 5, 1, 1)),
        Case(b"f $f a b c $.", Fault(TextRule::S5, 9, 1, 1)),
    ];
    each_is_faulty(rt.alloc(), &CASES)
}

#[test]
fn answers_faults_of_comments(rt: HostRuntime) -> Result<(), Fail> {
    const CASES: [Case; 5] = [
        Case(b"$( open", Fault(TextRule::X2, 0, 1, 0)),
        Case(b"$[ a $( open", Fault(TextRule::X2, 5, 1, 0)),
        Case(b"$( a$) $)", Fault(TextRule::X3, 3, 1, 0)),
        Case(b"$( \x80$) $)", Fault(TextRule::X1, 3, 1, 0)),
        Case(b" $)", Fault(TextRule::X4, 1, 1, 0)),
    ];
    each_is_faulty(rt.alloc(), &CASES)
}

#[test]
fn answers_faults_of_inclusions(rt: HostRuntime) -> Result<(), Fail> {
    const CASES: [Case; 5] = [
        Case(b"$[ $]", Fault(TextRule::X5, 3, 1, 0)),
        Case(b"$[ a", Fault(TextRule::X5, 0, 1, 0)),
        Case(b"$[ b b", Fault(TextRule::X5, 5, 1, 0)),
        Case(b"$[ $( c $) b $] $c", Fault(TextRule::X7, 11, 1, 0)),
        Case(b"$( $a $) $[ a $] $x", Fault(TextRule::X9, 17, 1, 0)),
    ];
    each_is_faulty(rt.alloc(), &CASES)
}

/// Whether statements of these forms come before the fault.
fn reads_up_to<'a>(
    statements: &mut Statements<'a>,
    into: &mut Statement<'a>,
    forms: &[Form],
    fault: &Fault,
) -> Result<bool, Fail> {
    read_forms(statements, into, forms)?;
    Ok(answers_for_good(statements, into, fault))
}

#[test]
fn reads_blocks_and_files(rt: HostRuntime) -> Result<(), Fail> {
    let files = [
        File {
            name: b"a",
            bytes: TOP,
        },
        File {
            name: b"b",
            bytes: b"$c a $. $[ a $]",
        },
    ];
    let mut statements = Statements::new(rt.alloc(), Seed::known(), &files)?;
    let mut statement = Statement::empty(rt.alloc());
    let fault = Fault(TextRule::S6, 41, 5, 0);
    let answer = reads_up_to(&mut statements, &mut statement, &TOP_FORMS, &fault);
    drop(statement);
    drop(statements);
    assert!(rt; answer?);
    Ok(())
}

/// Whether so many statements come before the fault.
fn skips_up_to<'a>(
    statements: &mut Statements<'a>,
    into: &mut Statement<'a>,
    count: usize,
    fault: &Fault,
) -> Result<bool, Fail> {
    read_next(statements, into, count)?;
    Ok(answers_for_good(statements, into, fault))
}

#[test]
fn names_the_innermost_open_block(rt: HostRuntime) -> Result<(), Fail> {
    let files = [File {
        name: b"a",
        bytes: b"$c a $. ${ ${ ${ $} $v x $.",
    }];
    let mut statements = Statements::new(rt.alloc(), Seed::known(), &files)?;
    let mut statement = Statement::empty(rt.alloc());
    let fault = Fault(TextRule::S7, 11, 3, 0);
    let answer = skips_up_to(&mut statements, &mut statement, 6, &fault);
    drop(statement);
    drop(statements);
    assert!(rt; answer?);
    Ok(())
}

/// Whether the files break the rule as a whole.
fn is_refused(alloc: Global, files: &[File], wanted: LoadRule) -> bool {
    match Statements::new(alloc, Seed::known(), files).err() {
        Some(TextFault::Load(rule)) => rule == wanted,
        _ => false,
    }
}

#[test]
fn judges_the_files_first(rt: HostRuntime) {
    let file = File {
        name: b"a",
        bytes: b"$c a",
    };
    assert!(rt; is_refused(rt.alloc(), &[], LoadRule::F1));
    assert!(rt; is_refused(rt.alloc(), &[file, file], LoadRule::F2));
}

fn has_message(alloc: Global, fault: TextFault, message: &str) -> Result<bool, Fail> {
    let text = format!(in alloc; "{fault}")?;
    Ok(text.as_str() == message)
}

/// A fault of the second file.
const OF_SECOND_FILE: TextFault = TextFault::Fault {
    rule: TextRule::X9,
    file: 1,
    at: 8,
    statement: 2,
    label: Some(Token {
        text: b"th",
        file: 1,
        at: 3,
    }),
};

#[test]
fn faults_with_labels_have_messages(rt: HostRuntime) -> Result<(), Fail> {
    let message = "file 1, byte 8: statement 2 th breaks X9";
    assert!(rt; has_message(rt.alloc(), OF_SECOND_FILE, message)?);
    Ok(())
}

#[test]
fn faults_have_messages(rt: HostRuntime) -> Result<(), Fail> {
    let fault = TextFault::Fault {
        rule: TextRule::S6,
        file: 0,
        at: 0,
        statement: 1,
        label: None,
    };
    let message = "file 0, byte 0: statement 1 breaks S6";
    assert!(rt; has_message(rt.alloc(), fault, message)?);
    Ok(())
}

#[test]
fn faults_of_files_and_devices_have_messages(rt: HostRuntime) -> Result<(), Fail> {
    let of_files = TextFault::Load(LoadRule::F1);
    assert!(rt; has_message(rt.alloc(), of_files, "the files break F1")?);
    let text = format!(in rt.alloc(); "{}; {}", LoadFault::Device, WriteFault)?;
    assert!(rt; text.as_str() == "a read failed; a write failed");
    Ok(())
}

// The tokens outside comments, up to the first fault.
#[test]
fn tokens_stand_outside_comments(rt: HostRuntime) -> Result<(), Fail> {
    let shown = shown_tokens(rt.alloc(), b"$( a $) b$ $( c $)\nd $( open")?;
    let mut told = Vec::new(rt.alloc());
    for token in &shown.tokens {
        told.push((token.text, token.at))?;
    }
    assert!(rt; told.as_slice() == [(b"b$".as_slice(), 8), (b"d".as_slice(), 19)].as_slice());
    let at = shown.fault.map(|wrong| (wrong.rule, wrong.token.at));
    assert!(rt; at == Some((TextRule::X2, 21)));
    Ok(())
}

#[test]
fn laws_are_called() {
    one_reading();
    alike_files_are_read_alike();
    proofs_stand_in_spans();
    proof_spans_follow();
    replaced_proofs_are_read();
}
