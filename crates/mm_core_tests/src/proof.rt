//! Both stores, and the verdicts on proofs of small databases with either.

mod asked;
mod choices;
mod forms;
mod growths;
mod halts;
mod lacking;
mod places;
mod prefixes;
mod prover;
mod shorten;
mod small;
mod tokens;
mod wholes;

ghost use Rattle.std.specs.Prelude.{◌≡◌, ◌≤◌, ◌++◌, ◌∷◌, [], ℕ, length, IfOk, IfSome, OnOk};
ghost use Rattle.std.specs.List.{sum_by};
ghost use Rattle.mm_base.specs.Statement.{plain_statement, HasForm, bytes_in};
ghost use Rattle.mm_base.specs.declared.statement.Kind.TheVariants.{Provable};
ghost use Rattle.mm_base.specs.MostBytes.{most_bytes};
ghost use Rattle.mm_frame.specs.declared.answer.Taken.TheVariants.{Assertion};
ghost use Rattle.mm_frame.specs.Sentence.{Sentence, sentence_in};
ghost use Rattle.mm_frame.specs.Taken.{TakenAs};
ghost use Rattle.mm_step.specs.Steps.{IsProofNumber};
ghost use Rattle.mm_step.specs.Plain.{token_texts};

use crate::databases::{HEAD, LIMIT};
use mm_base::{File, Kind, Seed, Statement, Token};
use mm_frame::{Book, Found, LabelId, Piece, ShortPiece, Sym, Taken};
use mm_listing::{Line, Name, UsedSteps, listing, uses_of};
use mm_proof::{Parsed, Steps, verify};
use mm_proof_laws::{
    by_spelling, by_word, fewest_steps, limits_aside, made_by_word, one_fit, one_packed,
    one_prefix_verdict_under, one_tree, one_verdict_under, some_packed, steps_make_children,
    told_by_packed,
};
use mm_step::{Flat, Profile, ProofFault, ProofRule, Rows, Store, Used};
use mm_text::Statements;
use std::alloc::{AllocError, Global};
use std::process::Abort;
use std::test::Fail;

/// The most bytes of the tokens that a book takes.
const ROOM: u64 = 1_073_741_824;

/// Strings, and the joining of two of them, with a proof of 100 joinings: its word has 2^101 - 1
/// labels.
const JOINED: &[u8] = b"\
$c e $.
$v x y $.
fx $f e x $.
fy $f e y $.
nil $a e $.
cat $a e x y $.
th $p e $= ( nil cat )
AABZCBZDBZEBZFBZGBZHBZIBZJBZKBZLBZMBZNBZOBZPBZQBZRBZSBZTBZUA
BZUBBZUCBZUDBZUEBZUFBZUGBZUHBZUIBZUJBZUKBZULBZUMBZUNBZUOBZUP
BZUQBZURBZUSBZUTBZVABZVBBZVCBZVDBZVEBZVFBZVGBZVHBZVIBZVJBZVK
BZVLBZVMBZVNBZVOBZVPBZVQBZVRBZVSBZVTBZWABZWBBZWCBZWDBZWEBZWF
BZWGBZWHBZWIBZWJBZWKBZWLBZWMBZWNBZWOBZWPBZWQBZWRBZWSBZWTBZXA
BZXBBZXCBZXDBZXEBZXFBZXGBZXHBZXIBZXJBZXKBZXLBZXMBZXNBZXOBZXP
BZXQBZXRBZXSBZXTBZYAB $.
";

/// Strings, and the joining of two of them, with a proof that makes one joining and uses it twice.
const SHARED: &[u8] = b"\
$c e $.
$v x y $.
fx $f e x $.
fy $f e y $.
nil $a e $.
cat $a e x y $.
th $p e $= ( nil cat ) AABZCB $.
";

/// The assertions of the proofs of `t = t`.
const REFLEXIVE: [&[u8]; 7] = [b"tze", b"tpl", b"weq", b"wim", b"a1", b"a2", b"mp"];

/// A database up to its first `$p`, with the number and the proof's tokens of that.
#[derive(Drop)]
struct Theorem<'a> {
    book: Book<'a>,
    id: LabelId,
    tokens: Vec<Token<'a>>,
}

/// How many bytes some tokens have.
fn bytes_of_all(tokens: &[Token]) -> Option<u64>
    ensures { IfSome result (λ n. n ≡ sum_by (λ t. length t.text.now) tokens.now) }
{
    let mut bytes: u64 = 0;
    for token in tokens {
        bytes = bytes.checked_add(token.text.len() as u64)?;
    }
    Some(bytes)
}

/// How many bytes the tokens of a statement have.
fn bytes_of(statement: &Statement) -> Option<u64>
    ensures { IfSome result (λ n. n ≡ bytes_in (plain_statement statement.now)) }
{
    let first = statement.first.text.len() as u64;
    let symbols = bytes_of_all(&statement.symbols)?;
    let proof = bytes_of_all(&statement.proof)?;
    if first > ROOM || symbols > ROOM || proof > ROOM {
        return None;
    }
    Some(first + symbols + proof)
}

/// Takes the next statement in, where there is room for it.
fn take<'a>(book: &mut Book<'a>, statement: &Statement<'a>) -> Result<Taken, Fail>
    requires { HasForm (plain_statement statement.now) }
    ensures taken { IfOk result (λ taken. TakenAs book.old.statements statement.now.kind taken) }
    ensures book { IfOk result (λ taken. book.new.statements
        ≡ book.old.statements ++ sentence_in statement.now ∷ []) }
    ensures formed { IfOk result (λ taken. HasForm (plain_statement statement.now)) }
    ensures room { IfOk result (λ taken. bytes_in (plain_statement statement.now) ≤ most_bytes) }
{
    let bytes = bytes_of(statement).ok_or("a long statement")?;
    if book.bytes() > ROOM || bytes > ROOM - book.bytes() {
        return Err(Fail::from("a long database"));
    }
    if statement.kind == Kind::Closing && book.depth() == 0 {
        return Err(Fail::from("no block is open"));
    }
    Ok(book.take(statement)?)
}

/// Reads the next statement.
fn read_next<'a>(statements: &mut Statements<'a>, into: &mut Statement<'a>) -> Result<(), Fail>
    ensures { OnOk result (HasForm (plain_statement into.new)) }
{
    if statements.read(into)? {
        Ok(())
    } else {
        Err(Fail::from("no `$p`"))
    }
}

/// The number with which a statement was taken, if it is a `$p`.
fn theorem_number(kind: Kind, taken: Taken) -> Option<LabelId>
    ensures { IfSome result (λ id. (kind ≡ Provable) × (taken ≡ Assertion id)) }
{
    match (kind, taken) {
        (Kind::Provable, Taken::Assertion(id)) => Some(id),
        _ => None,
    }
}

/// Takes the next statements up to the first `$p`, and that too: its number.
fn take_theorem<'a>(
    statements: &mut Statements<'a>,
    book: &mut Book<'a>,
    into: &mut Statement<'a>,
) -> Result<LabelId, Fail>
    ensures proof { IfOk result (λ id. (index : ℕ) × (s : Sentence)
        × IsProofNumber book.new.statements id.0 index s) }
    ensures room { OnOk result (bytes_in (plain_statement into.new) ≤ most_bytes) }
{
    for _ in 0..u64::MAX {
        read_next(statements, into)?;
        let taken = take(book, into)?;
        if let Some(id) = theorem_number(into.kind, taken) {
            return Ok(id);
        }
    }
    Err(Fail::from("a long database"))
}

/// The tokens of the proof of a statement.
fn tokens_of<'a>(alloc: Global, statement: &Statement<'a>) -> Result<Vec<Token<'a>>, AllocError>
    requires { bytes_in (plain_statement statement.now) ≤ most_bytes }
    ensures { IfOk result (λ v. sum_by length (token_texts v.items) ≤ most_bytes) }
{
    let tokens = Vec::from_slice(alloc, &statement.proof)?;
    Ok(tokens)
}

/// A reader of a database.
fn reader<'a>(alloc: Global, files: &'a [File<'a>]) -> Result<Statements<'a>, Fail> {
    Ok(Statements::new(alloc, Seed::known(), files)?)
}

/// Takes the next statements up to the first `$p`, and that too: its number, and its proof.
fn take_proof<'a>(
    alloc: Global,
    statements: &mut Statements<'a>,
    book: &mut Book<'a>,
    into: &mut Statement<'a>,
) -> Result<(LabelId, Vec<Token<'a>>), Fail>
    ensures proof { IfOk result (λ taken. (index : ℕ) × (s : Sentence)
        × IsProofNumber book.new.statements taken.0.0 index s) }
    ensures room { IfOk result (λ taken. sum_by length (token_texts taken.1.items) ≤ most_bytes) }
{
    let id = take_theorem(statements, book, into)?;
    let tokens = tokens_of(alloc, into)?;
    Ok((id, tokens))
}

/// The first `$p` of the statements that are read.
fn theorem_from<'a>(
    alloc: Global,
    statements: &mut Statements<'a>,
    into: &mut Statement<'a>,
) -> Result<Theorem<'a>, Fail>
    ensures proof { IfOk result (λ t. (index : ℕ) × (s : Sentence)
        × IsProofNumber t.book.statements t.id.0 index s) }
    ensures room { IfOk result (λ t. sum_by length (token_texts t.tokens.items) ≤ most_bytes) }
{
    let mut book = Book::new(alloc, Seed::known())?;
    match take_proof(alloc, statements, &mut book, into) {
        Ok((id, tokens)) => Ok(Theorem { book, id, tokens }),
        Err(fail) => {
            drop(book);
            Err(fail)
        }
    }
}

/// The first `$p` of a database.
fn first_theorem<'a>(alloc: Global, files: &'a [File<'a>]) -> Result<Theorem<'a>, Fail>
    ensures proof { IfOk result (λ t. (index : ℕ) × (s : Sentence)
        × IsProofNumber t.book.statements t.id.0 index s) }
    ensures room { IfOk result (λ t. sum_by length (token_texts t.tokens.items) ≤ most_bytes) }
{
    let mut statements = reader(alloc, files)?;
    let mut statement = Statement::empty(alloc);
    let theorem = theorem_from(alloc, &mut statements, &mut statement);
    drop(statement);
    drop(statements);
    theorem
}

/// What the proof uses; nothing where it is incomplete.
fn proved<S: Store + Drop>(
    alloc: Global,
    store: S,
    theorem: &Theorem,
) -> Result<Option<Used>, ProofFault>
    requires proof { (index : ℕ) × (s : Sentence)
        × IsProofNumber theorem.now.book.statements theorem.now.id.0 index s }
    requires room { sum_by length (token_texts theorem.now.tokens.items) ≤ most_bytes }
    requires stack { S.stack store ≡ [] }
    requires kept { S.kept store ≡ [] }
{
    match Steps::parse(
        alloc,
        Profile::Lenient,
        &theorem.book,
        theorem.id,
        &theorem.tokens,
    )? {
        Parsed::Incomplete(_) => Ok(None),
        Parsed::Steps(steps) => {
            let used = verify(alloc, store, &theorem.book, theorem.id, &steps)?;
            Ok(Some(used))
        }
    }
}

/// Whether these are the names of what a proof uses.
fn has_names(theorem: &Theorem, used: &Used, names: &[&[u8]]) -> bool {
    for (id, name) in used.ids().iter().zip(names.iter()) {
        if theorem.book.label(*id) != *name {
            return false;
        }
    }
    used.ids().len() == names.len()
}

/// Whether the proof is complete, and uses these assertions.
fn is_proved_with<S: Store + Drop>(
    alloc: Global,
    store: S,
    theorem: &Theorem,
    names: &[&[u8]],
) -> Result<bool, Fail>
    requires proof { (index : ℕ) × (s : Sentence)
        × IsProofNumber theorem.now.book.statements theorem.now.id.0 index s }
    requires room { sum_by length (token_texts theorem.now.tokens.items) ≤ most_bytes }
    requires stack { S.stack store ≡ [] }
    requires kept { S.kept store ≡ [] }
{
    let used = proved(alloc, store, theorem)?.ok_or("incomplete")?;
    Ok(has_names(theorem, &used, names))
}

/// The bytes of the pieces, one after the other.
fn joined(alloc: Global, pieces: &[&[u8]]) -> Result<Vec<u8>, AllocError> {
    let mut bytes = Vec::new(alloc);
    for piece in pieces {
        bytes.extend_from_slice(piece)?;
    }
    Ok(bytes)
}

/// Whether either store proves the theorem with these assertions.
fn is_proved_by_both(alloc: Global, theorem: &Theorem, names: &[&[u8]]) -> Result<bool, Fail>
    requires proof { (index : ℕ) × (s : Sentence)
        × IsProofNumber theorem.now.book.statements theorem.now.id.0 index s }
    requires room { sum_by length (token_texts theorem.now.tokens.items) ≤ most_bytes }
{
    Ok(
        is_proved_with(alloc, Flat::new(alloc), theorem, names)?
            && is_proved_with(alloc, Rows::new(alloc), theorem, names)?,
    )
}

/// Whether the first `$p` of the database uses these assertions.
fn uses(alloc: Global, bytes: &[u8], names: &[&[u8]]) -> Result<bool, Fail> {
    let files = [File {
        name: b"a.mm",
        bytes,
    }];
    let theorem = first_theorem(alloc, &files)?;
    let answer = is_proved_by_both(alloc, &theorem, names);
    drop(theorem);
    answer
}

/// With either store the first `$p` of the pieces is proved, and uses these assertions.
fn expect_used(
    rt: &impl Abort,
    alloc: Global,
    pieces: &[&[u8]],
    names: &[&[u8]],
) -> Result<(), Fail> {
    let bytes = joined(alloc, pieces)?;
    assert!(rt; uses(alloc, &bytes, names)?);
    Ok(())
}

/// Whether the first `$p` of the database is incomplete.
fn is_unproved(alloc: Global, bytes: &[u8]) -> Result<bool, Fail> {
    let files = [File {
        name: b"a.mm",
        bytes,
    }];
    let theorem = first_theorem(alloc, &files)?;
    let used = proved(alloc, Flat::new(alloc), &theorem);
    drop(theorem);
    Ok(used?.is_none())
}

/// The first `$p` of the pieces is incomplete.
fn expect_incomplete(rt: &impl Abort, alloc: Global, pieces: &[&[u8]]) -> Result<(), Fail> {
    let bytes = joined(alloc, pieces)?;
    assert!(rt; is_unproved(alloc, &bytes)?);
    Ok(())
}

#[test]
fn unknown_steps(rt: HostRuntime) -> Result<(), Fail> {
    let alloc = rt.alloc();
    expect_incomplete(&rt, alloc, &[HEAD, b"u1 $p |- t = t $= ? $."])?;
    expect_incomplete(&rt, alloc, &[HEAD, b"u1 $p |- t = t $= ? ( $."])?;
    expect_incomplete(&rt, alloc, &[HEAD, b"u1 $p |- t = t $= ( ? tze ) A $."])
}

#[test]
fn normal_proof(rt: HostRuntime) -> Result<(), Fail> {
    let proof = b"th1 $p |- t = t $=
        tt tze tpl tt weq tt tt weq tt a2 tt tze tpl tt weq tt tze tpl tt weq tt
        tt weq wim tt a2 tt tze tpl tt tt a1 mp mp $.";
    expect_used(&rt, rt.alloc(), &[HEAD, proof], &REFLEXIVE)
}

#[test]
fn compressed_proof(rt: HostRuntime) -> Result<(), Fail> {
    let alloc = rt.alloc();
    let theorem = b"th1 $p |- t = t $= ( tze tpl weq a2 wim a1 mp ) ";
    let whole = b"ABCZADZAADZAEZJJKFLIAAGHH $.";
    expect_used(&rt, alloc, &[HEAD, theorem, whole], &REFLEXIVE)?;
    let cut = b"ABCZADZ AADZAE ZJJKF LIAAGHH $.";
    expect_used(&rt, alloc, &[HEAD, theorem, cut], &REFLEXIVE)
}

/// The steps of the proof.
fn listing_of(alloc: Global, theorem: &Theorem) -> Result<Vec<Line>, Fail>
    requires proof { (index : ℕ) × (s : Sentence)
        × IsProofNumber theorem.now.book.statements theorem.now.id.0 index s }
    requires room { sum_by length (token_texts theorem.now.tokens.items) ≤ most_bytes }
{
    match Steps::parse(
        alloc,
        Profile::Lenient,
        &theorem.book,
        theorem.id,
        &theorem.tokens,
    )? {
        Parsed::Steps(steps) => Ok(listing(alloc, &theorem.book, theorem.id, &steps)?),
        Parsed::Incomplete(_) => Err(Fail::from("incomplete")),
    }
}

/// The number of an assertion.
fn assertion(book: &Book, label: &[u8]) -> Result<LabelId, Fail> {
    match book.find(label) {
        Found::Assertion(id) => Ok(id),
        _ => Err(Fail::from("no assertion")),
    }
}

/// Whether these are lines of the names, each with the expression.
fn are_lines(lines: &[Line], names: &[Name], expression: &[Sym]) -> bool {
    for (line, name) in lines.iter().zip(names.iter()) {
        if line.name != *name || line.expression.as_slice() != expression {
            return false;
        }
    }
    lines.len() == names.len()
}

/// Whether these are the steps of the proof that makes one joining and uses it twice.
fn are_shared_steps(book: &Book, lines: &[Line]) -> Result<bool, Fail> {
    let nil = assertion(book, b"nil")?;
    let cat = Name::Label(assertion(book, b"cat")?);
    let names = [Name::Label(nil), Name::Label(nil), cat, Name::Step(3), cat];
    Ok(are_lines(lines, &names, book.expression(nil)))
}

/// Whether the steps of the theorem are those of that proof.
fn shares_a_step(alloc: Global, theorem: &Theorem) -> Result<bool, Fail>
    requires proof { (index : ℕ) × (s : Sentence)
        × IsProofNumber theorem.now.book.statements theorem.now.id.0 index s }
    requires room { sum_by length (token_texts theorem.now.tokens.items) ≤ most_bytes }
{
    let lines = listing_of(alloc, theorem)?;
    let answer = are_shared_steps(&theorem.book, &lines);
    drop(lines);
    answer
}

/// Whether the steps of the first `$p` of a database are those of that proof.
fn lists_shared_steps(alloc: Global, bytes: &[u8]) -> Result<bool, Fail> {
    let files = [File {
        name: b"cat.mm",
        bytes,
    }];
    let theorem = first_theorem(alloc, &files)?;
    let answer = shares_a_step(alloc, &theorem);
    drop(theorem);
    answer
}

/// The steps of the proof, with what each of them uses.
fn uses_in(alloc: Global, theorem: &Theorem) -> Result<UsedSteps, Fail>
    requires proof { (index : ℕ) × (s : Sentence)
        × IsProofNumber theorem.now.book.statements theorem.now.id.0 index s }
    requires room { sum_by length (token_texts theorem.now.tokens.items) ≤ most_bytes }
{
    let parsed = Steps::parse(
        alloc,
        Profile::Lenient,
        &theorem.book,
        theorem.id,
        &theorem.tokens,
    )?;
    match parsed {
        Parsed::Steps(steps) => Ok(uses_of(alloc, &theorem.book, theorem.id, &steps, false)?),
        Parsed::Incomplete(_) => Err(Fail::from("incomplete")),
    }
}

/// Whether the last step of the proof that makes one joining and uses it twice uses that one twice,
/// and isn't reached from the step by the tag.
fn links_steps(alloc: Global, theorem: &Theorem) -> Result<bool, Fail>
    requires proof { (index : ℕ) × (s : Sentence)
        × IsProofNumber theorem.now.book.statements theorem.now.id.0 index s }
    requires room { sum_by length (token_texts theorem.now.tokens.items) ≤ most_bytes }
{
    let used = uses_in(alloc, theorem)?;
    let reached = used.reached(alloc)?;
    let twice = match used.uses.last() {
        Some(last) => last.as_slice() == [3, 3].as_slice(),
        None => false,
    };
    let all = reached.as_slice() == [true, true, true, false, true].as_slice();
    let one = used.roots.as_slice() == [5].as_slice();
    let answer = twice && all && one && used.lines.len() == 5;
    drop(reached);
    drop(used);
    Ok(answer)
}

/// Whether the steps of the first `$p` of a database do.
fn links_shared_steps(alloc: Global, bytes: &[u8]) -> Result<bool, Fail> {
    let files = [File {
        name: b"cat.mm",
        bytes,
    }];
    let theorem = first_theorem(alloc, &files)?;
    let answer = links_steps(alloc, &theorem);
    drop(theorem);
    answer
}

#[test]
fn steps_are_linked(rt: HostRuntime) -> Result<(), Fail> {
    assert!(rt; links_shared_steps(rt.alloc(), SHARED)?);
    Ok(())
}

#[test]
fn steps_are_listed(rt: HostRuntime) -> Result<(), Fail> {
    assert!(rt; lists_shared_steps(rt.alloc(), SHARED)?);
    Ok(())
}

#[test]
fn nothing_is_expanded(rt: HostRuntime) -> Result<(), Fail> {
    expect_used(&rt, rt.alloc(), &[JOINED], &[b"nil", b"cat"])
}

/// Whether either store answers that the 21st step passes the limit.
fn passes_the_limit(alloc: Global, theorem: &Theorem) -> bool
    requires proof { (index : ℕ) × (s : Sentence)
        × IsProofNumber theorem.now.book.statements theorem.now.id.0 index s }
    requires room { sum_by length (token_texts theorem.now.tokens.items) ≤ most_bytes }
{
    let rule = ProofRule::L1;
    let passed = Some(ProofFault::Rule { rule, step: 21 });
    proved(alloc, Flat::new(alloc), theorem).err() == passed
        && proved(alloc, Rows::new(alloc), theorem).err() == passed
}

/// Whether the first `$p` of the database passes the limit so.
fn is_over_the_limit(alloc: Global, bytes: &[u8]) -> Result<bool, Fail> {
    let files = [File {
        name: b"limit.mm",
        bytes,
    }];
    let theorem = first_theorem(alloc, &files)?;
    let answer = passes_the_limit(alloc, &theorem);
    drop(theorem);
    Ok(answer)
}

#[test]
fn limit(rt: HostRuntime) -> Result<(), Fail> {
    let alloc = rt.alloc();
    let within = b"th $p f $= ( one odd end ) ABBBBBBBBBBBBBBBBBBBZDC $.";
    expect_used(&rt, alloc, &[LIMIT, within], &[b"one", b"odd", b"end"])?;
    let over = b"th $p f $= ( one odd end ) ABBBBBBBBBBBBBBBBBBBBZDC $.";
    let bytes = joined(alloc, &[LIMIT, over])?;
    assert!(rt; is_over_the_limit(alloc, &bytes)?);
    Ok(())
}

/// The calls of an empty store, one after the other.
fn expect_two_lists<S: Store + Drop>(rt: &impl Abort, mut store: S) -> Result<(), Fail>
    requires stack { S.stack store ≡ [] }
    requires kept { S.kept store ≡ [] }
{
    assert_eq!(rt; store.len(), 0);
    store.push(&[Sym(1), Sym(2)])?;
    store.keep()?;
    store.drop_last(1);
    store.push(&[Sym(3)])?;
    store.push_copy(0)?;
    assert_eq!(rt; store.len(), 2);
    assert_eq!(rt; store.at(0), [Sym(3)].as_slice());
    assert_eq!(rt; store.at(1), [Sym(1), Sym(2)].as_slice());
    store.drop_last(1);
    assert_eq!(rt; store.len(), 1);
    assert_eq!(rt; store.at(0), [Sym(3)].as_slice());
    Ok(())
}

/// A conclusion of the last of two entries takes its place, where it is within the limit.
fn expect_conclusion<S: Store + Drop>(rt: &impl Abort, mut store: S) -> Result<(), Fail>
    requires stack { S.stack store ≡ [] }
    requires kept { S.kept store ≡ [] }
{
    store.push(&[Sym(1)])?;
    store.push(&[Sym(2), Sym(3), Sym(4)])?;
    let Some(first) = ShortPiece::of(Piece::Symbol(Sym(5))) else {
        // The number of the symbol is below 2,147,483,648.
        unreachable!()
    };
    let Some(value) = ShortPiece::of(Piece::Value(0)) else {
        // The index is below 2,147,483,648.
        unreachable!()
    };
    let Some(last) = ShortPiece::of(Piece::Symbol(Sym(6))) else {
        // The number of the symbol is below 2,147,483,648.
        unreachable!()
    };
    assert!(rt; !store.conclude(1, &[first, value, last], 3)?);
    assert_eq!(rt; store.at(1), [Sym(2), Sym(3), Sym(4)].as_slice());
    assert!(rt; store.conclude(1, &[first, value, last], 4)?);
    assert_eq!(rt; store.len(), 2);
    assert_eq!(rt; store.at(0), [Sym(1)].as_slice());
    assert_eq!(rt; store.at(1), [Sym(5), Sym(3), Sym(4), Sym(6)].as_slice());
    Ok(())
}

/// An entry that is what pieces say, and one that they begin with, where a store tells it at once.
fn expect_said<S: Store + Drop>(rt: &impl Abort, mut store: S, is_told: bool) -> Result<(), Fail>
    requires stack { S.stack store ≡ [] }
    requires kept { S.kept store ≡ [] }
{
    store.push(&[Sym(1), Sym(2), Sym(3)])?;
    store.push(&[Sym(5), Sym(2), Sym(3)])?;
    store.push(&[Sym(5), Sym(2), Sym(3), Sym(3)])?;
    let Some(first) = ShortPiece::of(Piece::Symbol(Sym(5))) else {
        // The number of the symbol is below 2,147,483,648.
        unreachable!()
    };
    let Some(value) = ShortPiece::of(Piece::Value(0)) else {
        // The index is below 2,147,483,648.
        unreachable!()
    };
    let whole = store.is_said_there(0, &[first, value], 1);
    assert_eq!(rt; whole, if is_told { Some(true) } else { None });
    let begin = store.is_said_there(0, &[first, value], 2);
    assert_eq!(rt; begin, if is_told { Some(false) } else { None });
    assert_eq!(rt; store.at(0), [Sym(1), Sym(2), Sym(3)].as_slice());
    Ok(())
}

#[test]
fn stores(rt: HostRuntime) -> Result<(), Fail> {
    let alloc = rt.alloc();
    expect_two_lists(&rt, Flat::new(alloc))?;
    expect_two_lists(&rt, Rows::new(alloc))?;
    expect_conclusion(&rt, Flat::new(alloc))?;
    expect_conclusion(&rt, Rows::new(alloc))?;
    expect_said(&rt, Flat::new(alloc), true)?;
    expect_said(&rt, Rows::new(alloc), false)
}

#[test]
fn laws_are_called() {
    one_fit();
    one_tree();
    made_by_word();
    by_word();
    by_spelling();
    one_verdict_under();
    one_prefix_verdict_under();
    limits_aside();
}

#[test]
fn laws_of_fully_shared_proofs_are_called() {
    one_packed();
    some_packed();
    steps_make_children();
    fewest_steps();
    told_by_packed();
}
