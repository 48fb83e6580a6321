//! The parts of a statement, each read from the cursor on.

ghost use Rattle.std.specs.Prelude.{◌≡◌, ◌≤◌, ◌<◌, ◌∷◌, true, false, Some, None, option_map};
ghost use Rattle.std.specs.Prelude.{length, codes};
ghost use Rattle.mm_base.specs.Spelling.{spells};
ghost use Rattle.mm_base.specs.Token.{plain_token, HoldsNoDollar};
ghost use Rattle.mm_text.specs.Mirror.Class.{keyword_bytes};
ghost use Rattle.mm_base.specs.Statement.{plain_statement};
ghost use Rattle.mm_text.specs.Items.{Plain};
ghost use Rattle.mm_text.specs.Mirror.Next.{items_with, IsOfClass};
ghost use Rattle.mm_text.specs.Mirror.Reader.{Between, Labelled, InBody, InProof, reading_of};
ghost use Rattle.mm_text.specs.Mirror.Reader.{has_count, is_full};
ghost use Rattle.mm_base.specs.Begun.{bare_statement};
ghost use Rattle.mm_base.specs.Statement.{is_provable};
ghost use Rattle.mm_text.specs.Mirror.Steps.{plain_scope, TakesWithin, TakesFirst, GivesPart};
ghost use Rattle.mm_text.specs.Mirror.Steps.{GivesFirst, GivesStatement, StepsTo, is_block_sign};
ghost use Rattle.mm_text.specs.Mirror.Steps.{ReadsOn};
ghost use Rattle.mm_text.specs.Mirror.Steps.{bare_kind, labelled_kind, ends_symbols};
ghost use Rattle.mm_base.specs.MostBytes.{most_bytes};

use crate::class::{Class, Keyword, is_label};
use crate::cursor::Cursor;
use crate::fault::{TextFault, TextRule};
use crate::next::Next;
use crate::scope::Scope;
use mm_base::{Kind, Statement, Token};

/// The kind of statement with symbols that begins with a keyword, without a label.
fn bare_kind(keyword: Keyword) -> Option<Kind>
    ensures { result ≡ bare_kind keyword }
{
    match keyword {
        Keyword::Constants => Some(Kind::Constants),
        Keyword::Variables => Some(Kind::Variables),
        Keyword::Distinct => Some(Kind::Distinct),
        _ => None,
    }
}

/// The kind of statement that begins with a label and a keyword.
fn labelled_kind(keyword: Keyword) -> Option<Kind>
    ensures { result ≡ labelled_kind keyword }
{
    match keyword {
        Keyword::Floating => Some(Kind::Floating),
        Keyword::Essential => Some(Kind::Essential),
        Keyword::Axiom => Some(Kind::Axiom),
        Keyword::Provable => Some(Kind::Provable),
        _ => None,
    }
}

/// Whether a keyword is `$.`.
fn is_stop(keyword: Keyword) -> bool
    ensures { result ≡ spells (keyword_bytes keyword) (codes "$.") }
{
    matches!(keyword, Keyword::Stop)
}

/// Whether a statement of a kind has a proof.
fn is_provable(kind: Kind) -> bool
    ensures { result ≡ is_provable kind }
{
    matches!(kind, Kind::Provable)
}

/// Whether a keyword ends the symbols of a kind of statement: `$=` those of a `$p`, `$.` others.
fn ends_symbols(kind: Kind, keyword: Keyword) -> bool
    ensures { result ≡ ends_symbols kind keyword }
{
    match keyword {
        Keyword::Equals => kind == Kind::Provable,
        Keyword::Stop => kind != Kind::Provable,
        _ => false,
    }
}

/// Whether a statement of a kind may have so many symbols.
fn has_count(kind: Kind, count: usize) -> bool
    ensures { result ≡ has_count kind count }
{
    match kind {
        Kind::Opening | Kind::Closing => count == 0,
        Kind::Floating => count == 2,
        Kind::Distinct => count >= 2,
        _ => count >= 1,
    }
}

/// Whether another symbol is one too many.
fn is_full(kind: Kind, count: usize) -> bool
    ensures { result ≡ is_full kind count }
{
    kind == Kind::Floating && count == 2
}

/// Takes the next token of a statement with this first token and this label, and tells which
/// keyword it is; none for a word. It is a call, as most words are taken before it is asked.
#[inline(never)]
fn token_within<'a>(
    cursor: &mut Cursor<'a>,
    scope: &Scope,
    first: Token<'a>,
    label: Option<Token<'a>>,
) -> Result<(Token<'a>, Option<Keyword>), TextFault<'a>>
    requires { scope.now.count ≤ most_bytes }
    ensures { TakesWithin (plain_scope scope.now) (plain_token first.entry)
        (option_map plain_token label.entry) cursor.old result cursor.new }
{
    match cursor.next() {
        Next::Token(token, class) => match class {
            Class::Wrong(rule) => Err(scope.fault(rule, token, label)),
            Class::Keyword(keyword) => Ok((token, Some(keyword))),
            Class::Word => Ok((token, None)),
        },
        Next::Inclusion(token) => Err(scope.fault(TextRule::X6, token, label)),
        Next::End(_) | Next::Nothing => Err(scope.fault(TextRule::X8, first, label)),
    }
}

/// Adds a token to the symbols of a statement.
fn add_symbol<'a>(
    into: &mut Statement<'a>,
    scope: &Scope,
    token: Token<'a>,
) -> Result<(), TextFault<'a>>
    requires word { HoldsNoDollar token.text.now }
    requires room { scope.now.count ≤ most_bytes }
    ensures { StepsTo (plain_scope scope.now) (InBody (plain_statement into.old))
        (plain_token token.entry) result (InBody (plain_statement into.new)) }
{
    if is_full(into.kind, into.symbols.len()) {
        return Err(scope.fault(TextRule::S5, token, into.label));
    }
    into.symbols.push(token)?;
    Ok(())
}

/// Adds a token to the proof of a statement.
#[tactic(auto, using(crate::proofs::Reader::OneToken::part_steps))]
fn add_to_proof<'a>(
    into: &mut Statement<'a>,
    scope: &Scope,
    token: Token<'a>,
) -> Result<(), TextFault<'a>>
    requires { HoldsNoDollar token.text.now }
    ensures { StepsTo (plain_scope scope.now) (InProof (plain_statement into.old))
        (plain_token token.entry) result (InProof (plain_statement into.new)) }
{
    into.proof.push(token)?;
    Ok(())
}

/// Adds the words that come next to the proof of a statement, as many as are told at once.
#[tactic(auto, using(crate::proofs::Reader::OneToken::part_steps))]
fn words_of_proof<'a>(
    cursor: &mut Cursor<'a>,
    into: &mut Statement<'a>,
    scope: &Scope,
) -> Result<(), TextFault<'a>>
    ensures reads { ReadsOn
        (reading_of (plain_scope scope.now) (InProof (plain_statement into.old)) cursor.old)
        result
        (reading_of (plain_scope scope.now) (InProof (plain_statement into.new)) cursor.new) }
    ensures fewer { length cursor.new ≤ length cursor.old }
{
    while let Some(word) = cursor.word() {
        add_to_proof(into, scope, word)?;
    }
    Ok(())
}

/// Reads the proof of a statement, of which everything up to the `$=` was read, and its `$.`.
#[tactic(auto, using(crate::proofs::Reader::OneToken::part_steps))]
fn proof<'a>(
    cursor: &mut Cursor<'a>,
    into: &mut Statement<'a>,
    scope: &Scope,
) -> Result<(), TextFault<'a>>
    requires { scope.now.count ≤ most_bytes }
    ensures { GivesPart (plain_scope scope.now)
        (reading_of (plain_scope scope.now) (InProof (plain_statement into.old)) cursor.old)
        result (plain_statement into.new) cursor.new }
{
    loop {
        words_of_proof(cursor, into, scope)?;
        let (token, sign) = token_within(cursor, scope, into.first, into.label)?;
        match sign {
            Some(keyword) => {
                if !is_stop(keyword) {
                    return Err(scope.fault(TextRule::S4, token, into.label));
                }
                into.span = (into.span.0, token.at);
                return Ok(());
            }
            None => add_to_proof(into, scope, token)?,
        }
    }
}

/// Reads on from a keyword after symbols.
fn after_symbols<'a>(
    cursor: &mut Cursor<'a>,
    into: &mut Statement<'a>,
    scope: &Scope,
    token: Token<'a>,
    keyword: Keyword,
) -> Result<(), TextFault<'a>>
    requires sign { token.text.now ≡ keyword_bytes keyword }
    requires at { token.at < most_bytes }
    requires room { scope.now.count ≤ most_bytes }
    ensures { GivesPart (plain_scope scope.now)
        (reading_of (plain_scope scope.now) (InBody (plain_statement into.old))
        (Plain (plain_token token.entry) ∷ cursor.old))
        result (plain_statement into.new) cursor.new }
{
    if !ends_symbols(into.kind, keyword) {
        return Err(scope.fault(TextRule::S4, token, into.label));
    }
    if !has_count(into.kind, into.symbols.len()) {
        return Err(scope.fault(TextRule::S5, token, into.label));
    }
    if is_provable(into.kind) {
        into.span = (token.at + 2, 0);
        return proof(cursor, into, scope);
    }
    Ok(())
}

/// Adds the words that come next to the symbols of a statement, as many as are told at once.
#[tactic(auto, using(crate::proofs::Reader::OneToken::part_steps))]
fn words_of_body<'a>(
    cursor: &mut Cursor<'a>,
    into: &mut Statement<'a>,
    scope: &Scope,
) -> Result<(), TextFault<'a>>
    requires { scope.now.count ≤ most_bytes }
    ensures reads { ReadsOn
        (reading_of (plain_scope scope.now) (InBody (plain_statement into.old)) cursor.old)
        result
        (reading_of (plain_scope scope.now) (InBody (plain_statement into.new)) cursor.new) }
    ensures fewer { length cursor.new ≤ length cursor.old }
{
    while let Some(word) = cursor.word() {
        add_symbol(into, scope, word)?;
    }
    Ok(())
}

/// Reads the symbols of a statement, of which everything up to its keyword was read, and what
/// follows them.
#[tactic(auto, using(crate::proofs::Reader::OneToken::part_steps))]
fn body<'a>(
    cursor: &mut Cursor<'a>,
    into: &mut Statement<'a>,
    scope: &Scope,
) -> Result<(), TextFault<'a>>
    requires { scope.now.count ≤ most_bytes }
    ensures { GivesPart (plain_scope scope.now)
        (reading_of (plain_scope scope.now) (InBody (plain_statement into.old)) cursor.old)
        result (plain_statement into.new) cursor.new }
{
    loop {
        words_of_body(cursor, into, scope)?;
        let (token, sign) = token_within(cursor, scope, into.first, into.label)?;
        match sign {
            Some(keyword) => return after_symbols(cursor, into, scope, token, keyword),
            None => add_symbol(into, scope, token)?,
        }
    }
}

/// Reads what follows a label.
fn after_label<'a>(
    cursor: &mut Cursor<'a>,
    into: &mut Statement<'a>,
    scope: &Scope,
    label: Token<'a>,
) -> Result<(), TextFault<'a>>
    requires { scope.now.count ≤ most_bytes }
    ensures { GivesPart (plain_scope scope.now)
        (reading_of (plain_scope scope.now) (Labelled (plain_token label.entry)) cursor.old)
        result (plain_statement into.new) cursor.new }
{
    let (token, sign) = token_within(cursor, scope, label, Some(label))?;
    let Some(keyword) = sign else {
        return Err(scope.fault(TextRule::S3, token, Some(label)));
    };
    match labelled_kind(keyword) {
        Some(kind) => {
            into.begin(kind, label, Some(label));
            body(cursor, into, scope)
        }
        None => Err(scope.fault(TextRule::S3, token, Some(label))),
    }
}

/// Reads a statement with symbols from its keyword on, which is its first token.
fn from_keyword<'a>(
    cursor: &mut Cursor<'a>,
    into: &mut Statement<'a>,
    scope: &Scope,
    first: Token<'a>,
    keyword: Keyword,
) -> Result<(), TextFault<'a>>
    requires sign { first.text.now ≡ keyword_bytes keyword }
    requires symbols { is_block_sign keyword ≡ false }
    requires room { scope.now.count ≤ most_bytes }
    ensures { GivesPart (plain_scope scope.now)
        (reading_of (plain_scope scope.now) Between (Plain (plain_token first.entry) ∷ cursor.old))
        result (plain_statement into.new) cursor.new }
{
    match bare_kind(keyword) {
        Some(kind) => {
            into.begin(kind, first, None);
            body(cursor, into, scope)
        }
        None => Err(scope.fault(TextRule::S1, first, None)),
    }
}

/// Reads a statement with symbols from a word on, which is its first token.
fn from_word<'a>(
    cursor: &mut Cursor<'a>,
    into: &mut Statement<'a>,
    scope: &Scope,
    first: Token<'a>,
) -> Result<(), TextFault<'a>>
    requires word { HoldsNoDollar first.text.now }
    requires room { scope.now.count ≤ most_bytes }
    ensures { GivesPart (plain_scope scope.now)
        (reading_of (plain_scope scope.now) Between (Plain (plain_token first.entry) ∷ cursor.old))
        result (plain_statement into.new) cursor.new }
{
    if is_label(first.text) {
        after_label(cursor, into, scope, first)
    } else {
        Err(scope.fault(TextRule::S2, first, None))
    }
}

/// Reads a statement from its first token on.
#[tactic(auto, using(crate::proofs::Reader::OneToken::part_steps))]
fn from_first<'a>(
    cursor: &mut Cursor<'a>,
    into: &mut Statement<'a>,
    scope: &mut Scope,
    first: Token<'a>,
    class: Class,
) -> Result<(), TextFault<'a>>
    requires class { IsOfClass (plain_token first) class }
    requires room { scope.now.count ≤ most_bytes }
    ensures { GivesFirst (plain_scope scope.old)
        (items_with (plain_token first.entry) class cursor.old)
        result (plain_statement into.new) (plain_scope scope.new) cursor.new }
{
    match class {
        Class::Wrong(rule) => Err(scope.fault(rule, first, None)),
        Class::Keyword(keyword) => match keyword {
            Keyword::Opening => {
                into.begin(Kind::Opening, first, None);
                scope.enter(first)
            }
            Keyword::Closing => {
                into.begin(Kind::Closing, first, None);
                if !scope.leave() {
                    return Err(scope.fault(TextRule::S6, first, None));
                }
                Ok(())
            }
            _ => {
                from_keyword(cursor, into, scope, first, keyword)?;
                scope.pass();
                Ok(())
            }
        },
        Class::Word => {
            from_word(cursor, into, scope, first)?;
            scope.pass();
            Ok(())
        }
    }
}

/// Takes the first token of the next statement, past inclusions and the ends of files; none where
/// nothing is left.
#[tactic(auto, using(crate::proofs::Reader::OneToken::part_steps))]
fn first_token<'a>(
    cursor: &mut Cursor<'a>,
    scope: &Scope,
) -> Result<Option<(Token<'a>, Class)>, TextFault<'a>>
    requires { scope.now.count ≤ most_bytes }
    ensures { TakesFirst (plain_scope scope.now) cursor.old result cursor.new }
{
    loop {
        match cursor.next() {
            Next::Token(token, class) => return Ok(Some((token, class))),
            Next::Inclusion(token) => {
                if !scope.is_closed() {
                    return Err(scope.fault(TextRule::X6, token, None));
                }
            }
            Next::End(file) => {
                if let Some(fault) = scope.end_fault(file) {
                    return Err(fault);
                }
            }
            Next::Nothing => return Ok(None),
        }
    }
}

/// Reads the next statement; `false` at the end.
pub fn statement<'a>(
    cursor: &mut Cursor<'a>,
    into: &mut Statement<'a>,
    scope: &mut Scope,
) -> Result<bool, TextFault<'a>>
    requires { scope.now.count ≤ most_bytes }
    ensures { GivesStatement (plain_scope scope.old) cursor.old
        result (plain_statement into.new) (plain_scope scope.new) cursor.new }
{
    let Some((first, class)) = first_token(cursor, scope)? else {
        return Ok(false);
    };
    from_first(cursor, into, scope, first, class)?;
    Ok(true)
}
