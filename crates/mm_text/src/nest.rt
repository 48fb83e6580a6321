//! The files as they stand in one another: each handed file is put in where `$[ .. $]` names it
//! first.

ghost use Rattle.std.specs.Prelude.{◌≡◌, ◌<◌, ◌≤◌, length, map, codes, slice_index_or, None, Some};
ghost use Rattle.std.specs.Prelude.{IfOk, true, false};
ghost use Rattle.mm_base.specs.Token.{plain_token};
ghost use Rattle.mm_base.specs.MostBytes.{most_bytes};
ghost use Rattle.mm_text.specs.Files.{plain_file, total_bytes};
ghost use Rattle.mm_base.specs.Spelling.{spells};
ghost use Rattle.mm_text.specs.Items.{items};
ghost use Rattle.mm_text.specs.Mirror.Position.{IsPosition, IsSameFile};
ghost use Rattle.mm_text.specs.Mirror.Next.{TakesItem, TakesWord};
ghost use Rattle.mm_text.specs.Mirror.Nest.{TakesPiece, TakesInner, TakesName, Enters, Includes};
ghost use Rattle.mm_text.specs.Mirror.Nest.{IsNest, items_left, items_after};

use crate::class::{Class, class_of_dollar};
use crate::comments::{Position, Wrong, take_token, take_word};
use crate::fault::TextRule;
use crate::names::Names;
use crate::next::Next;
use mm_base::{File, Token};
use std::alloc::{AllocError, Global};

/// Whether a token is `$[`.
fn is_inclusion(text: &[u8]) -> bool
    ensures { result ≡ spells text.now (codes "$[") }
{
    matches!(text, b"$[")
}

/// Whether a token is `$]`.
fn is_inclusion_end(text: &[u8]) -> bool
    ensures { result ≡ spells text.now (codes "$]") }
{
    matches!(text, b"$]")
}

/// Takes the next token of a file outside comments, and tells what it is by its bytes alone.
#[inline(always)]
fn take_piece<'a>(position: &mut Position<'a>) -> Next<'a>
    requires { IsPosition position.old }
    ensures position { IsPosition position.new }
    ensures same { IsSameFile position.old position.new }
    ensures takes { TakesPiece position.old result position.new }
{
    match take_token(position) {
        Err(wrong) => Next::Token(wrong.token, Class::Wrong(wrong.rule)),
        Ok(None) => Next::End(position.file),
        Ok(Some((token, has_dollar))) => {
            if !has_dollar {
                return Next::Token(token, Class::Word);
            }
            if is_inclusion(token.text) {
                return Next::Inclusion(token);
            }
            Next::Token(token, class_of_dollar(token.text))
        }
    }
}

/// Takes the next token of an inclusion, which the file's end leaves unfinished. Tells whether it
/// holds a `$`.
fn take_inner<'a>(
    position: &mut Position<'a>,
    begin: Token<'a>,
) -> Result<(Token<'a>, bool), Wrong<'a>>
    requires position { IsPosition position.old }
    requires begin { begin.at < most_bytes }
    ensures position { IsPosition position.new }
    ensures same { IsSameFile position.old position.new }
    ensures takes { TakesInner (plain_token begin.entry) position.old result position.new }
{
    match take_token(position)? {
        Some(found) => Ok(found),
        None => Err(Wrong {
            rule: TextRule::X5,
            token: begin,
        }),
    }
}

/// Takes the name and the `$]` after a `$[`.
fn take_name<'a>(position: &mut Position<'a>, begin: Token<'a>) -> Result<Token<'a>, Wrong<'a>>
    requires position { IsPosition position.old }
    requires begin { begin.at < most_bytes }
    ensures position { IsPosition position.new }
    ensures same { IsSameFile position.old position.new }
    ensures takes { TakesName (plain_token begin.entry) position.old result position.new }
{
    let (name, has_dollar) = take_inner(position, begin)?;
    if has_dollar {
        return Err(Wrong {
            rule: TextRule::X5,
            token: name,
        });
    }
    let (close, _) = take_inner(position, begin)?;
    if !is_inclusion_end(close.text) {
        return Err(Wrong {
            rule: TextRule::X5,
            token: close,
        });
    }
    Ok(name)
}

/// The file that is read, and those in which it stands.
#[derive(Drop)]
pub struct Nest<'a> {
    pub files: &'a [File<'a>],
    pub names: Names<'a>,
    /// For each file, whether it was named before. The top file counts as named.
    pub named: Vec<bool>,
    /// The files that wait for the end of one that they include, the innermost last. There is room
    /// for all of them from the beginning, so that no inclusion asks for memory.
    pub open: Vec<Position<'a>>,
    pub position: Position<'a>,
    /// The `$[` of the inclusion that was begun.
    pub naming: Option<Token<'a>>,
    /// Whether the top file's end was met.
    pub is_over: bool,
}

impl<'a> Nest<'a> {
    /// The beginning of the top file.
    pub fn begin(
        alloc: Global,
        files: &'a [File<'a>],
        names: Names<'a>,
    ) -> Result<Nest<'a>, AllocError>
        requires some { 0 < length files.now }
        requires names { names ≡ map (λ f. f.name) (map plain_file files.now) }
        requires small { total_bytes (map plain_file files.now) ≤ most_bytes }
        ensures { IfOk result (λ n. IsNest n × (items_left n ≡ items (map plain_file files.now))) }
    {
        let mut named = vec![in alloc; false; files.len()]?;
        named[0] = true;
        let open = Vec::with_capacity(alloc, files.len() - 1)?;
        Ok(Nest {
            files,
            names,
            named,
            open,
            position: Position::begin(files[0].bytes, 0),
            naming: None,
            is_over: false,
        })
    }

    /// Goes into a file that is named for the first time, and keeps the position after its name.
    fn enter(&mut self, position: Position<'a>, number: usize)
        requires nest { IsNest self.old }
        requires over { self.old.is_over ≡ false }
        requires position { IsPosition position }
        requires known { number < length self.old.files.now }
        requires first { slice_index_or self.old.named.items number true ≡ false }
        ensures nest { IsNest self.new }
        ensures enters { Enters self.old position.entry number self.new }
    {
        let begin = Position::begin(self.files[number].bytes, number);
        let Ok(()) = self.open.push(position) else {
            // There is room for the positions of all files.
            unreachable!();
        };
        self.named[number] = true;
        self.position = begin;
        self.naming = None;
    }

    /// Finishes the inclusion that a `$[` begins: its file is gone into where it is named for the
    /// first time. Answers where the text is wrong.
    #[inline(never)]
    #[tactic(auto, using(crate::proofs::Inclusions::OpenFiles::nest_steps))]
    fn include(&mut self, begin: Token<'a>) -> Option<Wrong<'a>>
        requires nest { IsNest self.old }
        requires naming { self.old.naming ≡ Some begin }
        requires over { self.old.is_over ≡ false }
        ensures nest { IsNest self.new }
        ensures includes { Includes self.old result self.new }
    {
        let mut position = self.position;
        let name = match take_name(&mut position, begin) {
            Ok(name) => name,
            Err(wrong) => return Some(wrong),
        };
        let Some(number) = self.names.number(name.text) else {
            return Some(Wrong {
                rule: TextRule::X7,
                token: name,
            });
        };
        if self.named[number] {
            self.position = position;
            self.naming = None;
            return None;
        }
        self.enter(position, number);
        None
    }

    /// Goes back to the file in which the one that ended stands.
    #[inline(never)]
    #[tactic(auto, using(crate::proofs::Inclusions::OpenFiles::nest_steps))]
    fn leave(&mut self)
        requires nest { IsNest self.old }
        requires naming { self.old.naming ≡ None }
        requires over { self.old.is_over ≡ false }
        ensures nest { IsNest self.new }
        ensures leaves { items_left self.new ≡ items_after self.old }
    {
        match self.open.pop() {
            Some(position) => self.position = position,
            None => self.is_over = true,
        }
    }

    /// Takes the next item outside inclusions.
    #[inline(always)]
    #[tactic(auto, using(crate::proofs::Inclusions::OpenFiles::nest_steps))]
    fn take(&mut self) -> Next<'a>
        requires nest { IsNest self.old }
        requires naming { self.old.naming ≡ None }
        requires over { self.old.is_over ≡ false }
        ensures nest { IsNest self.new }
        ensures takes { TakesItem (items_left self.old) result (items_left self.new) }
    {
        let next = take_piece(&mut self.position);
        match next {
            Next::Inclusion(begin) => self.naming = Some(begin),
            Next::End(_) => self.leave(),
            Next::Token(_, _) => {}
            Next::Nothing => {}
        }
        next
    }

    /// Takes the next item where it is a word that is told at once; else takes nothing.
    #[inline(always)]
    #[tactic(auto, using(crate::proofs::Inclusions::OpenFiles::nest_steps))]
    pub fn word(&mut self) -> Option<Token<'a>>
        requires { IsNest self.old }
        ensures nest { IsNest self.new }
        ensures takes { TakesWord (items_left self.old) result (items_left self.new) }
    {
        if self.is_over || self.naming.is_some() {
            return None;
        }
        take_word(&mut self.position)
    }

    /// Takes the next item.
    #[inline(always)]
    pub fn next(&mut self) -> Next<'a>
        requires { IsNest self.old }
        ensures nest { IsNest self.new }
        ensures takes { TakesItem (items_left self.old) result (items_left self.new) }
    {
        if self.is_over {
            return Next::Nothing;
        }
        let Some(begin) = self.naming else {
            return self.take();
        };
        if let Some(wrong) = self.include(begin) {
            return Next::Token(wrong.token, Class::Wrong(wrong.rule));
        }
        self.take()
    }
}
