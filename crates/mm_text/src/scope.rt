//! The scope of a reader: how many statements it read, and the blocks that are open after them.

ghost use Rattle.std.specs.Prelude.{◌≡◌, ◌+◌, ◌≤◌};
ghost use Rattle.mm_base.specs.Token.{plain_token};
ghost use Rattle.mm_text.specs.Mirror.Reader.{Between, scope_after_statement, has_none, end_fault};
ghost use Rattle.mm_text.specs.Mirror.Reader.{outermost};
ghost use Rattle.mm_text.specs.Mirror.Steps.{plain_scope, Opens, Closes, TellsFault};
ghost use Rattle.mm_base.specs.MostBytes.{most_bytes};

use crate::fault::{TextFault, TextRule};
use mm_base::Token;
use std::alloc::Global;

/// A block that is open: where its `${` stands, and the number of that statement, from 1.
#[derive(Clone, Copy)]
pub struct OpenBlock {
    pub file: usize,
    pub at: u32,
    pub statement: usize,
}

/// How many statements were read, and the blocks that are open after them, the innermost one last.
#[derive(Drop)]
pub struct Scope {
    pub count: usize,
    pub blocks: Vec<OpenBlock>,
}

impl Scope {
    /// Before any statement. It takes no memory.
    pub fn new(alloc: Global) -> Scope
        ensures { plain_scope result ≡ outermost }
    {
        Scope {
            count: 0,
            blocks: Vec::new(alloc),
        }
    }

    /// The fault of a token, in the statement with this label that comes next.
    pub fn fault<'a>(
        &self,
        rule: TextRule,
        token: Token<'a>,
        label: Option<Token<'a>>,
    ) -> TextFault<'a>
        requires { self.now.count ≤ most_bytes }
        ensures { result ≡ TextFault.Fault rule token.entry.file token.entry.at
            (self.now.count + 1) label.entry }
    {
        TextFault::Fault {
            rule,
            file: token.file,
            at: token.at,
            statement: self.count + 1,
            label,
        }
    }

    /// Whether each block is closed.
    pub fn is_closed(&self) -> bool
        ensures { result ≡ has_none (plain_scope self.now).blocks }
    {
        self.blocks.is_empty()
    }

    /// The fault of a file that ends here, outside of statements: where it is the top file, at the
    /// innermost open block. None where each block is closed.
    pub fn end_fault<'a>(&self, file: usize) -> Option<TextFault<'a>>
        ensures { TellsFault (end_fault (plain_scope self.now) Between file) result }
    {
        if file != 0 {
            return None;
        }
        let block = self.blocks.last()?;
        Some(TextFault::Fault {
            rule: TextRule::S7,
            file: block.file,
            at: block.at,
            statement: block.statement,
            label: None,
        })
    }

    /// Takes in a statement with symbols.
    pub fn pass(&mut self)
        requires { self.now.count ≤ most_bytes }
        ensures { plain_scope self.new ≡ scope_after_statement (plain_scope self.old) }
    {
        self.count += 1;
    }

    /// Takes in a `${`.
    pub fn enter<'a>(&mut self, token: Token<'a>) -> Result<(), TextFault<'a>>
        requires { self.now.count ≤ most_bytes }
        ensures { Opens (plain_scope self.old) (plain_token token.entry)
            result (plain_scope self.new) }
    {
        self.blocks.push(OpenBlock {
            file: token.file,
            at: token.at,
            statement: self.count + 1,
        })?;
        self.count += 1;
        Ok(())
    }

    /// Takes in a `$}`; `false` where no block is open.
    pub fn leave(&mut self) -> bool
        requires { self.now.count ≤ most_bytes }
        ensures { Closes (plain_scope self.old) result (plain_scope self.new) }
    {
        if self.blocks.pop().is_none() {
            return false;
        }
        self.count += 1;
        true
    }
}
