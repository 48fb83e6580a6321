//! Statements as they are read.

ghost use Rattle.std.specs.Prelude.{◌≡◌, option_map};

use crate::token::Token;
use std::alloc::Global;

/// The nine kinds of statements (the Metamath book, section 4.1).
#[derive(Clone, Copy, PartialEq, Eq, Debug)]
pub enum Kind {
    /// `$c`: declares constants.
    Constants,
    /// `$v`: declares variables.
    Variables,
    /// `$d`: variables that are to stay distinct.
    Distinct,
    /// `$f`: a floating hypothesis, which gives a variable its type code.
    Floating,
    /// `$e`: an essential hypothesis.
    Essential,
    /// `$a`: an axiom.
    Axiom,
    /// `$p`: a provable assertion, with its proof.
    Provable,
    /// `${`: opens a block.
    Opening,
    /// `$}`: closes the innermost open block.
    Closing,
}

/// A statement, its tokens where they stand in the files.
#[derive(Drop)]
pub struct Statement<'a> {
    pub kind: Kind,
    /// The statement's first token: its label, or its keyword where it has none.
    pub first: Token<'a>,
    /// The label, of a `$f`, `$e`, `$a` or `$p`.
    pub label: Option<Token<'a>>,
    /// The symbols after the keyword.
    pub symbols: Vec<Token<'a>>,
    /// The tokens of the proof, of a `$p`.
    pub proof: Vec<Token<'a>>,
    /// The position of the bytes after the `$=` up to the `$.`, from the first one up to and
    /// without the last; `(0, 0)` where there is no proof.
    pub span: (u32, u32),
}

impl<'a> Statement<'a> {
    ghost use Rattle.mm_base.specs.Token.{plain_token};
    ghost use Rattle.mm_base.specs.Statement.{plain_statement};
    ghost use Rattle.mm_base.specs.Begun.{bare_statement};
    ghost use Rattle.mm_base.specs.Empty.{no_statement, without_tokens};

    /// A statement to read into, with empty lists. It takes no memory.
    pub fn empty(alloc: Global) -> Statement<'a>
        ensures { plain_statement result ≡ no_statement }
    {
        Statement {
            kind: Kind::Constants,
            first: Token {
                text: &[],
                file: 0,
                at: 0,
            },
            label: None,
            symbols: Vec::new(alloc),
            proof: Vec::new(alloc),
            span: (0, 0),
        }
    }

    /// Empties the lists, which keep their room.
    pub fn clear(&mut self)
        ensures { plain_statement self.new ≡ without_tokens (plain_statement self.old) }
    {
        self.symbols.clear();
        self.proof.clear();
    }

    /// Begins a statement, with no symbols yet. The lists keep their room.
    pub fn begin(&mut self, kind: Kind, first: Token<'a>, label: Option<Token<'a>>)
        ensures { plain_statement self.new
            ≡ bare_statement kind (plain_token first.entry) (option_map plain_token label.entry) }
    {
        self.clear();
        self.kind = kind;
        self.first = first;
        self.label = label;
        self.span = (0, 0);
    }
}
