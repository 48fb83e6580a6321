//! Mandatory hypotheses, by numbers.

ghost use Rattle.std.specs.Prelude.{◌≡◌, option_map};
ghost use Rattle.mm_frame.specs.Pieces.{is_of};

use crate::number::{LabelId, Sym};
use crate::part::Part;

/// A mandatory hypothesis of an assertion. What each step by the assertion asks of it stands with
/// its label, so that nothing is looked up by the label.
#[derive(Clone, Copy, PartialEq, Eq, Debug)]
pub struct Hypothesis {
    pub id: LabelId,
    /// The type code and the variable of a `$f`; nothing of a `$e`.
    pub typing: Option<(Sym, Sym)>,
    /// Of a `$e`: where its pattern stands among the pieces.
    pub pattern: Part,
}

impl Hypothesis {
    // Whether it is the `$f` of the symbol.
    pub(crate) fn is_of(&self, symbol: Sym) -> bool
        ensures { result ≡ is_of symbol.0 (option_map (λ typing. typing.1.0) self.now.typing) }
    {
        match self.typing {
            Some((_, variable)) => variable.0 == symbol.0,
            None => false,
        }
    }
}
