//! What a step by an assertion asks of it.

ghost use Rattle.std.specs.Prelude.{◌≡◌, ◌≤◌, MatchOption, length, slice_range};
ghost use Rattle.mm_frame.specs.Pieces.{variables_of, IsNowhere, IsFirstAt};

use crate::distinct::DistinctPair;
use crate::hypothesis::Hypothesis;
use crate::number::Sym;
use crate::part::part_of;
use crate::piece::ShortPiece;

/// What a step by an assertion asks of it: its signature, of which the step makes an
/// instance (the Metamath book, section 4.1.4).
#[derive(Clone, Copy)]
pub struct Signature<'b> {
    /// The mandatory hypotheses, in database order.
    pub hypotheses: &'b [Hypothesis],
    /// The mandatory distinct pairs, each once.
    pub pairs: &'b [DistinctPair],
    /// The pattern of the assertion.
    pub conclusion: &'b [ShortPiece],
    /// The list in which the patterns of the `$e` are parts.
    pub pieces: &'b [ShortPiece],
}

impl<'b> Signature<'b> {
    /// The pattern of one of this signature's hypotheses that is a `$e`.
    pub fn pattern(&self, hypothesis: &Hypothesis) -> &'b [ShortPiece]
        ensures { hypothesis.now.pattern.start ≤ hypothesis.now.pattern.end
            → hypothesis.now.pattern.end ≤ length self.now.pieces.now
            → result.now ≡ slice_range self.now.pieces.now hypothesis.now.pattern.start
            hypothesis.now.pattern.end }
    {
        part_of(self.pieces, hypothesis.pattern)
    }
}

/// The index of the `$f` of a variable among hypotheses.
pub fn index_of(hypotheses: &[Hypothesis], symbol: Sym) -> Option<usize>
    ensures { MatchOption
        result
        (IsNowhere symbol.0 (variables_of hypotheses.now))
        (λ index. IsFirstAt symbol.0 (variables_of hypotheses.now) index) }
{
    for (index, hypothesis) in hypotheses.iter().enumerate() {
        if hypothesis.is_of(symbol) {
            return Some(index);
        }
    }
    None
}
