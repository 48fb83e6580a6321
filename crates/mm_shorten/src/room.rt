//! How much a search may hold in memory.

ghost use Rattle.std.specs.Prelude.{◌<◌, ◌↔◌, IsTrue};

/// No list that a search makes gets more elements: conclusions that match patterns, what their
/// variables are bound to, where syntax stands in an expression, ways that are open, edges, and
/// steps that a hypothesis is missing for. What comes later is left out.
pub const MOST_HELD: usize = 1 << 20;

/// Whether a list with so many elements may get one more.
pub(crate) fn has_room(held: usize) -> bool
    ensures { IsTrue result ↔ (held < MOST_HELD) }
{
    held < MOST_HELD
}
