//! Where the moves of a proof stop, with what tells the steps that made the entries there.

ghost use Rattle.std.specs.Prelude.{◌≡◌, length};

use mm_listing::Halt;

/// Where the moves of a proof stop, and for each entry that they leave what tells the step that made
/// it.
#[derive(Drop)]
pub struct NamedHalt {
    pub halt: Halt,
    pub texts: Vec<Vec<u8>>,
    ghost each: { length texts.items ≡ length halt.origins.items },
}
