//! The rules of meaning, by the codes that are printed.

ghost use Rattle.std.specs.Prelude.{◌≡◌};
ghost use Rattle.mm_frame.specs.RuleCodes.{meaning_code};

/// What a statement's meaning may break, in the order in which the rules are judged (the Metamath
/// book, sections 4.2.1 to 4.2.8).
#[derive(Clone, Copy, PartialEq, Eq, Debug)]
pub enum MeaningRule {
    /// A `$c` stands in a block.
    M1,
    /// A symbol of a `$c` was declared before as constant or variable, active or not, or stands
    /// twice in it.
    M2,
    /// A symbol of a `$v` is an active variable, was declared a constant, or stands twice in it.
    M3,
    /// A symbol of a `$c` or `$v` equals an earlier label.
    M4,
    /// The label equals an earlier label.
    M5,
    /// The label equals a symbol declared before, active or not.
    M6,
    /// A symbol of a `$d`, `$f`, `$e`, `$a` or `$p` isn't active.
    M7,
    /// A member of a `$d` is a constant.
    M8,
    /// A member stands twice in a `$d`.
    M9,
    /// The type code of a `$f` is a variable.
    M10,
    /// The second symbol of a `$f` is a constant.
    M11,
    /// The variable of a `$f` has an active `$f`.
    M12,
    /// An earlier `$f`, active or not, gave the variable of that name another type code.
    M13,
    /// The first symbol of a `$e`, `$a` or `$p` is a variable.
    M14,
    /// A variable in a `$e`, `$a` or `$p` has no active `$f`.
    M15,
}

impl MeaningRule {
    /// The printed code.
    pub fn code(self) -> &'static [u8]
        ensures { result.now ≡ meaning_code self }
    {
        match self {
            MeaningRule::M1 => b"M1",
            MeaningRule::M2 => b"M2",
            MeaningRule::M3 => b"M3",
            MeaningRule::M4 => b"M4",
            MeaningRule::M5 => b"M5",
            MeaningRule::M6 => b"M6",
            MeaningRule::M7 => b"M7",
            MeaningRule::M8 => b"M8",
            MeaningRule::M9 => b"M9",
            MeaningRule::M10 => b"M10",
            MeaningRule::M11 => b"M11",
            MeaningRule::M12 => b"M12",
            MeaningRule::M13 => b"M13",
            MeaningRule::M14 => b"M14",
            MeaningRule::M15 => b"M15",
        }
    }
}
