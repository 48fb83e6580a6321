//! Where an expression stands in a list of symbols.

ghost use Rattle.std.specs.Prelude.{◌≡◌, ◌<◌, ◌≤◌, ◌+◌};

/// Where an expression stands: from its start up to its end.
#[derive(Clone, Copy)]
pub(crate) struct Entry {
    pub start: usize,
    pub end: usize,
}

/// Where the value of an entry begins: behind its first symbol.
pub(crate) fn value_start(entry: Entry) -> usize
    requires { entry.start ≤ entry.end }
    ensures order { entry.start ≤ result }
    ensures within { result ≤ entry.end }
    ensures behind { entry.start < entry.end → result ≡ entry.start + 1 }
    ensures none { entry.end ≤ entry.start → result ≡ entry.end }
{
    if entry.start < entry.end {
        entry.start + 1
    } else {
        entry.end
    }
}
