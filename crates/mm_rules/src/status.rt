//! How a call ended, as the program's status.

/// The status with which the program ends.
#[derive(Clone, Copy, PartialEq, Eq, Debug)]
pub enum Status {
    /// 0: yes, or done.
    Done,
    /// 1: refused, or different.
    Refused,
    /// 2: the words of the command aren't understood.
    Usage,
    /// 3: a proof is incomplete.
    Incomplete,
    /// 4: a file, a device, a limit or memory stood in the way.
    Stopped,
}

ghost use Rattle.std.specs.Prelude.{◌≡◌};
ghost use Rattle.mm_rules.specs.Status.{number_of};

impl Status {
    /// The number, from 0 to 4, that the program hands to whoever called it.
    pub fn number(self) -> u8
        ensures { result ≡ number_of self }
    {
        match self {
            Status::Done => 0,
            Status::Refused => 1,
            Status::Usage => 2,
            Status::Incomplete => 3,
            Status::Stopped => 4,
        }
    }
}
