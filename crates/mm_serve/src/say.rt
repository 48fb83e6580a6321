//! Writing to a device that may fail, in several parts.

ghost use Rattle.std.specs.Prelude.{◌<◌, ◌++◌, OnOk, OnErr};
ghost use Rattle.mm_text.specs.Device.{faults_of};
ghost use Rattle.mm_serve.specs.Ending.{BreaksOff, TakesWhole};

use mm_text::{Counted, WriteFault};
use std::io::Write;

/// Writes a text.
pub(crate) fn say_text<E: Write>(err: &mut Counted<E>, text: &[u8]) -> Result<(), WriteFault>
    requires { faults_of err.old < u64.MAX }
    ensures all { OnOk result (TakesWhole E.contents text.now err.old err.new) }
    ensures beginning { OnErr result (BreaksOff E.contents text.now err.old err.new) }
{
    err.write_all(text)
}

/// Writes three texts, each only where those before it were written.
pub(crate) fn say_all<E: Write>(
    err: &mut Counted<E>,
    first: &[u8],
    second: &[u8],
    third: &[u8],
) -> Result<(), WriteFault>
    requires { faults_of err.old < u64.MAX }
    ensures all { OnOk result
        (TakesWhole E.contents (first.now ++ second.now ++ third.now) err.old err.new) }
    ensures beginning { OnErr result
        (BreaksOff E.contents (first.now ++ second.now ++ third.now) err.old err.new) }
{
    say_text(err, first)?;
    say_text(err, second)?;
    say_text(err, third)
}
