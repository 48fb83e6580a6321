//! Writers that fail at each byte of a longer reply: of a listing, and of a whole file.

use crate::tests::{asks_handed, reply_to};
use mm_base::{File, Seed};
use mm_check::{Command, Question, RunFault, run};
use mm_core_tests::databases::DEMO;
use mm_core_tests::failing::failing_writer;
use mm_verdict::Form;
use std::alloc::Global;
use std::test::Fail;

const FILES: [File<'static>; 1] = [File {
    name: b"demo0.mm",
    bytes: DEMO,
}];

/// Whether the writing of a reply stops at the call that fails, which is the last one and is
/// counted alone, and has written what comes before it.
fn stops_writing(
    alloc: Global,
    command: &Command,
    reply: &[u8],
    fails_at: usize,
    answers_zero: bool,
) -> bool {
    if !asks_handed(command, &FILES) {
        return false;
    }
    let mut out = failing_writer(alloc, fails_at, answers_zero);
    let answer = run(alloc, Seed::known(), command, &FILES, &mut out).err();
    let faults = out.faults();
    let out = out.into_inner();
    answer == Some(RunFault::Device)
        && faults == 1
        && out.calls == fails_at
        && reply.get(..fails_at.saturating_sub(1)) == Some(out.taken.as_slice())
}

/// Whether it stops so at each byte of the reply, which has so many.
fn stops_at_each(alloc: Global, command: &Command, count: usize) -> Result<bool, Fail> {
    let (reply, _) = reply_to(alloc, command, &FILES)?;
    for fails_at in 1..=count {
        if !stops_writing(alloc, command, &reply, fails_at, false)
            || !stops_writing(alloc, command, &reply, fails_at, true)
        {
            return Ok(false);
        }
    }
    Ok(reply.len() == count)
}

// A writer that takes one byte a call is called once for each of them.
#[test]
fn listing_stops_at_each_byte(rt: HostRuntime) -> Result<(), Fail> {
    let command = Command::About {
        label: b"th1",
        question: Question::Show,
    };
    assert!(rt; stops_at_each(rt.alloc(), &command, 631)?);
    Ok(())
}

#[test]
fn file_stops_at_each_byte(rt: HostRuntime) -> Result<(), Fail> {
    let command = Command::About {
        label: b"th1",
        question: Question::Form {
            form: Form::Packed,
            whole: true,
        },
    };
    assert!(rt; stops_at_each(rt.alloc(), &command, 461)?);
    Ok(())
}
