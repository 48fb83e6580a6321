//! How far a long reply has come, as a line on a terminal that is written over itself.

ghost use Rattle.std.specs.Prelude.{◌≡◌, ◌<◌, ◌++◌, codes, decimal, false, map, true};
ghost use Rattle.std.specs.Prelude.{IfOk, OnErr, OnOk};
ghost use Rattle.mm_text.specs.Device.{faults_of};
ghost use Rattle.mm_text.specs.Files.{plain_file};
ghost use Rattle.mm_check.specs.Reply.{AsksHanded, IsReplyTo};
ghost use Rattle.mm_rules.specs.Status.{number_of};
ghost use Rattle.mm_serve.specs.Ending.{BreaksOff, IsUntouched, StaysUnshown, TakesWhole, TellsLine};
ghost use Rattle.mm_serve.specs.Progress.{IsTold, progress_text};

use crate::folder::Resources;
use crate::say::say_text;
use itoa::Buffer;
use mm_base::File;
use mm_check::{Command, reply_to};
use mm_minimize::{SearchWatch, Searched};
use mm_text::{Counted, WriteFault};
use mm_verdict::{Reply, SoFar, Watch};
use std::alloc::AllocError;
use std::io::Write;

/// After so many theorems the line is written anew.
const THEOREMS_A_LINE: usize = 16;

/// The line that tells how far a reply has come, where it is shown.
#[derive(Drop)]
pub struct ProgressLine<P> {
    /// What the line is written on.
    pub device: Counted<P>,
    is_shown: bool,
    /// Whether the line stands there, and nothing behind it.
    stands: bool,
    /// What a search came to.
    searched: Option<Searched>,
    /// What is told behind the notes.
    hint: Option<Vec<u8>>,
}

/// What a search came to, where no line is shown.
#[derive(Clone, Copy)]
struct Unshown {
    searched: Option<Searched>,
}

/// A reply, and what a search came to on the way to it, where there was one.
#[derive(Drop)]
pub(crate) struct Watched {
    pub(crate) reply: Reply,
    pub(crate) searched: Option<Searched>,
}

/// Writes a text, and a number behind it.
fn say_number<P: Write>(
    device: &mut Counted<P>,
    text: &[u8],
    number: usize,
) -> Result<(), WriteFault>
    requires { faults_of device.old < u64.MAX }
    ensures all { OnOk result
        (TakesWhole P.contents (text.now ++ decimal number) device.old device.new) }
    ensures beginning { OnErr result
        (BreaksOff P.contents (text.now ++ decimal number) device.old device.new) }
{
    let mut digits = Buffer::new();
    say_text(device, text)?;
    say_text(device, digits.format(number).as_bytes())
}

/// Writes the line over the one before.
fn say_line<P: Write>(device: &mut Counted<P>, so_far: SoFar) -> Result<(), WriteFault>
    requires { faults_of device.old < u64.MAX }
    ensures all { OnOk result
        (TakesWhole P.contents (progress_text so_far) device.old device.new) }
    ensures beginning { OnErr result
        (BreaksOff P.contents (progress_text so_far) device.old device.new) }
{
    say_number(device, b"\rmm: ", so_far.theorems)?;
    say_number(device, b" of ", so_far.of)?;
    say_number(device, b" theorems, ", so_far.bytes)?;
    say_text(device, b" bytes saved")
}

impl<P> ProgressLine<P> {
    /// On this device, if it is to be shown there.
    pub fn new(device: P, is_shown: bool) -> ProgressLine<P>
        ensures { result.is_shown ≡ is_shown }
    {
        ProgressLine {
            device: Counted::new(device),
            is_shown,
            stands: false,
            searched: None,
            hint: None,
        }
    }

    /// Whether anything is shown there.
    pub(crate) fn is_shown(&self) -> bool
        ensures { result ≡ self.now.is_shown }
    {
        self.is_shown
    }

    /// Keeps a hint, where there is one.
    pub(crate) fn keep(&mut self, hint: Option<Vec<u8>>)
        ensures { self.new.is_shown ≡ self.old.is_shown }
    {
        self.hint = hint;
    }
}

impl<P: Write> ProgressLine<P> {
    /// Ends the line, if it stands there.
    pub(crate) fn end(&mut self)
        ensures failed { 0 < faults_of self.old.device
            → IsUntouched self.old.device self.new.device }
        ensures ended { self.old.stands ≡ true → faults_of self.old.device ≡ 0
            → TellsLine P.contents (codes "\n") self.old.device self.new.device }
        ensures none { self.old.stands ≡ false → IsUntouched self.old.device self.new.device }
        ensures stands { self.new.stands ≡ false }
    {
        if self.stands && self.device.faults() == 0 {
            let _ = say_text(&mut self.device, b"\n");
        }
        self.stands = false;
    }

    /// Writes a text, where one is to be shown. A device that failed isn't called again.
    pub(crate) fn tell_text(&mut self, text: &[u8])
        ensures failed { 0 < faults_of self.old.device
            → IsUntouched self.old.device self.new.device }
        ensures told { faults_of self.old.device ≡ 0
            → TellsLine P.contents text.now self.old.device self.new.device }
    {
        if self.device.faults() == 0 {
            let _ = say_text(&mut self.device, text);
        }
    }

    /// Tells the hint that is kept, where hints are shown.
    pub(crate) fn tell_hint(&mut self)
        ensures { StaysUnshown self.old self.new }
    {
        if !self.is_shown {
            return;
        }
        if let Some(hint) = self.hint.take() {
            self.tell_text(&hint);
        }
    }

    /// Writes the line anew. A device that failed isn't called again.
    fn show(&mut self, so_far: SoFar)
        ensures failed { 0 < faults_of self.old.device
            → IsUntouched self.old.device self.new.device }
        ensures shown { faults_of self.old.device ≡ 0
            → TellsLine P.contents (progress_text so_far) self.old.device self.new.device }
        ensures stands { faults_of self.old.device ≡ 0 → self.new.stands ≡ true }
    {
        if self.device.faults() == 0 {
            let _ = say_line(&mut self.device, so_far);
            self.stands = true;
        }
    }

    /// Writes the line anew after so many theorems, and after the last one.
    fn tell(&mut self, so_far: SoFar)
        ensures failed { 0 < faults_of self.old.device
            → IsUntouched self.old.device self.new.device }
        ensures told { IsTold so_far → faults_of self.old.device ≡ 0
            → TellsLine P.contents (progress_text so_far) self.old.device self.new.device }
        ensures stands { IsTold so_far → faults_of self.old.device ≡ 0
            → self.new.stands ≡ true }
        ensures passed { ¬ (IsTold so_far) → self.new ≡ self.old }
    {
        if so_far.theorems % THEOREMS_A_LINE == 0 || so_far.theorems == so_far.of {
            self.show(so_far);
        }
    }
}

impl<P: Write> Watch for ProgressLine<P> {
    fn told(&mut self, so_far: SoFar) {
        self.tell(so_far);
    }
}

impl<P: Write> SearchWatch for ProgressLine<P> {
    fn searched(&mut self, searched: Searched) {
        self.searched = Some(searched);
    }
}

impl Watch for Unshown {
    fn told(&mut self, _so_far: SoFar) {}
}

impl SearchWatch for Unshown {
    fn searched(&mut self, searched: Searched) {
        self.searched = Some(searched);
    }
}

/// The reply to a command. Where that takes long and progress is shown, it tells how far the reply
/// has come. What a search came to is given back in any case.
pub(crate) fn watched_reply<P: Write>(
    resources: Resources,
    command: &Command,
    files: &[File],
    progress: &mut ProgressLine<P>,
) -> Result<Watched, AllocError>
    requires { AsksHanded (map plain_file files.now) command.now }
    ensures reply { IfOk result (λ watched. IsReplyTo (map plain_file files.now) command.now
        watched.reply.text.items (number_of watched.reply.status)) }
    ensures unshown { StaysUnshown progress.old progress.new }
    ensures ended { progress.old.is_shown ≡ true → progress.new.stands ≡ false }
{
    let Resources { alloc, seed } = resources;
    if !progress.is_shown {
        let mut unshown = Unshown { searched: None };
        let reply = reply_to(alloc, seed, command, files, &mut unshown)?;
        let searched = unshown.searched;
        return Ok(Watched { reply, searched });
    }
    let reply = reply_to(alloc, seed, command, files, progress);
    progress.end();
    let searched = progress.searched;
    match reply {
        Ok(reply) => Ok(Watched { reply, searched }),
        Err(fault) => Err(fault),
    }
}
