//! The program `mm`: verifies databases of the Metamath language.
//! It hands its words, its files and its devices to `start` of `mm_serve`, which answers, and a seed
//! of the system's random source. Its tests run the program over files in memory.
#![tactic(auto)]

ghost use Rattle.std.specs.Int.{from_le_bytes, w64};
ghost use Rattle.std.specs.Prelude.{◌≡◌, OnErr, OnOk};
ghost use Rattle.mm_base.specs.Seed.{known_number, seed_of};

use mm_base::Seed;
use mm_help::{program_pages, program_texts, rule_chapters};
use mm_serve::{Host, ProgressLine, Resources, start};
use mm_text::Counted;
use std::io::{self, IsTerminal};
use std::process::ExitCode;
use std::random::RandomSource;

/// The seed of the number that these random bytes spell, the lowest first, or the one that everybody
/// knows where they weren't given.
fn seed_with(filled: io::Result<()>, bytes: [u8; 8]) -> Seed
    ensures number { OnOk filled (result ≡ seed_of (from_le_bytes w64 bytes)) }
    ensures known { OnErr filled (result ≡ seed_of known_number) }
{
    match filled {
        Ok(()) => Seed::new(u64::from_le_bytes(bytes)),
        Err(_) => Seed::known(),
    }
}

/// A seed from the system's random source, or the one that everybody knows where that gives none.
fn seed_from(source: &impl RandomSource) -> Seed {
    let mut bytes = [0; 8];
    let filled = source.fill_bytes(&mut bytes);
    seed_with(filled, bytes)
}

/// Serves the words that the program was started with, on its host's files and devices.
fn main(rt: HostRuntime) -> ExitCode {
    let mut out = Counted::new(rt.stdout());
    let mut err = Counted::new(rt.stderr());
    let mut progress = ProgressLine::new(rt.stderr(), rt.stderr().is_terminal());
    let host = Host(&rt);
    let resources = Resources {
        alloc: rt.alloc(),
        seed: seed_from(&rt),
    };
    let pages = program_pages();
    let chapters = rule_chapters();
    let texts = program_texts(&pages, &chapters);
    ExitCode::from(start(
        resources,
        &host,
        &host,
        &texts,
        &mut out,
        &mut err,
        &mut progress,
    ))
}

#[cfg(test)]
mod tests;
