//! Reading a device to its end, up to a limit.
ghost use Rattle.std.specs.Prelude.{◌≡◌, ◌+◌, ◌<◌, ◌≤◌, ◌↔◌, length, OnOk, IfOk, IfSome, IsErrOf};
ghost use Rattle.std.specs.Prelude.{vec_len, [], ℕ, List};
ghost use Rattle.mm_text.specs.Alike.{ShowAlike};
ghost use Rattle.std.specs.Io.KnownBytes.{IsAtEnd};
ghost use Rattle.mm_text.specs.Device.{faults_of, inner_of, CameWithin, CameSome, CameOver};
ghost use Rattle.mm_text.specs.declared.load.LoadFault.TheVariants.{Memory};

use crate::counted::{Counted, Source};
use crate::stripped::Stripped;
use std::alloc::{AllocError, Global};
use thiserror::Error;

/// Why a device was not read to its end.
#[derive(Clone, Copy, Debug, PartialEq, Eq, Error)]
pub enum LoadFault {
    /// The source failed in a call.
    #[error("a read failed")]
    Device,
    /// More bytes came than may be taken.
    #[error("there are more bytes than may be taken")]
    TooLong,
    /// Memory for the bytes was refused.
    #[error("out of memory")]
    Memory,
}

impl From<AllocError> for LoadFault {
    ghost from_gives = { λ _ e. e ≡ Memory };

    fn from(_e: AllocError) -> LoadFault {
        LoadFault::Memory
    }
}

/// How many bytes one call of the source may give. They stand on the stack, which may be small.
const PIECE: usize = 16 * 1024;

/// Room for so many bytes, or none where so much is refused.
fn room_for(alloc: Global, count: usize) -> Vec<u8>
    ensures { result.items ≡ [] }
{
    match Vec::with_capacity(alloc, count) {
        Ok(bytes) => bytes,
        Err(_) => Vec::new(alloc),
    }
}

/// All bytes that the source gives up to its end, at most `max` of them. Stops at the first
/// failed call.
///
/// # Errors
///
/// - `Device` exactly where a call of the source failed; the count then rose by one, and else it
///   stays. Where `max` bytes came, the call that looks for the end can still fail.
/// - `TooLong` exactly where more than `max` bytes came.
/// - `Memory` only where a growth was refused, so only where bytes came. They are at most `max`,
///   and none of them is given back to the reader.
pub fn read_all<S: Source>(
    alloc: Global,
    reader: &mut Counted<S>,
    max: usize,
) -> Result<Vec<u8>, LoadFault>
    requires { faults_of reader.old < u64.MAX }
    ensures within { IfOk result (λ bytes. vec_len bytes ≤ max) }
    ensures all { IfOk result (λ bytes.
        IfSome (S.left (inner_of reader.old)) (λ all. bytes.items ≡ all)) }
    ensures end { OnOk result (IsAtEnd (S.left (inner_of reader.new))) }
    ensures too_long { IsErrOf result LoadFault.TooLong →
        IfSome (S.left (inner_of reader.old)) (λ all. max < length all) }
    // So many bytes came: over `max` exactly where that is answered.
    ensures over { IsErrOf result LoadFault.TooLong →
        CameOver (S.left (inner_of reader.old)) (S.left (inner_of reader.new)) max }
    ensures under { IsErrOf result LoadFault.Device →
        CameWithin (S.left (inner_of reader.old)) (S.left (inner_of reader.new)) max }
    ensures memory { IsErrOf result LoadFault.Memory →
        CameSome (S.left (inner_of reader.old)) (S.left (inner_of reader.new)) max }
    ensures device { IsErrOf result LoadFault.Device ↔
        (faults_of reader.new ≡ faults_of reader.old + 1) }
    ensures cause { IsErrOf result LoadFault.Device → S.may_fail (inner_of reader.old) }
    ensures uncounted { ¬ IsErrOf result LoadFault.Device →
        faults_of reader.new ≡ faults_of reader.old }
{
    let mut piece = [0; PIECE];
    let mut bytes = room_for(alloc, reader.length_hint().min(max));
    loop {
        let count = match reader.read(&mut piece) {
            Ok(0) => return Ok(bytes),
            Ok(count) => count,
            Err(_) => return Err(LoadFault::Device),
        };
        if count > max - bytes.len() {
            return Err(LoadFault::TooLong);
        }
        bytes.extend_from_slice(&piece[..count])?;
    }
}

/// The bytes of a source without what its comments say. They show the same: outside comments the
/// same tokens, or a fault of the same rule, on the same lines.
#[derive(Drop)]
pub struct StrippedBytes {
    pub bytes: Vec<u8>,
    /// How many bytes the source gave.
    pub count: usize,
}

/// Reads as `read_all` does, and leaves out what comments say.
///
/// # Errors
///
/// Those of `read_all`.
pub fn read_stripped<S: Source>(
    alloc: Global,
    reader: &mut Counted<S>,
    max: usize,
) -> Result<StrippedBytes, LoadFault>
    requires { faults_of reader.old < u64.MAX }
    ensures within { IfOk result (λ stripped. stripped.count ≤ max) }
    ensures short { IfOk result (λ stripped. vec_len stripped.bytes ≤ stripped.count) }
    ensures all { IfOk result (λ stripped. (all : List ℕ)
        × IfSome (S.left (inner_of reader.old)) (λ left. all ≡ left)
        × (length all ≡ stripped.count)
        × ShowAlike all stripped.bytes.items) }
    ensures end { OnOk result (IsAtEnd (S.left (inner_of reader.new))) }
    ensures over { IsErrOf result LoadFault.TooLong →
        CameOver (S.left (inner_of reader.old)) (S.left (inner_of reader.new)) max }
    ensures too_long { IsErrOf result LoadFault.TooLong →
        IfSome (S.left (inner_of reader.old)) (λ all. max < length all) }
    ensures under { IsErrOf result LoadFault.Device →
        CameWithin (S.left (inner_of reader.old)) (S.left (inner_of reader.new)) max }
    ensures memory { IsErrOf result LoadFault.Memory →
        CameSome (S.left (inner_of reader.old)) (S.left (inner_of reader.new)) max }
    ensures device { IsErrOf result LoadFault.Device ↔
        (faults_of reader.new ≡ faults_of reader.old + 1) }
    ensures cause { IsErrOf result LoadFault.Device → S.may_fail (inner_of reader.old) }
    ensures uncounted { ¬ IsErrOf result LoadFault.Device →
        faults_of reader.new ≡ faults_of reader.old }
{
    let mut piece = [0; PIECE];
    let mut stripped = Stripped::new(room_for(alloc, reader.length_hint().min(max)));
    let mut count = 0;
    loop {
        let more = match reader.read(&mut piece) {
            Ok(0) => break,
            Ok(more) => more,
            Err(_) => return Err(LoadFault::Device),
        };
        if more > max - count {
            return Err(LoadFault::TooLong);
        }
        count += more;
        stripped.take(&piece[..more])?;
    }
    let bytes = stripped.finish()?;
    Ok(StrippedBytes { bytes, count })
}
