//! What is judged of the handed files as a whole, beside their names.

ghost use Rattle.std.specs.Prelude.{◌≤◌, ◌↔◌, map, IsTrue};
ghost use Rattle.mm_base.specs.MostBytes.{most_bytes};
ghost use Rattle.mm_text.specs.Files.{plain_file, total_bytes};

use mm_base::File;

/// So many bytes the files may hold in all.
pub const BYTE_LIMIT: usize = 1_073_741_824;

/// Whether the files hold no more bytes than they may.
pub fn is_within_limit(files: &[File]) -> bool
    ensures { IsTrue result ↔ (total_bytes (map plain_file files.now) ≤ most_bytes) }
{
    let mut left = BYTE_LIMIT;
    for file in files {
        if file.bytes.len() > left {
            return false;
        }
        left -= file.bytes.len();
    }
    true
}
