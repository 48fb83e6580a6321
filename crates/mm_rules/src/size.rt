//! The size of files.

ghost use Rattle.std.specs.Prelude.{◌≡◌, ◌≤◌, map};
ghost use Rattle.mm_base.specs.MostBytes.{most_bytes};
ghost use Rattle.mm_text.specs.Files.{plain_file, total_bytes};

use mm_base::File;

/// How many bytes the files hold in all; where they hold more than they may, some number.
pub fn size_of(files: &[File]) -> usize
    ensures { total_bytes (map plain_file files.now) ≤ most_bytes
        → result ≡ total_bytes (map plain_file files.now) }
{
    let mut size: usize = 0;
    for file in files {
        size = size.saturating_add(file.bytes.len());
    }
    size
}
