//! Files that are opened by their paths, one after the other.
ghost use Rattle.std.specs.Prelude.{◌≡◌, option_map, string_bytes};
ghost use Rattle.byte_ports.specs.Openers.{OpensAs, opener_at};
ghost use Rattle.byte_ports.specs.Opening.{open_at, open_if_named as if_named_opening};
ghost use Rattle.byte_ports.specs.declared.open_files.OpenFault.TheVariants.{Memory};

use crate::paths::Opens;
use std::alloc::AllocError;

/// Why files were not opened.
#[derive(Clone, Copy, Debug, PartialEq, Eq)]
pub enum OpenFault {
    /// Memory ran out.
    Memory,
    /// A file did not open.
    Read,
}

impl From<AllocError> for OpenFault {
    ghost from_gives = { λ _ fault. fault ≡ Memory };

    fn from(_error: AllocError) -> OpenFault {
        OpenFault::Memory
    }
}

/// Opens a file.
///
/// # Errors
/// `Read` if the file does not open.
pub fn open<O: Opens>(files: &mut O, path: &str) -> Result<O::File, OpenFault>
    ensures { OpensAs (opener_at O.Opens O.File.Source files.old files.new)
        (open_at O.File.Source path.now) result }
{
    match files.open(path) {
        Ok(file) => Ok(file),
        Err(_) => Err(OpenFault::Read),
    }
}

/// Opens a file if it is named.
///
/// # Errors
/// `Read` if the file does not open.
pub fn open_if_named<O: Opens>(
    files: &mut O,
    path: &Option<String>,
) -> Result<Option<O::File>, OpenFault>
    ensures { OpensAs (opener_at O.Opens O.File.Source files.old files.new)
        (if_named_opening O.File.Source (option_map string_bytes path.now)) result }
{
    match path {
        Some(path) => Ok(Some(open(files, path.as_str())?)),
        None => Ok(None),
    }
}
