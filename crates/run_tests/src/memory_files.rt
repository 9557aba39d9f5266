//! Files and outputs in memory, each with its path.
ghost use Rattle.std.specs.Prelude.{◌≡◌, None, Some, option_map};
ghost use Rattle.std.specs.List.{find};
ghost use Rattle.std.specs.Str.{bytes_eq};
ghost use Rattle.byte_ports.specs.Paths.{file_of, nothing};

use byte_ports::{CallPlan, HasPath, MemorySource, MemoryTarget, Opens, PortFault, Target};

/// A file: its bytes, and its path.
#[derive(Clone, Copy)]
pub struct MemoryFile<'a> {
    pub path: &'a str,
    pub bytes: &'a [u8],
}

// The first file at the path.
fn file_at<'a>(files: &'a [MemoryFile<'a>], path: &str) -> Option<&'a MemoryFile<'a>>
    ensures { option_map (λ file. file.now) result ≡ find (λ file. bytes_eq file.path.now path.now) files.entry.now }
{
    files.iter().find(|file| file.path == path)
}

/// Files that are opened by their paths. No file opens at another path.
#[derive(Clone, Copy)]
pub struct MemoryFiles<'a> {
    pub files: &'a [MemoryFile<'a>],
    pub plan: CallPlan,
}

impl<'a> Opens for MemoryFiles<'a> {
    type File = MemorySource<'a>;

    ghost at = { λ machine path. elim (find (λ file. bytes_eq file.path.now path) machine.files.now)
        [ None ↦ nothing | Some file ↦ file_of file.bytes.now ] };

    ghost log = { λ _. None };

    fn open(&mut self, path: &str) -> Result<MemorySource<'a>, PortFault> {
        match file_at(self.files, path) {
            Some(file) => Ok(MemorySource::new(file.bytes, self.plan)),
            None => Err(PortFault),
        }
    }
}

/// A target in memory that has a path, or none.
#[derive(Drop)]
pub struct TargetAtPath<'a> {
    pub path: Option<&'a str>,
    pub target: MemoryTarget,
}

impl Target for TargetAtPath<'_> {
    ghost sent = { λ placed. ⟦<MemoryTarget as Target>⟧.sent placed.target };

    ghost flushed = { λ placed. ⟦<MemoryTarget as Target>⟧.flushed placed.target };

    ghost has_failed = { λ placed. ⟦<MemoryTarget as Target>⟧.has_failed placed.target };

    fn write(&mut self, piece: &[u8]) -> Result<usize, PortFault> {
        self.target.write(piece)
    }

    fn flush(&mut self) -> Result<(), PortFault> {
        self.target.flush()
    }
}

impl HasPath for TargetAtPath<'_> {
    ghost path = { λ placed. option_map (λ path. path.now) placed.path };
}
