//! A file of the disk.

ghost use Rattle.std.specs.Prelude.{◌≡◌, [], true, false, IfOk};
ghost use Rattle.ncc_store.specs.DiskFile.{is_writable};

use crate::system_file::{SystemFile, WHOLE};
use ncc_values::Device;
use std::fs::File;
use std::io;
use std::io::ErrorKind;
use std::os::unix::fs::FileExt;

/// An open file of the disk. It tells nothing. It is written and synced only under its lock, which the system gives to
/// one open file at a time, until that is closed; and not after a write or a sync that failed. Each call is one call of
/// the system, but that a read goes on where it was cut short, and that a read and a sync are made again where a signal
/// interrupted them (by the kit, which has no other sync).
#[derive(Drop)]
pub struct DiskFile {
    file: File,
    writable: bool,
}

impl DiskFile {
    /// A file without its lock.
    pub(crate) fn unlocked(file: File) -> DiskFile
        ensures { is_writable result ≡ false }
    {
        DiskFile {
            file,
            writable: false,
        }
    }

    /// A file with its lock. It fails at once where another has that.
    pub(crate) fn locked(file: File) -> Result<DiskFile, Device>
        ensures { IfOk result (λ f. is_writable f ≡ true) }
    {
        match file.try_lock() {
            Ok(()) => Ok(DiskFile {
                file,
                writable: true,
            }),
            Err(_) => Err(Device),
        }
    }

    /// Ends the writing.
    fn end(&mut self, error: io::Error) -> io::Error
        ensures writable { is_writable self.new ≡ false }
    {
        self.writable = false;
        error
    }
}

impl SystemFile for DiskFile {
    ghost use Rattle.ncc_store.specs.StoreLaws.{untold};

    ghost tells_bytes = { false };

    ghost tells_images = { false };

    ghost bytes = { λ f. [] };

    ghost images = { λ f c. ⊥ };

    ghost moment = { λ f. 0 };

    ghost images_since = { λ f t c. ⊥ };

    ghost sound = { is_writable };

    ghost tells_failures = { false };

    ghost failed = { λ f. 0 };

    ghost calls = { λ f. 0 };

    ghost are_bytes = { λ f told. untold told };

    ghost stands = { λ f told. untold told };

    ghost counts_now = { λ f t c le now. now };

    ghost only_now = { λ f c left. left };

    fn size(&mut self) -> io::Result<u64> {
        Ok(self.file.metadata()?.len())
    }

    // The system lets nothing be read anywhere, also past the end, so an empty read asks for the length.
    fn fill(&mut self, place: u64, out: &mut [u8]) -> io::Result<()> {
        if out.is_empty() && place > self.size()? {
            return Err(ErrorKind::UnexpectedEof.into());
        }
        self.file.read_exact_at(out, place)
    }

    fn write_some(&mut self, place: u64, piece: &[u8]) -> io::Result<usize> {
        match self.file.write_at(piece, place) {
            Ok(n) if n == piece.len() || (n > 0 && piece.len() > WHOLE) => Ok(n),
            Ok(_) => Err(self.end(ErrorKind::WriteZero.into())),
            Err(error) => Err(self.end(error)),
        }
    }

    fn settle(&mut self) -> io::Result<()> {
        match self.file.sync_all() {
            Ok(()) => Ok(()),
            Err(error) => Err(self.end(error)),
        }
    }
}
