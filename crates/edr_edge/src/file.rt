//! The file `edr.nvm` among other files and programs: its number is none of a standard stream's, it is whole from the first, and one
//! program at a time holds it.
ghost use Rattle.std.specs.Prelude.{◌≡◌};

use edr_image::places::LARGEST_IMAGE;
use std::fs::{File, Files, Metadata, OpenOptions, TryLockError};
use std::io::{Error as IoError, ErrorKind, Result as IoResult};
use std::os::fd::AsRawFd;
use std::os::unix::fs::{FileExt, MetadataExt};
use std::rt::Clock;
use std::time::Duration;
use std::{fs, thread};

/// The name of the file.
const NAME: &str = "edr.nvm";

/// The folder in which it has that name.
const FOLDER: &str = ".";

/// The name by which the system tells what standard output is.
const OUTPUT: &str = "/dev/stdout";

/// As many bytes as a file has that is made: those of an image of the most banks that there may be, so that each `format` has room.
const NEW_SIZE: usize = LARGEST_IMAGE;

/// The highest number of a standard stream.
const LAST_STREAM: i32 = 2;

/// How often a file is asked for that another program holds, and the pause in between, in milliseconds: ten seconds in all.
const TRIES: u32 = 200;

const PAUSE: u64 = 50;

/// What the system lets this program do with the file.
#[derive(Clone, Copy)]
enum Access {
    ReadWrite,
    ReadOnly,
}

/// An open image. The first call that reads, writes or syncs takes it for this program, which then holds it to its end.
#[derive(Drop)]
pub struct ImageFile<R> {
    rt: R,
    file: File,
    access: Access,
    size: u32,
    is_held: bool,
}

// An image that may only be read is opened for that, so that its records can be reported. Each write fails then.
fn open_or_create<R: Files<File = File>>(rt: &R) -> IoResult<(File, Access)> {
    let mut how = OpenOptions::new();
    how.read(true).write(true);
    let opened = match how.open(rt, NAME) {
        Err(e) if e.kind() == ErrorKind::NotFound => how.create(true).open(rt, NAME),
        Err(e) if is_refusal(e.kind()) => return open_to_read(rt),
        opened => opened,
    };
    Ok((opened?, Access::ReadWrite))
}

fn is_refusal(kind: ErrorKind) -> bool {
    kind == ErrorKind::PermissionDenied || kind == ErrorKind::ReadOnlyFilesystem
}

// To open a pipe so would be to wait for its writer.
fn open_to_read<R: Files<File = File>>(rt: &R) -> IoResult<(File, Access)> {
    let _size = size_of(&fs::metadata(rt, NAME)?)?;
    Ok((File::open(rt, NAME)?, Access::ReadOnly))
}

// A program that is started with a standard stream closed gets the number of that stream for the next file that it opens, and prints
// into it. A second handle never has such a number.
fn beside_streams(file: File) -> IoResult<File> {
    if file.as_raw_fd() > LAST_STREAM {
        return Ok(file);
    }
    file.try_clone()
}

// How long a file is, at most as long as an offset can be. A folder, a pipe or a device is no image.
fn size_of(about: &Metadata) -> IoResult<u32> {
    if !about.is_file() {
        return Err(IoError::from(ErrorKind::InvalidInput));
    }
    Ok(about.len().min(u64::from(u32::MAX)) as u32)
}

fn is_same_file(one: &Metadata, other: &Metadata) -> bool {
    one.dev() == other.dev() && one.ino() == other.ino()
}

// Programs that can only read the file hold it together.
fn try_hold(file: &File, access: Access) -> Result<(), TryLockError> {
    match access {
        Access::ReadWrite => file.try_lock(),
        Access::ReadOnly => file.try_lock_shared(),
    }
}

// Waits a while where another program holds the file. The system lets go of it when that program ends, however it ends.
fn hold<R: Clock>(rt: &R, file: &File, access: Access) -> IoResult<()> {
    for _ in 0..TRIES {
        match try_hold(file, access) {
            Ok(()) => return Ok(()),
            Err(TryLockError::WouldBlock) => thread::sleep(rt, Duration::from_millis(PAUSE)),
            Err(TryLockError::Error(e)) => return Err(e),
        }
    }
    Err(IoError::from(ErrorKind::WouldBlock))
}

// Some file systems have no sync of a folder, and some that can't be written have none at all.
fn sync_if_any(file: &File) -> IoResult<()> {
    match file.sync_all() {
        Err(e) if e.kind() == ErrorKind::InvalidInput => Ok(()),
        synced => synced,
    }
}

// Gives an empty file its zeros, and returns how long it is then. Its name is settled first, where the folder may be read, and its
// size comes at once: a program that is killed in here leaves the file empty, for the next to fill, or as it is to be. The zeros are
// written too, so that a full disk is told now and not in a crash.
fn fill<R: Files<File = File> + Clock>(rt: &R, file: &File) -> IoResult<u32> {
    hold(rt, file, Access::ReadWrite)?;
    if size_of(&file.metadata()?)? == 0 {
        if let Ok(folder) = File::open(rt, FOLDER) {
            sync_if_any(&folder)?;
        }
        file.set_len(NEW_SIZE as u64)?;
        file.write_all_at(&[0; NEW_SIZE], 0)?;
        file.sync_all()?;
    }
    file.unlock()?;
    size_of(&file.metadata()?)
}

impl<R: Files<File = File> + Clock> ImageFile<R> {
    /// The file of the folder in which the program runs, which is made where it is missing or empty.
    pub fn open(rt: R) -> IoResult<ImageFile<R>>
    where
        R: Drop,
    {
        let (opened, access) = open_or_create(&rt)?;
        let file = beside_streams(opened)?;
        let size = match size_of(&file.metadata()?)? {
            0 => fill(&rt, &file)?,
            size => size,
        };
        Ok(ImageFile {
            rt,
            file,
            access,
            size,
            is_held: false,
        })
    }

    /// How long the file was when it was opened, in bytes.
    pub fn size(&self) -> u32
        ensures { result ≡ self.now.size }
    {
        self.size
    }

    // While this program waited for its trace or for another program, the name may have come to stand for another file, or the file
    // may have been written anew. What was opened is the image no longer then.
    fn is_as_opened(&self) -> IoResult<bool> {
        let about = self.file.metadata()?;
        let named = fs::metadata(&self.rt, NAME)?;
        Ok(is_same_file(&about, &named) && size_of(&about)? == self.size)
    }

    /// Whether standard output is this file, opened once more. Where the system tells nothing of standard output, it isn't.
    pub fn is_output(&self) -> bool {
        match (self.file.metadata(), fs::metadata(&self.rt, OUTPUT)) {
            (Ok(about), Ok(output)) => is_same_file(&about, &output),
            _ => false,
        }
    }

    // The file, which this program holds from here to its end.
    fn held(&mut self) -> IoResult<&File> {
        if !self.is_held {
            hold(&self.rt, &self.file, self.access)?;
            if !self.is_as_opened()? {
                return Err(IoError::from(ErrorKind::NotFound));
            }
            self.is_held = true;
        }
        Ok(&self.file)
    }

    /// Fills `into` with the bytes from this offset on.
    pub fn read_at(&mut self, at: u32, into: &mut [u8]) -> IoResult<()> {
        self.held()?.read_exact_at(into, u64::from(at))
    }

    /// Writes all of `bytes` from this offset on.
    pub fn write_at(&mut self, at: u32, bytes: &[u8]) -> IoResult<()> {
        self.held()?.write_all_at(bytes, u64::from(at))
    }

    /// Returns once the file has what was written.
    pub fn sync(&mut self) -> IoResult<()> {
        match self.access {
            Access::ReadWrite => self.held()?.sync_all(),
            Access::ReadOnly => sync_if_any(self.held()?),
        }
    }
}
