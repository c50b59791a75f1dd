//! The file `edr.nvm` as the memory of the records: the edge that is trusted and not proved, since no contract can say what
//! a file keeps.
ghost use Rattle.std.specs.Prelude.{◌≡◌, ◌+◌, ◌≤◌, ◌<◌, ◌^◌, length, false, None, IsErr, IsFalse, OnErr};
ghost use Rattle.edr_device.specs.Device.{Ticks};
ghost use Rattle.edr_device.specs.Faults.{HasCause, last_number, next_number};
ghost use Rattle.edr_device.specs.declared.device.TheConstants.{LONGEST_WRITE};

use crate::file::ImageFile;
use edr_device::{Failed, Nvm};
use std::fs::{File, Files};
use std::rt::Clock;

/// The longest piece that is read at once: as many bytes as an image of 16 banks has, which an audit reads.
const LONGEST_READ: usize = 16_480;

/// A memory in a file, which counts what fails. It tells no bytes. Where the file can't be opened or made it has the size 0,
/// and each read, write and sync fails.
#[derive(Drop)]
pub struct FileNvm<R> {
    file: Option<ImageFile<R>>,
    size: u32,
    // A read goes here first, so that one that fails leaves what it was to fill. It is made once, since to clear it takes longer
    // than most reads.
    bytes: [u8; LONGEST_READ],
    // Whether a write was tried since the last sync that succeeded.
    is_unsettled: bool,
    clock: u64,
    last_good: u64,
    faults: u64,
    ghost fits: { size < 2 ^ 32 },
    ghost clock_within: { clock ≤ last_number },
    ghost good: { last_good ≤ clock },
    ghost faults_within: { faults ≤ last_number },
}

impl<R> FileNvm<R> {
    /// The file of the folder in which the program runs.
    pub fn open(rt: R) -> FileNvm<R>
    where
        R: Files<File = File> + Clock + Drop,
        ensures fresh { (result.clock ≡ 0) × (result.last_good ≡ 0) × (result.faults ≡ 0) }
        ensures none { result.file ≡ None → result.size ≡ 0 }
    {
        let file = ImageFile::open(rt).ok();
        let size = file.as_ref().map_or(0, |file| file.size());
        FileNvm {
            file,
            size,
            bytes: [0; LONGEST_READ],
            is_unsettled: false,
            clock: 0,
            last_good: 0,
            faults: 0,
        }
    }

    /// Whether standard output is this file too. What is printed would then be written over the records.
    pub fn is_output(&self) -> bool
    where
        R: Files<File = File> + Clock,
        ensures none { self.now.file ≡ None → result ≡ false }
    {
        self.file.as_ref().is_some_and(|file| file.is_output())
    }

    fn fail(&mut self) -> Result<(), Failed>
        ensures fails { IsErr result }
        ensures counts { self.new.faults ≡ next_number self.old.faults }
        ensures same { (self.new.size ≡ self.old.size) × (self.new.clock ≡ self.old.clock) × (self.new.last_good ≡ self.old.last_good) }
        ensures file { self.new.file ≡ self.old.file }
    {
        self.faults = self.faults.saturating_add(1);
        Err(Failed)
    }

    // Counts a write or sync with this outcome, which wasn't made where the clock stands at its last number.
    fn count(&mut self, done: bool) -> Result<(), Failed>
        ensures size { self.new.size ≡ self.old.size }
        ensures time { Ticks self.old.clock self.new.clock self.old.last_good self.new.last_good result }
        ensures full { self.old.clock ≡ last_number → IsErr result }
        ensures undone { IsFalse done → IsErr result }
        ensures cause { HasCause self.old.faults self.new.faults result }
        ensures file { self.new.file ≡ self.old.file }
    {
        if self.clock == u64::MAX {
            return self.fail();
        }
        self.clock += 1;
        if !done {
            return self.fail();
        }
        self.last_good = self.clock;
        Ok(())
    }
}

impl<R: Files<File = File> + Clock> Nvm for FileNvm<R> {
    ghost use Rattle.std.specs.Prelude.{⊤, true};
    ghost use Rattle.std.proofs.lemmas.Option.{none-some};

    ghost extent = { λ a. a.size };

    // No bytes are told, so the calls below leave out what the trait says of them.
    ghost content = { λ a. None };

    ghost settled = { λ a i. true };

    ghost since = { λ a t image. ⊤ };

    ghost clock = { λ a. a.clock };

    ghost last_good = { λ a. a.last_good };

    ghost faults = { λ a. a.faults };

    ghost goes_on = { λ a b. ⊤ };

    ghost counts_now = { λ a t image le now. tt };

    ghost only_now = { λ a image left. tt };

    ghost sooner = { λ a t u image le within left. tt };

    ghost told_size = { λ a bytes told. absurd (none-some bytes told) };

    ghost extent_fits = { λ a. a.fits };

    ghost clock_fits = { λ a. a.clock_within };

    ghost good_fits = { λ a. a.good };

    ghost faults_fit = { λ a. a.faults_within };

    ghost goes_on_self = { λ a. tt };

    ghost goes_on_again = { λ a b c p q. tt };

    fn size(&self) -> u32 {
        self.size
    }

    fn read(&mut self, at: u32, into: &mut [u8]) -> Result<(), Failed>
        requires range { at + length into.old ≤ self.old.size }
        ensures size { self.new.size ≡ self.old.size }
        ensures into_stays { OnErr result (into.new ≡ into.old) }
        ensures clock { self.new.clock ≡ self.old.clock }
        ensures good { self.new.last_good ≡ self.old.last_good }
        ensures cause { HasCause self.old.faults self.new.faults result }

        ensures absent { self.old.file ≡ None → IsErr result × (self.new.file ≡ None) }
    {
        let n = into.len();
        if n > LONGEST_READ {
            return self.fail();
        }
        let bytes = &mut self.bytes[..];
        let read = match &mut self.file {
            Some(file) => file.read_at(at, &mut bytes[..n]).is_ok(),
            None => false,
        };
        if !read {
            return self.fail();
        }
        into.copy_from_slice(&self.bytes[..n]);
        Ok(())
    }

    fn write(&mut self, at: u32, bytes: &[u8]) -> Result<(), Failed>
        requires range { at + length bytes.now ≤ self.old.size }
        requires piece { (1 ≤ length bytes.now) × (length bytes.now ≤ LONGEST_WRITE) }
        ensures size { self.new.size ≡ self.old.size }
        ensures time { Ticks self.old.clock self.new.clock self.old.last_good self.new.last_good result }
        ensures full { self.old.clock ≡ last_number → IsErr result }
        ensures cause { HasCause self.old.faults self.new.faults result }

        ensures absent { self.old.file ≡ None → IsErr result × (self.new.file ≡ None) }
    {
        let written = match &mut self.file {
            Some(file) if self.clock < u64::MAX => {
                self.is_unsettled = true;
                file.write_at(at, bytes).is_ok()
            }
            _ => false,
        };
        self.count(written)
    }

    fn sync(&mut self) -> Result<(), Failed>
        ensures size { self.new.size ≡ self.old.size }
        ensures time { Ticks self.old.clock self.new.clock self.old.last_good self.new.last_good result }
        ensures full { self.old.clock ≡ last_number → IsErr result }
        ensures cause { HasCause self.old.faults self.new.faults result }

        ensures absent { self.old.file ≡ None → IsErr result × (self.new.file ≡ None) }
    {
        let synced = match &mut self.file {
            Some(file) if self.clock < u64::MAX => file.sync().is_ok(),
            _ => false,
        };
        self.is_unsettled &= !synced;
        self.count(synced)
    }

    /// A file has no power to lose. A write that no sync came after is synced here, since all bytes are settled once power is back.
    fn power_cycle(&mut self) -> Result<(), Failed> {
        let settled = match &mut self.file {
            Some(file) if self.is_unsettled => file.sync().is_ok(),
            _ => true,
        };
        if !settled {
            return self.fail();
        }
        self.is_unsettled = false;
        Ok(())
    }
}
