ghost use Rattle.std.specs.Prelude.{◌≡◌, ◌≢◌, ◌↔◌, ◌++◌, [], ◌∷◌, ℕ, Option as Maybe, None};
ghost use Rattle.std.specs.Prelude.{length, vec_len, slice_get, IsSome, IfOk, OnOk, OnErr, IsTrue};
ghost use Rattle.sector_device.specs.MemoryDevice.{memory_device_state, with_number};
ghost use Rattle.sector_device.specs.Image.{Image};
ghost use Rattle.device_folder.specs.Folder.{Name, AreFolderCalls, Keeps, NamesAreDurable};
ghost use Rattle.device_folder.specs.Folder.{MayLeave};
ghost use Rattle.device_folder.specs.Answers.{IsFailed, IsRefused, IsInUse};
ghost use Rattle.device_folder.specs.Names.{AreKnown};

use crate::loss::{FileLeft, Loss, picks_for};
use crate::names::Names;
use crate::{Folder, FolderFault};
use sector_device::{Device, DeviceFault, MemoryDevice, Picks, Sector};
use std::alloc::{AllocError, Global};
use std::mem;
use std::snapshot::Snapshot as Ghost;

/// A file of a `MemoryFolder` that is lent: a device in memory.
#[derive(Debug, Drop)]
pub struct MemoryFile {
    device: MemoryDevice,
    number: u64,
    ghost own: { (memory_device_state device).number ≡ number },
}

impl MemoryFile {
    fn new(device: MemoryDevice, number: u64) -> MemoryFile
        ensures { result.device ≡ with_number device number }
    {
        MemoryFile {
            device: device.numbered(number),
            number,
        }
    }
}

impl Device for MemoryFile {
    ghost use Rattle.sector_device.specs.MemoryLaws.{memory_sound};

    ghost state = { λ file. memory_device_state file.device };

    fn sectors(&self) -> u64 {
        self.device.sectors()
    }

    fn read(&mut self, at: u64, into: &mut Sector) -> Result<(), DeviceFault> {
        self.device.read(at, into)
    }

    fn write(&mut self, at: u64, from: &Sector) -> Result<(), DeviceFault> {
        self.device.write(at, from)
    }

    fn sync(&mut self) -> Result<(), DeviceFault> {
        self.device.sync()
    }

    ghost sound = { λ file _. memory_sound file.device };
}

/// A file of a folder in memory.
#[derive(Debug, Drop)]
enum Slot {
    /// It isn't lent.
    Kept(MemoryDevice),
    Lent,
    /// It was lent when the power was lost. Nothing is left of it: it has no sectors.
    Lost,
}

impl Slot {
    ghost use Rattle.device_folder.specs.Memory.{device_in};
    ghost use Rattle.device_folder.specs.Loss.{IsLostBy, picks_of};

    // Lends the file. One that is lost gives the empty device.
    fn lend(&mut self, empty: MemoryDevice) -> MemoryDevice
        ensures lent { self.new ≡ Slot.Lent }
        ensures device { result ≡ device_in self.old empty }
    {
        match mem::replace(self, Slot::Lent) {
            Slot::Kept(device) => device,
            _ => empty,
        }
    }

    // Loses power by the first choice for that file, or without one by none.
    fn lose_by(&mut self, choices: &[FileLeft], file: u64, none: &Picks)
        requires { none.now.list.items ≡ [] }
        ensures { IsLostBy (picks_of choices.now file) self.old self.new }
    {
        match picks_for(choices, file) {
            Some(picks) => self.lose(picks),
            None => self.lose(none),
        }
    }

    // Loses power.
    fn lose(&mut self, picks: &Picks)
        ensures { IsLostBy picks.now.list.items self.old self.new }
    {
        if let Slot::Kept(device) = mem::replace(self, Slot::Lost) {
            *self = Slot::Kept(device.crash(picks));
        }
    }
}

/// What a folder in memory consists of.
#[derive(Debug, Drop)]
struct Parts {
    names: Names,
    /// The files, by their numbers.
    files: Vec<Slot>,
}

/// A folder in memory, which is honest: it keeps every fact of `Folder`.
///
/// No call fails: where memory is short it is refused, and changes nothing. What the folder was
/// before each call is remembered for contracts alone, at the cost of a count.
#[derive(Drop)]
pub struct MemoryFolder {
    alloc: Global,
    parts: Parts,
    past: Vec<Ghost<Parts>>,
    ghost known: { AreKnown parts.names.entries.items (vec_len parts.files) },
}

impl MemoryFolder {
    ghost use Rattle.device_folder.specs.Names.{Changes, IsReady};
    ghost use Rattle.device_folder.specs.Names.{TakesChoice, choice_of};
    ghost use Rattle.device_folder.specs.Memory.{memory_folder_state, IsNoted, Finds};
    ghost use Rattle.device_folder.specs.Loss.{AreLostBy, HasFilePicks, as_left};

    /// A folder without any name.
    pub fn new(alloc: Global) -> MemoryFolder
        ensures empty { (name : Name) → (memory_folder_state result).names name ≡ None }
        ensures durable { NamesAreDurable (memory_folder_state result) }
        ensures nothing_lent { (file : ℕ) → (memory_folder_state result).lent file → ⊥ }
    {
        MemoryFolder {
            alloc,
            parts: Parts {
                names: Names::new(alloc),
                files: Vec::new(alloc),
            },
            past: Vec::new(alloc),
        }
    }

    /// The number of the file that a name stands for.
    pub fn file_of(&self, name: &str) -> Option<u64>
        ensures { result ≡ (memory_folder_state self.now).names name.now }
    {
        self.parts.names.file_of(name)
    }

    /// Loses power. A name stands for its choice if that is what a crash may leave, and else for
    /// what it stands for. A pending sector of a file that isn't lent takes the bytes of its last
    /// pick, or without one keeps what reads give. Nothing is left of a file that is lent: a caller
    /// that wants what is left of its device gives it back first. Afterwards nothing is pending.
    pub fn crash(mut self, loss: &Loss) -> MemoryFolder
        ensures chosen { (name : Name) → TakesChoice (choice_of loss.now.names.items name)
            ((memory_folder_state self).may_name name) ((memory_folder_state self).names name)
            ((memory_folder_state result).names name) }
        ensures picked { (file : ℕ) → HasFilePicks self loss.now.files.items file
            ((memory_folder_state result).reads file) }
        ensures lawful { MayLeave (memory_folder_state self)
            (as_left (memory_folder_state result)) }
        ensures names_durable { NamesAreDurable (memory_folder_state result) }
        ensures files_durable { (file : ℕ) (image : Image)
            → (memory_folder_state result).may_hold file image
            → image ≡ (memory_folder_state result).reads file }
        ensures nothing_lent { (file : ℕ) → (memory_folder_state result).lent file → ⊥ }
    {
        self.parts.names.settle(&loss.names);
        self.lose_files(&loss.files);
        self.past.clear();
        self
    }

    // Loses what is pending in files.
    fn lose_files(&mut self, choices: &[FileLeft])
        ensures lost { AreLostBy choices.now self.old.parts.files.items
            self.new.parts.files.items }
        ensures names { self.new.parts.names ≡ self.old.parts.names }
    {
        let none = Picks {
            list: Vec::new(self.alloc),
        };
        for (file, slot) in self.parts.files.iter_mut().enumerate() {
            slot.lose_by(choices, file as u64, &none);
        }
    }

    // Notes what the folder is before a call.
    fn note(&mut self) -> Result<(), AllocError>
        ensures parts { self.new.parts ≡ self.old.parts }
        ensures noted { OnOk result
            (IsNoted self.old.parts self.old.past.items self.new.past.items) }
        ensures past { OnErr result (self.new.past.items ≡ self.old.past.items) }
    {
        let now = Ghost::of(&self.parts);
        self.past.push(now)?;
        Ok(())
    }

    // Makes room for a change of a name.
    fn make_room(&mut self, name: &str) -> Result<(), AllocError>
        ensures names { Changes Keeps self.old.parts.names.entries.items
            self.new.parts.names.entries.items }
        ensures ready { OnOk result (IsReady self.new.parts.names.entries.items name.now) }
        ensures others { (other : Name) → IsReady self.old.parts.names.entries.items other
            → IsReady self.new.parts.names.entries.items other }
        ensures files { self.new.parts.files ≡ self.old.parts.files }
        ensures past { self.new.past.items ≡ self.old.past.items }
    {
        self.parts.names.ready(self.alloc, name)
    }

    // Adds a file that is lent.
    fn add_file(&mut self) -> Result<u64, AllocError>
        ensures number { IfOk result (λ number. number ≡ vec_len self.old.parts.files) }
        ensures added { OnOk result (self.new.parts.files.items
            ≡ self.old.parts.files.items ++ Slot.Lent ∷ []) }
        ensures same { OnErr result (self.new.parts.files.items ≡ self.old.parts.files.items) }
        ensures names { self.new.parts.names ≡ self.old.parts.names }
        ensures past { self.new.past.items ≡ self.old.past.items }
    {
        let number = self.parts.files.len() as u64;
        self.parts.files.push(Slot::Lent)?;
        Ok(number)
    }

    // Whether the file is lent.
    fn is_lent(&self, file: u64) -> bool
        ensures { IsTrue result ↔ (memory_folder_state self.now).lent file }
    {
        matches!(self.parts.files.get(file as usize), Some(Slot::Lent))
    }

    // Whether the name stands for a file that is lent.
    fn is_in_use(&self, name: &str) -> bool
        ensures { IsTrue result ↔ IsInUse (memory_folder_state self.now) name.now }
    {
        match self.file_of(name) {
            Some(file) => self.is_lent(file),
            None => false,
        }
    }

    // The file of a name, if it isn't lent.
    fn find(&self, name: &str) -> Result<u64, FolderFault>
        ensures { Finds (memory_folder_state self.now) name.now result }
    {
        let Some(file) = self.file_of(name) else {
            return Err(FolderFault::Missing);
        };
        if self.is_lent(file) {
            return Err(FolderFault::InUse);
        }
        Ok(file)
    }
}

impl Folder for MemoryFolder {
    ghost use Rattle.device_folder.specs.Memory.{memory_folder_state};
    ghost use Rattle.device_folder.specs.MemoryLaws.{memory_folder_sound};

    type File = MemoryFile;

    ghost state = { memory_folder_state };

    fn make(&mut self, name: &str, sectors: u64) -> Result<MemoryFile, FolderFault> {
        if self.file_of(name).is_some() {
            return Err(FolderFault::Exists);
        }
        let device = MemoryDevice::new(self.alloc, sectors)?;
        self.note()?;
        self.make_room(name)?;
        let file = self.add_file()?;
        self.parts.names.set(name, Some(file));
        Ok(MemoryFile::new(device, file))
    }

    fn open(&mut self, name: &str) -> Result<MemoryFile, FolderFault> {
        let file = self.find(name)?;
        let empty = MemoryDevice::new(self.alloc, 0)?;
        self.note()?;
        let device = self.parts.files[file as usize].lend(empty);
        Ok(MemoryFile::new(device, file))
    }

    fn keep(&mut self, file: MemoryFile) -> Result<(), FolderFault> {
        let MemoryFile { device, number } = file;
        if !self.is_lent(number) {
            return Err(FolderFault::Foreign);
        }
        self.note()?;
        self.parts.files[number as usize] = Slot::Kept(device);
        Ok(())
    }

    fn rename(&mut self, from: &str, to: &str) -> Result<(), FolderFault> {
        let file = self.find(from)?;
        if self.is_in_use(to) {
            return Err(FolderFault::InUse);
        }
        self.note()?;
        self.make_room(to)?;
        self.make_room(from)?;
        self.parts.names.set(to, Some(file));
        self.parts.names.set(from, None);
        Ok(())
    }

    fn remove(&mut self, name: &str) -> Result<(), FolderFault> {
        self.find(name)?;
        self.note()?;
        self.make_room(name)?;
        self.parts.names.set(name, None);
        Ok(())
    }

    fn exists(&self, name: &str) -> Result<bool, FolderFault> {
        Ok(self.file_of(name).is_some())
    }

    fn sync(&mut self) -> Result<(), FolderFault> {
        self.note()?;
        self.parts.names.settle(&[]);
        Ok(())
    }

    ghost sound = { λ folder _. memory_folder_sound folder };
}
