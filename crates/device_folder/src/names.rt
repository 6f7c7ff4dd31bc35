ghost use Rattle.std.specs.Prelude.{◌≡◌, ◌≢◌, ◌↔◌, [], Option as Maybe, ℕ, OnOk, IsTrue, position};
ghost use Rattle.std.specs.Prelude.{string_bytes, option_map, find};
ghost use Rattle.device_folder.specs.Folder.{Name};
ghost use Rattle.device_folder.specs.Names.{choice_of};

use std::alloc::{AllocError, Global};

/// What a power loss is to leave a name standing for: the number of a file, or nothing.
#[derive(Debug, Drop)]
pub struct NameLeft {
    pub name: String,
    pub file: Option<u64>,
}

/// A name of a folder in memory.
#[derive(Debug, Drop)]
struct Entry {
    name: String,
    /// What it stands for.
    file: Option<u64>,
    /// What it has stood for since the last sync, or stood for then.
    earlier: Vec<Option<u64>>,
}

/// The names of a folder in memory. A name that isn't among them stands for nothing.
#[derive(Debug, Drop)]
pub(crate) struct Names {
    entries: Vec<Entry>,
}

// The first choice for a name.
fn choice_for(choices: &[NameLeft], name: &str) -> Option<Option<u64>>
    ensures { result ≡ choice_of choices.now name.now }
{
    match choices.iter().find(|choice| choice.name.as_str() == name) {
        Some(choice) => Some(choice.file),
        None => None,
    }
}

impl Entry {
    ghost use Rattle.std.specs.Prelude.{◌++◌, ◌∷◌, if◌then◌else◌, is_ok};
    ghost use Rattle.device_folder.specs.Names.{MayStand, IsSettledBy};

    // Keeps in mind what it stands for, before that changes.
    fn remember(&mut self) -> Result<(), AllocError>
        ensures name { self.new.name ≡ self.old.name }
        ensures file { self.new.file ≡ self.old.file }
        ensures earlier { self.new.earlier.items
            ≡ (if is_ok result then self.old.earlier.items ++ self.old.file ∷ []
            else self.old.earlier.items) }
    {
        if self.earlier.push(self.file).is_err() {
            return Err(AllocError);
        }
        Ok(())
    }

    // Whether a crash may leave it standing for that.
    fn may_stand(&self, to: Option<u64>) -> bool
        ensures { IsTrue result ↔ MayStand (Some self.now) to }
    {
        self.file == to || self.earlier.contains(&to)
    }

    // Makes it stand for the choice for it, durably, or else for what it stands for.
    fn settle(&mut self, choices: &[NameLeft])
        ensures { IsSettledBy choices.now self.old self.new }
    {
        if let Some(file) = choice_for(choices, &self.name) {
            if self.may_stand(file) {
                self.file = file;
            }
        }
        self.earlier.clear();
    }
}

impl Names {
    ghost use Rattle.device_folder.specs.Folder.{Keeps};
    ghost use Rattle.device_folder.specs.Names.{has_name, named, MayName, IsReady, Changes};
    ghost use Rattle.device_folder.specs.Names.{AreSettledBy};

    pub(crate) fn new(alloc: Global) -> Names
        ensures { result.entries.items ≡ [] }
    {
        Names {
            entries: Vec::new(alloc),
        }
    }

    /// The file that a name stands for.
    pub(crate) fn file_of(&self, name: &str) -> Option<u64>
        ensures { result ≡ named self.now.entries.items name.now }
    {
        match self.place(name) {
            Some(place) => self.entries[place].file,
            None => None,
        }
    }

    // The first place of a name.
    fn place(&self, name: &str) -> Option<usize>
        ensures { result ≡ position (has_name name.now) self.now.entries.items }
    {
        self.entries
            .iter()
            .position(|entry| entry.name.as_str() == name)
    }

    /// Makes room for a change of the name. It changes nothing by itself.
    pub(crate) fn ready(&mut self, alloc: Global, name: &str) -> Result<(), AllocError>
        ensures same { Changes Keeps self.old.entries.items self.new.entries.items }
        ensures ready { OnOk result (IsReady self.new.entries.items name.now) }
        ensures others { (other : Name) → IsReady self.old.entries.items other
            → IsReady self.new.entries.items other }
    {
        if let Some(place) = self.place(name) {
            return self.entries[place].remember();
        }
        let name = name.to_owned(alloc)?;
        let mut earlier = Vec::new(alloc);
        earlier.push(None)?;
        let entry = Entry {
            name,
            file: None,
            earlier,
        };
        if self.entries.push(entry).is_err() {
            return Err(AllocError);
        }
        Ok(())
    }

    /// Makes a name stand for that, where there is room for it.
    pub(crate) fn set(&mut self, name: &str, file: Option<u64>)
        requires { IsReady self.old.entries.items name.now }
        ensures is { named self.new.entries.items name.now ≡ file }
        ensures changes { Changes (λ n to. (n ≡ name.now) × (to ≡ file))
            self.old.entries.items self.new.entries.items }
        ensures others { (other : Name) → other ≢ name.now → IsReady self.old.entries.items other
            → IsReady self.new.entries.items other }
    {
        if let Some(place) = self.place(name) {
            self.entries[place].file = file;
        }
    }

    /// Makes each name stand for the first choice for it, if a crash may leave that, and else for
    /// what it stands for. Afterwards no name is pending.
    pub(crate) fn settle(&mut self, choices: &[NameLeft])
        ensures { AreSettledBy choices.now self.old.entries.items self.new.entries.items }
    {
        for entry in self.entries.iter_mut() {
            entry.settle(choices);
        }
    }
}
