ghost use Rattle.std.specs.Prelude.{◌≡◌, ◌==◌, option_map, find};

use crate::names::NameLeft;
use sector_device::Picks;

/// What a power loss is to leave of a file that isn't lent.
#[derive(Debug, Drop)]
pub struct FileLeft {
    /// The number of the file.
    pub file: u64,
    /// What is left in sectors that are pending.
    pub picks: Picks,
}

/// What a power loss is to leave. The first choice for each name, and for each file, counts.
#[derive(Debug, Drop)]
pub struct Loss {
    pub names: Vec<NameLeft>,
    pub files: Vec<FileLeft>,
}

// The picks of the first choice for a file.
pub(crate) fn picks_for(choices: &[FileLeft], file: u64) -> Option<&Picks>
    ensures { option_map (λ picks. picks.now.list.items) result
        ≡ option_map (λ choice. choice.picks.list.items)
        (find (λ choice. choice.file == file) choices.now) }
{
    match choices.iter().find(|choice| choice.file == file) {
        Some(choice) => Some(&choice.picks),
        None => None,
    }
}
