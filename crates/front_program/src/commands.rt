//! The commands of `derbyfig`, and what help says of them.
ghost use Rattle.std.specs.Prelude.{◌≡◌, IfErr};
ghost use Rattle.clap.specs.Values.{kind_of};
ghost use Rattle.clap.specs.declared.error.kind.ErrorKind.TheVariants.{OutOfMemory};

use crate::command_table::{CommandText, Word, with_commands};
use crate::console_words::SCRIPT;
use crate::option_table::{
    ACCOUNT, AT, FORMAT, FROM, REFERENCE, SECONDS, SECTORS, SLOTS, STATIONS,
};
use clap::{Command, Error};
use ledger_inspection::Format;
use office_sessions::REQUESTS;
use std::alloc::Global;

/// The version of the programs, and the layout of the ledgers that they write.
pub const VERSION: &str = "1.0.0, layout 3";

const STATUSES: &str = "\
The status is 0 when it is done, 1 if there is no sound ledger or a rule refuses what is asked, 2 if the words are wrong,
and 3 if the file, the device, memory or a stream fails.
";

const SERVING: &str = "\
Keep a ledger open for counters that come and go.

A counter is a folder PATH with two named pipes, PATH/in and PATH/out, which its owner makes with mkfifo. It says a request
a line on PATH/in, and reads an answer a line on PATH/out, in the order of its requests. Answers are 'posted N R', where N
is the number of the batch, 'refused REASON R', 'undecided R', 'balance A M', 'refused NoAccount', 'found K since N',
'last R N', 'first R', 'hello X', 'archived N', 'copied N', 'office ..', 'wrong TEXT' and 'closing'. What was answered as
posted outlives a power failure.";

const CLOSING: &str = "\
What was asked at the counter before is answered first. If a client speaks there, its end is awaited as long. The status
is 1 if no office has the counter, or the client stays.
";

const STATUS_FACTS: &str = "\
Prints 'next N', the number of the next batch; 'free F', the free slots of the live bank; 'turns T', those taken since the
office opened; 'clients C', how many other counters have a client; and 'archived A', below which all batches are in the
archive, or 'archived none'. It waits until the office answers. The status is 1 if no office has the counter, or a client
speaks there.
";

const ARCHIVING: &str = "\
FOLDER has a ledger for each time that something was added, whose name is the number of its first batch in twenty digits.
'check', 'journal' and 'balances' take FOLDER as one ledger, or each file of it. The status is 1 if LEDGER doesn't go on where the archive ends, or if
batches between are no longer in LEDGER.
";

const FILE: &str = "The file or the disk that has the ledger";

const LOOKING: &str = "\
FILE is never written. While it is looked at, no other program can write it, unless --unlocked is given.
";

const READING: &str = "\
FILE is never written. While it is looked at, no other program can write it, unless --unlocked is given. Several are read
as one ledger: each has to go on where the one before ends, and the last may be the one that is posted to. The folder of
an archive stands for its files.
";

/// All of them.
pub(crate) fn derbyfig_command<'a>(alloc: Global) -> Result<Command<'a>, Error>
    ensures memory { IfErr result (λ error. kind_of error ≡ OutOfMemory) }
{
    let command = Command::new(alloc, "derbyfig")
        .about("A crash-safe ledger of accounts, which stations in a row share")
        .after_help(STATUSES)
        .version(VERSION)
        .subcommand_required(true);
    let command = with_commands(alloc, command, running_commands())?;
    let command = with_commands(alloc, command, looking_commands())?;
    Ok(with_commands(alloc, command, making_commands())?)
}

/// A command.
#[derive(Clone, Copy)]
pub(crate) enum Verb {
    Run,
    Serve,
    Close,
    Status,
    Check,
    Journal,
    Balances,
    Map,
    Format,
    Copy,
    Archive,
    Restore,
    Migrate,
}

impl Verb {
    /// The command of this name.
    pub(crate) fn named(name: &str) -> Option<Verb> {
        for part in [running_commands(), looking_commands(), making_commands()] {
            for (verb, text) in part {
                if text.name == name {
                    return Some(*verb);
                }
            }
        }
        None
    }
}

// The table, by what the commands are for.

const TO_RUN: &[(Verb, CommandText)] = &[
    (Verb::Run, RUN),
    (Verb::Serve, SERVE),
    (Verb::Close, CLOSE),
    (Verb::Status, STATUS),
];

const TO_LOOK: &[(Verb, CommandText)] = &[
    (Verb::Check, CHECK),
    (Verb::Journal, JOURNAL),
    (Verb::Balances, BALANCES),
    (Verb::Map, MAP),
];

const TO_MAKE: &[(Verb, CommandText)] = &[
    (Verb::Format, FORMATS),
    (Verb::Copy, COPY),
    (Verb::Archive, ARCHIVE),
    (Verb::Restore, RESTORE),
    (Verb::Migrate, MIGRATE),
];

// Each part has a function. One that named all three constants would be proved over all of their
// texts at once, which are more than the prover takes.

fn running_commands() -> &'static [(Verb, CommandText)] {
    TO_RUN
}

fn looking_commands() -> &'static [(Verb, CommandText)] {
    TO_LOOK
}

fn making_commands() -> &'static [(Verb, CommandText)] {
    TO_MAKE
}

// A command of which help says no more than this.
const PLAIN: CommandText = CommandText {
    name: "",
    about: "",
    long_about: None,
    after: None,
    words: &[],
};

const RUN: CommandText = CommandText {
    name: "run",
    about: "Run a script of commands on a device that can lose its power, which is in memory without FILE",
    after: Some(SCRIPT),
    words: &[
        Word::Optional("FILE", FILE),
        Word::Number(
            SECTORS,
            "How many sectors of 512 bytes the device has at least, 1 to 4000039: a file is made, or grown; 64 in memory without it",
        ),
    ],
    ..PLAIN
};

const SERVE: CommandText = CommandText {
    name: "serve",
    about: "Keep a ledger open for counters that come and go",
    long_about: Some(SERVING),
    after: Some(REQUESTS),
    words: &[
        Word::Positional("FILE", FILE),
        Word::Repeated(
            "counter",
            "PATH",
            "The folder of a counter, or NAME=PATH. By its name, else the last part of PATH, it keeps its station for good",
        ),
        Word::Text(
            "control",
            "PATH",
            "The folder of one more counter, behind the others, for whoever runs the office: see 'close' and 'status'",
        ),
        Word::Text(
            "archive",
            "FOLDER",
            "Keep every batch in the archive in FOLDER, which gets what it lacks at the start, between turns and at the end",
        ),
        Word::Text(
            "copies",
            "FOLDER",
            "Where a counter that says 'copy' has a copy of the ledger made, named by the number of its next batch",
        ),
        Word::Text(
            "counters-file",
            "FILE",
            "The file that keeps which station each counter has; FILE.counters beside the ledger without it, needed for a disk",
        ),
        Word::Flag(
            "counters-anew",
            "Write that file anew: what was posted before is no counter's, so a repetition of it is refused as Unknown",
        ),
        Word::Flag(
            "no-hello",
            "Take what a counter says before it says 'hello X' too, as half a line that an earlier client left in the pipe",
        ),
        Word::Flag("hello", "As without --no-hello"),
        Word::Flag(
            "terminal",
            "The terminal is a counter too, behind the others; the office closes where its input ends",
        ),
        Word::Number(
            STATIONS,
            "How many stations there are, 2 to 64; without it one for each counter, but two at least",
        ),
        Word::Number(
            FORMAT,
            "First make an empty ledger of two banks with SLOTS slots each, 1 to 1000000; refused if FILE holds anything",
        ),
        Word::Flag(
            "overwrite",
            "With --format: FILE may hold anything, which is erased",
        ),
        Word::Number(
            SECTORS,
            "Grow FILE to K sectors of 512 bytes, 1 to 4000039, if it has fewer; a ledger needs 4 SLOTS + 39",
        ),
    ],
};

const CLOSE: CommandText = CommandText {
    name: "close",
    about: "Close the office that has a counter, and wait until it has ended",
    after: Some(CLOSING),
    words: &[
        COUNTER,
        Word::Number(
            SECONDS,
            "How many seconds the office may take, 0 to 86400; 60 without it",
        ),
    ],
    ..PLAIN
};

const STATUS: CommandText = CommandText {
    name: "status",
    about: "Tell how the office stands that has a counter",
    after: Some(STATUS_FACTS),
    words: &[COUNTER],
    ..PLAIN
};

const CHECK: CommandText = CommandText {
    name: "check",
    about: "Tell whether the ledger is sound, its numbers, or where it is damaged",
    after: Some(READING),
    words: &[
        BOOK,
        UNLOCKED,
        Word::ShortFlag('q', "quiet", "Print nothing: the status tells"),
    ],
    ..PLAIN
};

const JOURNAL: CommandText = CommandText {
    name: "journal",
    about: "Print the records of both banks, and the balances after each",
    after: Some(READING),
    words: &[
        BOOK,
        UNLOCKED,
        Word::Number(
            FROM,
            "Only records with this sequence number or a later one",
        ),
        Word::Number(
            ACCOUNT,
            "Only records with an entry that names this account, and of these such entries",
        ),
        Word::Number(
            REFERENCE,
            "Only records with an entry of this reference, and of these such entries",
        ),
        Word::Flag("whole", "Of the records that are printed all entries"),
        AS,
        DATE,
    ],
    ..PLAIN
};

const BALANCES: CommandText = CommandText {
    name: "balances",
    about: "Print what the accounts hold, and their total",
    after: Some(READING),
    words: &[
        BOOK,
        UNLOCKED,
        Word::Number(
            AT,
            "What they held before the record with this sequence number",
        ),
        AS,
        DATE,
    ],
    ..PLAIN
};

const MAP: CommandText = CommandText {
    name: "map",
    about: "Draw the sectors as an SVG: what each is, which gates are open, and where it is damaged",
    after: Some(LOOKING),
    words: &[Word::Positional("FILE", FILE), UNLOCKED],
    ..PLAIN
};

const FORMATS: CommandText = CommandText {
    name: "format",
    about: "Make an empty ledger in a file, which is made if it isn't there, or on a disk",
    words: &[
        Word::Positional("FILE", "The file or the disk; refused if it holds anything"),
        HAS_SLOTS,
        Word::Flag("overwrite", "FILE may hold anything, which is erased"),
    ],
    ..PLAIN
};

const COPY: CommandText = CommandText {
    name: "copy",
    about: "Copy a ledger to another file or disk, with as many slots as are asked for",
    words: &[LEDGER, NEW, HAS_SLOTS, OVER_NEW],
    ..PLAIN
};

const ARCHIVE: CommandText = CommandText {
    name: "archive",
    about: "Add the batches of a ledger that an archive lacks to it",
    after: Some(ARCHIVING),
    words: &[
        LEDGER,
        Word::Positional(
            "FOLDER",
            "The folder of the archive; an empty one becomes an archive of all that LEDGER lists",
        ),
    ],
    ..PLAIN
};

const RESTORE: CommandText = CommandText {
    name: "restore",
    about: "Make a ledger that goes on where an archive ends",
    words: &[
        Word::Positional("FOLDER", "The folder of the archive; it is only read"),
        NEW,
        HAS_SLOTS,
        OVER_NEW,
    ],
    ..PLAIN
};

const MIGRATE: CommandText = CommandText {
    name: "migrate",
    about: "Copy a ledger of layout 1 or 2 to another file or disk, in layout 3",
    words: &[
        Word::Positional(
            "OLD",
            "The file or the disk that has the older ledger; it is only read",
        ),
        NEW,
        HAS_SLOTS,
        OVER_NEW,
    ],
    ..PLAIN
};

// The words that several commands have.

const COUNTER: Word = Word::Positional("COUNTER", "The folder of a counter, as serve was given it");

const BOOK: Word = Word::Several(
    "FILE",
    "A file or a disk that has a ledger, or the folder of an archive; several are read as one",
);

const UNLOCKED: Word = Word::Flag(
    "unlocked",
    "Look even if another program has the file; what is printed may be torn",
);

const AS: Word = Word::Choice("as", "FORMAT", Format::NAMES, "table", "How it is printed");

const DATE: Word = Word::Defaulted(
    "date",
    "YYYY-MM-DD",
    "1970-01-01",
    "The date of each transaction for hledger, since a ledger keeps no dates",
);

const LEDGER: Word = Word::Positional(
    "LEDGER",
    "The file or the disk that has the ledger; it is only read",
);

const NEW: Word = Word::Positional(
    "NEW",
    "Where the copy goes: made if nothing is there, and refused if it holds anything",
);

const OVER_NEW: Word = Word::Flag("overwrite", "NEW may hold anything, which is erased");

// How many slots a ledger gets that is made.
const HAS_SLOTS: Word = Word::Needed(
    SLOTS,
    "How many slots each of the two banks has, 1 to 1000000; the ledger has 4K + 39 sectors of 512 bytes",
);
