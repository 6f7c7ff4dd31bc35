//! A command as help tells it, and how `clap` gets it.
use crate::option_table::{NumberOption, flag, option};
use clap::{Arg, ArgAction, Command};
use std::alloc::{AllocError, Global};

/// What help says of a command, and the words that it takes.
#[derive(Clone, Copy)]
pub(crate) struct CommandText {
    pub name: &'static str,
    pub about: &'static str,
    /// What its own help says instead.
    pub long_about: Option<&'static str>,
    /// What help says after the words.
    pub after: Option<&'static str>,
    pub words: &'static [Word],
}

/// A word of a command: its name, what help calls its value, its default, and what help says of it.
#[derive(Clone, Copy)]
pub(crate) enum Word {
    /// One without a name, which has to be there.
    Positional(&'static str, &'static str),
    /// One without a name, which may be left out.
    Optional(&'static str, &'static str),
    /// One or more without a name.
    Several(&'static str, &'static str),
    Flag(&'static str, &'static str),
    /// A flag that has a letter too.
    ShortFlag(char, &'static str, &'static str),
    /// An option with a text.
    Text(&'static str, &'static str, &'static str),
    /// An option with a text, which may be there several times.
    Repeated(&'static str, &'static str, &'static str),
    /// An option with a text that has a default.
    Defaulted(&'static str, &'static str, &'static str, &'static str),
    /// An option with one of these texts, which has a default.
    Choice(&'static str, &'static str, &'static [&'static str], &'static str, &'static str),
    /// An option with a number.
    Number(NumberOption, &'static str),
    /// An option with a number that has to be there.
    Needed(NumberOption, &'static str),
}

impl CommandText {
    /// It, for `clap`.
    pub(crate) fn command<'a>(&self, alloc: Global) -> Result<Command<'a>, AllocError> {
        let mut command = Command::new(alloc, self.name).about(self.about);
        if let Some(text) = self.long_about {
            command = command.long_about(text);
        }
        if let Some(text) = self.after {
            command = command.after_help(text);
        }
        for word in self.words {
            command = command.arg(word.arg(alloc))?;
        }
        Ok(command)
    }
}

/// The command, with these as its own.
pub(crate) fn with_commands<'a, V>(
    alloc: Global,
    command: Command<'a>,
    texts: &[(V, CommandText)],
) -> Result<Command<'a>, AllocError> {
    let mut command = command;
    for (_, text) in texts {
        command = command.subcommand(text.command(alloc)?)?;
    }
    Ok(command)
}

impl Word {
    fn arg<'a>(self, alloc: Global) -> Arg<'a> {
        match self {
            Word::Positional(name, help) => positional(alloc, name, help),
            Word::Optional(name, help) => positional(alloc, name, help).required(false),
            Word::Several(name, help) => positional(alloc, name, help)
                .num_args(1..)
                .action(ArgAction::Append),
            Word::Flag(name, help) => flag(alloc, name, help),
            Word::ShortFlag(short, name, help) => flag(alloc, name, help).short(short),
            Word::Text(name, value, help) => option(alloc, name, value, help),
            Word::Repeated(name, value, help) => {
                option(alloc, name, value, help).action(ArgAction::Append)
            }
            Word::Defaulted(name, value, default, help) => {
                option(alloc, name, value, help).default_value(default)
            }
            Word::Choice(name, value, texts, default, help) => option(alloc, name, value, help)
                .value_parser(texts)
                .default_value(default),
            Word::Number(number, help) => number.arg(alloc, help),
            Word::Needed(number, help) => number.arg(alloc, help).required(true),
        }
    }
}

// A word without a name, which has to be there.
fn positional<'a>(alloc: Global, name: &'a str, help: &'a str) -> Arg<'a> {
    Arg::new(alloc, name)
        .required(true)
        .help(help)
        .action(ArgAction::Set)
}
