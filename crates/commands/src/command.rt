//! The commands, by their words.
use crate::certificate::print_certificate;
use crate::day::sample_task;
use crate::help::print_help;
use crate::question::Question;
use crate::sheet::{bytes_of, print_sheet};
use crate::source::Source;
use crate::task::Task;
use crate::words::{kind_of, number_of, source_of};
use anyhow::anyhow;
use std::str::from_utf8;

/// A command with its words read.
#[derive(Clone, Copy, PartialEq, Eq, Debug)]
pub enum Command<'a> {
    Sample,
    Help,
    Read {
        file: &'a str,
    },
    Plan {
        source: Source<'a>,
        question: Question,
    },
    Board {
        source: Source<'a>,
        script: &'a str,
    },
    Certificate {
        file: &'a str,
    },
}

impl<'a> Command<'a> {
    /// The command that words write. Other words than a command takes are an error.
    pub fn of(words: &[&'a str]) -> anyhow::Result<Command<'a>> {
        match *words {
            [] => Ok(Command::Sample),
            ["help"] => Ok(Command::Help),
            ["read", file] => Ok(Command::Read { file }),
            ["quote", source, root, target] => Command::quote(source, root, target, "length"),
            ["quote", source, root, target, kind] => Command::quote(source, root, target, kind),
            ["survey", source, root] => Command::survey(source, root, "length"),
            ["survey", source, root, kind] => Command::survey(source, root, kind),
            ["board", source, script] => Command::board(source, script),
            ["certificate", file] => Ok(Command::Certificate { file }),
            [command, ..] => Err(anyhow!("{}", usage(command))),
        }
    }

    fn quote(source: &'a str, root: &str, target: &str, kind: &str) -> anyhow::Result<Command<'a>> {
        Ok(Command::Plan {
            source: source_of(source)?,
            question: Question::Quote {
                root: number_of(root)?,
                target: number_of(target)?,
                kind: kind_of(kind)?,
            },
        })
    }

    fn survey(source: &'a str, root: &str, kind: &str) -> anyhow::Result<Command<'a>> {
        Ok(Command::Plan {
            source: source_of(source)?,
            question: Question::Survey {
                root: number_of(root)?,
                kind: kind_of(kind)?,
            },
        })
    }

    fn board(source: &'a str, script: &'a str) -> anyhow::Result<Command<'a>> {
        if source == "-" && script == "-" {
            return Err(anyhow!("only one of FILE and SCRIPT can be standard input"));
        }
        Ok(Command::Board {
            source: source_of(source)?,
            script,
        })
    }

    /// Does what the command says.
    pub fn run(self, rt: &HostRuntime) -> anyhow::Result<()> {
        match self {
            Command::Sample => sample_task(rt),
            Command::Help => print_help(rt),
            Command::Read { file } => {
                let bytes = bytes_of(rt, file)?;
                print_sheet(rt, bytes.as_slice())
            }
            Command::Plan { source, question } => source.perform(rt, Task::Ask(question)),
            Command::Board { source, script } => run_board(rt, source, script),
            Command::Certificate { file } => {
                let bytes = bytes_of(rt, file)?;
                print_certificate(rt, bytes.as_slice())
            }
        }
    }
}

// Runs the script in a file on a board over a network.
fn run_board(rt: &HostRuntime, source: Source, file: &str) -> anyhow::Result<()> {
    let bytes = bytes_of(rt, file)?;
    let Ok(script) = from_utf8(bytes.as_slice()) else {
        return Err(anyhow!("the script is no text"));
    };
    source.perform(rt, Task::Run { script })
}

// What is said of a command with other words than it takes.
fn usage(command: &str) -> &'static str {
    match command {
        "help" => "write: help",
        "read" => "write: read FILE",
        "quote" => "write: quote FILE ROOT TARGET [length|poles]",
        "survey" => "write: survey FILE ROOT [length|poles]",
        "board" => "write: board FILE SCRIPT",
        "certificate" => "write: certificate FILE",
        _ => "no such command: see resklodan help",
    }
}
