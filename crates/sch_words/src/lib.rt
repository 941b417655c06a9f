//! The words of a command line, read as one simple command.
#![tactic(auto)]

ghost use Rattle.std.specs.Prelude.{◌≡◌, IfOk, map, option_map, string_bytes};
ghost use Rattle.clap.specs.Words.{app_of, found_of, rows_of, with_rule};
ghost use Rattle.sch_words.specs.PlainReading.{plain_reading};
ghost use Rattle.sch_words.specs.SimpleCommand.{clap_reading, no_arguments, option, positional, positionals_only, schc, texts_of_rows};
ghost use Rattle.sch_words.specs.View.{texts_of};

use clap::error::ErrorKind;
use clap::{Arg, ArgMatches, Command};
use sch_word::Mem;
use std::alloc::Global;

/// The texts that the words give, each where it is there: up to three positionals, and an option's text for
/// each of `--listing`, `--heap`, `--depth` and `--steps`. They lie in the words.
#[derive(Drop)]
pub struct Words<'a> {
    pub verb: Option<&'a str>,
    pub name: Option<&'a str>,
    pub second: Option<&'a str>,
    pub listing: Option<&'a str>,
    pub heap: Option<&'a str>,
    pub depth: Option<&'a str>,
    pub steps: Option<&'a str>,
}

/// Reads the words after the program's name as one simple command of `clap`.
///
/// Before a word `--`, a word is the text of the next positional, `--name=text`, or `--name` with its text in
/// the next word. Each option goes by its name in full and stands at most once. A text that is a word of its
/// own does not begin with `-`, but may be `-` itself. After `--` each word is the text of a positional.
/// Other words are refused: `None`. The only error is out of memory.
pub fn read_words<'a>(alloc: Global, words: &'a [String]) -> Result<Option<Words<'a>>, Mem>
    // The texts are there exactly where clap finds no fault in the words, and are those that it reads.
    ensures clap { IfOk result (λ read. option_map texts_of read ≡ clap_reading (map string_bytes words.now)) }
    // The same with no word of clap.
    ensures plain { IfOk result (λ read. option_map texts_of read ≡ plain_reading (map string_bytes words.now)) }
{
    let command = command(alloc)?;
    match command.try_get_matches_from(words) {
        Ok(matches) => Ok(Some(words_in(&matches))),
        Err(error) => {
            if error.kind() == ErrorKind::OutOfMemory {
                Err(Mem)
            } else {
                Ok(None)
            }
        }
    }
}

// The texts in what clap keeps of each argument.
fn words_in<'a>(matches: &ArgMatches<'a>) -> Words<'a>
    ensures { texts_of result ≡ texts_of_rows (rows_of (found_of matches.now)) }
{
    Words {
        verb: matches.get_str("verb"),
        name: matches.get_str("name"),
        second: matches.get_str("second"),
        listing: matches.get_str("listing"),
        heap: matches.get_str("heap"),
        depth: matches.get_str("depth"),
        steps: matches.get_str("steps"),
    }
}

// The command: three positionals and four options, of one text each, and neither `--help` nor `--version`.
fn command<'a>(alloc: Global) -> Result<Command<'a>, Mem>
    ensures { IfOk result (λ command. app_of command ≡ schc) }
{
    let command = positionals(alloc)?;
    let command = with_two_options(alloc, command, "listing", "heap")?;
    with_two_options(alloc, command, "depth", "steps")
}

// The command with its positionals alone.
fn positionals<'a>(alloc: Global) -> Result<Command<'a>, Mem>
    ensures { IfOk result (λ command. app_of command ≡ positionals_only) }
{
    let command = without_arguments(alloc);
    let command = with_positional(alloc, command, "verb")?;
    let command = with_positional(alloc, command, "name")?;
    with_positional(alloc, command, "second")
}

fn without_arguments<'a>(alloc: Global) -> Command<'a>
    ensures { app_of result ≡ no_arguments }
{
    Command::new(alloc, "schc")
        .no_binary_name(true)
        .disable_help_flag(true)
        .disable_version_flag(true)
}

fn with_positional<'a>(
    alloc: Global,
    command: Command<'a>,
    name: &'a str,
) -> Result<Command<'a>, Mem>
    ensures { IfOk result (λ made. app_of made ≡ with_rule (app_of command.entry) (positional name.entry.now)) }
{
    Ok(command.arg(Arg::new(alloc, name))?)
}

// The command with two more options.
fn with_two_options<'a>(
    alloc: Global,
    command: Command<'a>,
    first: &'a str,
    second: &'a str,
) -> Result<Command<'a>, Mem>
    ensures { IfOk result (λ made. app_of made ≡
        with_rule (with_rule (app_of command.entry) (option first.entry.now)) (option second.entry.now)) }
{
    let command = with_option(alloc, command, first)?;
    with_option(alloc, command, second)
}

fn with_option<'a>(alloc: Global, command: Command<'a>, name: &'a str) -> Result<Command<'a>, Mem>
    ensures { IfOk result (λ made. app_of made ≡ with_rule (app_of command.entry) (option name.entry.now)) }
{
    Ok(command.arg(Arg::new(alloc, name).long(name))?)
}
