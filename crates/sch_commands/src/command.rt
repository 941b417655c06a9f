//! Reads the words of a command.

ghost use Rattle.std.specs.Prelude.{◌≡◌, List, codes, false, IfOk, map, Some, None, is_some, string_bytes, if◌then◌else◌};
ghost use Rattle.std.specs.Char.{is_ascii_digit};
ghost use Rattle.std.specs.List.{list_all};
ghost use Rattle.std.specs.Option.{option_map};
ghost use Rattle.std.specs.Str.{bytes_eq};
ghost use Rattle.std.specs.Str.Parse.{digits_value};
ghost use Rattle.sch_words.specs.View.{texts_of};
ghost use Rattle.sch_commands.specs.Command.{admitted, both_names, command, default_depth, default_heap, is_listing, is_number, number_or, only_name, program_number, verb_of};
ghost use Rattle.sch_commands.specs.Command.{compile_of, count_of, gen_of, limits_of, list_of, run_of, step_of, steps_of};
ghost use Rattle.sch_commands.specs.CommandView.{command_of};

use sch_word::{Limits, Mem};
use sch_words::{Words, read_words};
use std::alloc::Global;

/// A command: the names are those in the words, and a program that is made goes by its number.
#[derive(Clone, Copy)]
pub enum Command<'a> {
    Compile(Compilation<'a>),
    Run(SourceRun<'a>),
    Step { image: &'a str, steps: u64 },
    Generate { number: u32, steps: u64 },
    List { source: &'a str, limits: Limits },
    Count(SourceRun<'a>),
}

/// A source that is compiled: to which file, with which file for its listing, if any, and under which limits.
#[derive(Clone, Copy)]
pub struct Compilation<'a> {
    pub source: &'a str,
    pub target: &'a str,
    pub listing: Option<&'a str>,
    pub limits: Limits,
}

/// A source that is run: under which limits, and of how many steps at most.
#[derive(Clone, Copy)]
pub struct SourceRun<'a> {
    pub source: &'a str,
    pub limits: Limits,
    pub steps: u64,
}

/// The steps where the words give none.
const DEFAULT_STEPS: u64 = 1_000_000_000;

/// The heap of a program where the words give none, 64 MiB, and its depth.
const DEFAULT_HEAP: u64 = 1 << 26;

const DEFAULT_DEPTH: u64 = 100_000;

/// The most steps, and the most digits of a number.
const MAX_STEPS: u64 = 1_000_000_000_000_000_000;

const MAX_DIGITS: usize = 19;

/// The greatest number of which a program is made: 2,147,483,647.
const MAX_PROGRAM_NUMBER: u64 = (1 << 31) - 1;

/// The limits of a program where the words give none.
pub fn default_limits() -> Limits
    ensures { (result.heap ≡ default_heap) × (result.depth ≡ default_depth) }
{
    Limits {
        heap: DEFAULT_HEAP,
        depth: DEFAULT_DEPTH,
    }
}

/// The command that the words are, if they are one. The only error is out of memory.
pub fn read_command<'a>(alloc: Global, words: &'a [String]) -> Result<Option<Command<'a>>, Mem>
    ensures { IfOk result (λ read. command (map string_bytes words.now) ≡ option_map command_of read) }
{
    match read_words(alloc, words)? {
        Some(given) => Ok(admit(&given)),
        None => Ok(None),
    }
}

// The command of these texts. `compile` alone takes a listing.
fn admit<'a>(given: &Words<'a>) -> Option<Command<'a>>
    ensures { admitted (texts_of given.now) ≡ option_map command_of result }
{
    let verb = given.verb?;
    if verb == "compile" {
        return admit_compile(given);
    }
    admit_unlisted(verb, given)
}

// The command of these texts where the verb is another.
fn admit_unlisted<'a>(verb: &str, given: &Words<'a>) -> Option<Command<'a>>
    requires { bytes_eq verb.now (codes "compile") ≡ false }
    ensures { verb_of verb.now (texts_of given.now) ≡ option_map command_of result }
{
    if given.listing.is_some() {
        return None;
    }
    if verb == "run" {
        return admit_run(given);
    }
    if verb == "step" {
        return admit_step(given);
    }
    if verb == "gen" {
        return admit_gen(given);
    }
    if verb == "list" {
        return admit_list(given);
    }
    if verb == "count" {
        return admit_count(given);
    }
    None
}

fn admit_compile<'a>(given: &Words<'a>) -> Option<Command<'a>>
    ensures { compile_of (texts_of given.now) ≡ option_map command_of result }
{
    if given.steps.is_some() {
        return None;
    }
    let (source, target) = both_names(given)?;
    if !is_listing(source, target, given.listing) {
        return None;
    }
    let limits = limits_of(given)?;
    Some(Command::Compile(Compilation {
        source,
        target,
        listing: given.listing,
        limits,
    }))
}

fn admit_run<'a>(given: &Words<'a>) -> Option<Command<'a>>
    ensures { run_of (texts_of given.now) ≡ option_map command_of result }
{
    let source = only_name(given)?;
    let steps = steps_of(given)?;
    let limits = limits_of(given)?;
    Some(Command::Run(SourceRun {
        source,
        limits,
        steps,
    }))
}

fn admit_step<'a>(given: &Words<'a>) -> Option<Command<'a>>
    ensures { step_of (texts_of given.now) ≡ option_map command_of result }
{
    if given.heap.is_some() || given.depth.is_some() {
        return None;
    }
    let image = only_name(given)?;
    let steps = steps_of(given)?;
    Some(Command::Step { image, steps })
}

fn admit_gen<'a>(given: &Words<'a>) -> Option<Command<'a>>
    ensures { gen_of (texts_of given.now) ≡ option_map command_of result }
{
    if given.heap.is_some() || given.depth.is_some() {
        return None;
    }
    let name = only_name(given)?;
    let number = program_number(name)?;
    let steps = steps_of(given)?;
    Some(Command::Generate { number, steps })
}

fn admit_list<'a>(given: &Words<'a>) -> Option<Command<'a>>
    ensures { list_of (texts_of given.now) ≡ option_map command_of result }
{
    if given.steps.is_some() {
        return None;
    }
    let source = only_name(given)?;
    let limits = limits_of(given)?;
    Some(Command::List { source, limits })
}

fn admit_count<'a>(given: &Words<'a>) -> Option<Command<'a>>
    ensures { count_of (texts_of given.now) ≡ option_map command_of result }
{
    let source = only_name(given)?;
    let steps = steps_of(given)?;
    let limits = limits_of(given)?;
    Some(Command::Count(SourceRun {
        source,
        limits,
        steps,
    }))
}

// The number of which a program is made.
fn program_number(digits: &str) -> Option<u32>
    ensures { program_number digits.now ≡ result }
{
    let number = read_number(digits)?;
    if number <= MAX_PROGRAM_NUMBER {
        Some(number as u32)
    } else {
        None
    }
}

// The name, where there is no second one.
fn only_name<'a>(given: &Words<'a>) -> Option<&'a str>
    ensures { only_name (texts_of given.now) ≡ option_map (λ name. name.now) result }
{
    if given.second.is_some() {
        return None;
    }
    let name = given.name?;
    if name.is_empty() { None } else { Some(name) }
}

// Both names, where they differ.
fn both_names<'a>(given: &Words<'a>) -> Option<(&'a str, &'a str)>
    ensures { both_names (texts_of given.now) ≡ option_map (λ names. (names.0.now, names.1.now)) result }
{
    let name = given.name?;
    let second = given.second?;
    if name.is_empty() || second.is_empty() || name == second {
        return None;
    }
    Some((name, second))
}

// Whether a name that is given for a listing is none of these two.
fn is_listing(name: &str, second: &str, given: Option<&str>) -> bool
    ensures { result ≡ is_listing name.now second.now (option_map (λ listing. listing.now) given.entry) }
{
    match given {
        Some(listing) => !listing.is_empty() && listing != name && listing != second,
        None => true,
    }
}

// The limits of a program, if they are admitted.
fn limits_of(given: &Words) -> Option<Limits>
    ensures { limits_of (texts_of given.now) ≡ option_map (λ limits. (limits.heap, limits.depth)) result }
{
    let heap = number_or(DEFAULT_HEAP, given.heap)?;
    let depth = number_or(DEFAULT_DEPTH, given.depth)?;
    Limits::new(heap, depth)
}

// The steps, if there are not too many.
fn steps_of(given: &Words) -> Option<u64>
    ensures { steps_of (texts_of given.now) ≡ result }
{
    let steps = number_or(DEFAULT_STEPS, given.steps)?;
    if steps <= MAX_STEPS {
        Some(steps)
    } else {
        None
    }
}

// The number that an option gives, or another where the option is not there.
fn number_or(other: u64, given: Option<&str>) -> Option<u64>
    ensures { number_or other (option_map (λ digits. digits.now) given.entry) ≡ result }
{
    match given {
        Some(digits) => read_number(digits),
        None => Some(other),
    }
}

fn read_number(digits: &str) -> Option<u64>
    ensures { result ≡ (if is_number digits.now then Some (digits_value 10 digits.now) else None) }
{
    if digits.is_empty() || digits.len() > MAX_DIGITS || !are_digits(digits.as_bytes()) {
        return None;
    }
    match digits.parse::<u64>() {
        Ok(number) => Some(number),
        Err(_) => None,
    }
}

fn are_digits(text: &[u8]) -> bool
    ensures { result ≡ list_all is_ascii_digit text.now }
{
    text.iter().all(|byte| byte.is_ascii_digit())
}
