//! The one call that the program makes, with what it promises.
#![tactic(auto)]

ghost use Rattle.std.specs.Prelude.{◌≡◌, ◌≢◌, ◌⊎◌, None, Some, map, string_bytes, if◌then◌else◌, ◌==◌};
ghost use Rattle.std.specs.IoError.{error_kind};
ghost use Rattle.sch_commands.specs.Command.{IfCompile, IfCount, IfGen, IfList, IfRun, IfStep, command};
ghost use Rattle.sch_commands.specs.CommandView.{command_of};
ghost use Rattle.sch_cli.specs.Compiles.{EndsCompile};
ghost use Rattle.sch_cli.specs.Counts.{EndsCount};
ghost use Rattle.sch_cli.specs.Images.{FollowsImage, IsStep};
ghost use Rattle.sch_cli.specs.Lists.{EndsList};
ghost use Rattle.sch_cli.specs.Prints.{EndsGen};
ghost use Rattle.sch_cli.specs.Messages.{Says, out_of_memory_line, usage_line};
ghost use Rattle.sch_cli.specs.Seen.{disk_change, stream_change};
ghost use Rattle.sch_cli.specs.Sources.{CompletesCompile, CompletesRun, FollowsNumber, FollowsSource};
ghost use Rattle.sch_cli.specs.Steps.{EndsRun, RunsSource, StepsImage};

mod build;
mod compile;
mod counted;
mod execute;
mod failure;
mod figures;
mod file;
mod generated;
mod laws;
mod list;
mod message;
mod print;
mod run;
mod status;

use compile::{compile, report_compile};
use counted::count_source;
use generated::{generate_program, report_generated};
pub use laws::a_source_has_one_status;
use list::list_source;
use message::{say, say_out_of_memory};
use print::report_printed;
use run::{report_run, run_source, step_image};
use sch_commands::{Command, read_command};
use sch_io::{Disk, Outlet};
use sch_word::Mem;
use status::Status;
use std::alloc::Global;
use std::io::{Error, ErrorKind};

const USAGE: &str =
    "usage: schc VERB NAME [NAME2] [--listing F] [--heap N] [--depth N] [--steps N]";

/// Does what the program does, on the words after its name, and answers its exit status.
///
/// `compile NAME NAME2` reads the source NAME and writes NAME2, an executable that does what the source
/// means, and then the text of its listing into the file F of `--listing F`: 0. `run NAME` compiles the source and runs its
/// image, `step NAME` runs the image NAME, both of at most 1,000,000,000 steps or of those in `--steps N`; what the image writes
/// goes to `out`. `list NAME` compiles the source NAME and prints its listing on `out`. `count NAME` compiles it and runs its
/// image with as many steps, and prints on `out` the activations, leaves and saves of each body, and the status. `gen N` makes a
/// text of the number N, compiles it and runs it with as many steps, and prints on `out` the bytes of the text, of its image
/// and of its output, its instructions and its status. A program that is compiled has a heap of 67,108,864 bytes or of those in
/// `--heap N`, and a depth of 100,000 pending calls or of those in `--depth N`.
///
/// The other statuses, each with its line on `err`: 1 the words are no command, 2 NAME was not read,
/// 3 NAME2 or F or what `list`, `count` or `gen` prints was not written, 4 NAME is not accepted by the reader, 5 it has a bad
/// form or defines a keyword, 6 it has an unbound variable, 7 it passes a limit, as that of 1,048,576 bytes (an image:
/// 134,217,728), that of the frames at its depth or that of the text of its image, 16,777,216 bytes, 8 NAME
/// stands for no image, or its image got stuck or exited with a status of no stop, 9 the steps were spent,
/// 10 there was no memory, 65 to 74 the image ended with this stop.
pub fn schc<D: Disk, O: Outlet, E: Outlet>(
    alloc: Global,
    words: &[String],
    disk: &mut D,
    out: &mut O,
    err: &mut E,
) -> u8
    // 1 comes exactly where the words are no command, and then nothing is touched.
    ensures usage { result ≡ 1 → command (map string_bytes words.now) ≡ None }
    ensures command { result ≢ 1 → result ≢ 10 → command (map string_bytes words.now) ≢ None }
    ensures usage_line { result ≡ 1 → Says usage_line (stream_change E.bytes E.left E.faults err.old err.new) }
    ensures disk_at_1 { result ≡ 1 → disk.new ≡ disk.old }
    ensures out_at_1 { result ≡ 1 → out.new ≡ out.old }

    // Where there is no memory to read such words it is 10, and nothing is touched either.
    ensures memory_line { command (map string_bytes words.now) ≡ None → result ≡ 10 →
        Says out_of_memory_line (stream_change E.bytes E.left E.faults err.old err.new) }
    ensures disk_at_none { command (map string_bytes words.now) ≡ None → disk.new ≡ disk.old }
    ensures out_at_none { command (map string_bytes words.now) ≡ None → out.new ≡ out.old }

    // Compiling ends by its causes, with the line that says the cause, and writes nothing on `out`.
    ensures compile { IfCompile (command (map string_bytes words.now)) (λ source target listing heap depth.
        EndsCompile source target listing heap depth result (disk_change D.files D.faults D.calls disk.old disk.new)
        (stream_change E.bytes E.left E.faults err.old err.new)) }
    ensures compile_out { IfCompile (command (map string_bytes words.now)) (λ source target listing heap depth. out.new ≡ out.old) }

    // A source that is run ends as it means, and an image as the machine does, with a line that says so. 8 comes of an image
    // alone that was read from a file.
    ensures run { IfRun (command (map string_bytes words.now)) (λ source heap depth steps. EndsRun source result
        (disk_change D.files D.faults D.calls disk.old disk.new) (stream_change E.bytes E.left E.faults err.old err.new)
        (RunsSource source heap depth steps (disk_change D.files D.faults D.calls disk.old disk.new)
        (stream_change O.bytes O.left O.faults out.old out.new))) }
    ensures run_no_image { IfRun (command (map string_bytes words.now)) (λ source heap depth steps. result ≢ 8) }
    ensures step { IfStep (command (map string_bytes words.now)) (λ image steps. EndsRun image result
        (disk_change D.files D.faults D.calls disk.old disk.new) (stream_change E.bytes E.left E.faults err.old err.new)
        (StepsImage image steps (disk_change D.files D.faults D.calls disk.old disk.new)
        (stream_change O.bytes O.left O.faults out.old out.new))) }

    // The figures of the text that is made of a number are printed, or there are none. The disk is not called.
    ensures figures { IfGen (command (map string_bytes words.now)) (λ number steps. EndsGen number steps result
        (stream_change E.bytes E.left E.faults err.old err.new) (stream_change O.bytes O.left O.faults out.old out.new)) }
    ensures figures_disk { IfGen (command (map string_bytes words.now)) (λ number steps. disk.new ≡ disk.old) }
    ensures figures_no_image { IfGen (command (map string_bytes words.now)) (λ number steps. result ≢ 8) }

    // The listing of a source is printed, or there is none.
    ensures list { IfList (command (map string_bytes words.now)) (λ source heap depth. EndsList source heap depth result
        (disk_change D.files D.faults D.calls disk.old disk.new) (stream_change E.bytes E.left E.faults err.old err.new)
        (stream_change O.bytes O.left O.faults out.old out.new)) }

    // The counts of a source that is compiled and run are printed, or there are none.
    ensures count { IfCount (command (map string_bytes words.now)) (λ source heap depth steps. EndsCount source heap depth steps result
        (disk_change D.files D.faults D.calls disk.old disk.new) (stream_change E.bytes E.left E.faults err.old err.new)
        (stream_change O.bytes O.left O.faults out.old out.new)) }
    ensures count_no_image { IfCount (command (map string_bytes words.now)) (λ source heap depth steps. result ≢ 8) }

    // Of a verb on a source the statuses 4 to 7 come as what is said of the source has them.
    ensures compile_verdict { IfCompile (command (map string_bytes words.now)) (λ source target listing heap depth.
        FollowsSource source depth result (disk_change D.files D.faults D.calls disk.old disk.new)) }
    ensures run_verdict { IfRun (command (map string_bytes words.now)) (λ source heap depth steps.
        FollowsSource source depth result (disk_change D.files D.faults D.calls disk.old disk.new)) }
    ensures list_verdict { IfList (command (map string_bytes words.now)) (λ source heap depth.
        FollowsSource source depth result (disk_change D.files D.faults D.calls disk.old disk.new)) }
    ensures count_verdict { IfCount (command (map string_bytes words.now)) (λ source heap depth steps.
        FollowsSource source depth result (disk_change D.files D.faults D.calls disk.old disk.new)) }
    ensures figures_verdict { IfGen (command (map string_bytes words.now)) (λ number steps.
        FollowsNumber number result (disk_change D.files D.faults D.calls disk.old disk.new)) }

    // Of `step` the status follows from the bytes of the file. It is 8 only of no more than 134,217,728 bytes, and of these only
    // where they stand for no image, or for one that got stuck or exited with a status of no stop. No other verb ends with 8.
    ensures step_verdict { IfStep (command (map string_bytes words.now)) (λ image steps.
        FollowsImage image steps result (disk_change D.files D.faults D.calls disk.old disk.new)
        (stream_change O.bytes O.left O.faults out.old out.new)) }
    ensures step_alone { result ≡ 8 → IsStep (command (map string_bytes words.now)) }

    // A small source is compiled, and run, where the disk does not fail and there is memory.
    ensures compile_complete { IfCompile (command (map string_bytes words.now)) (λ source target listing heap depth.
        CompletesCompile source target listing heap depth result (disk_change D.files D.faults D.calls disk.old disk.new)) }
    ensures run_complete { IfRun (command (map string_bytes words.now)) (λ source heap depth steps.
        CompletesRun source heap depth steps result (disk_change D.files D.faults D.calls disk.old disk.new)
        (stream_change O.bytes O.left O.faults out.old out.new)) }
{
    match read_command(alloc, words) {
        Ok(Some(command)) => perform(alloc, command, disk, out, err),
        Ok(None) => report_usage(err),
        Err(Mem) => report_no_memory(err),
    }
}

// Does what a command asks for, and answers the exit status.
fn perform<D: Disk, O: Outlet, E: Outlet>(
    alloc: Global,
    command: Command,
    disk: &mut D,
    out: &mut O,
    err: &mut E,
) -> u8
    ensures no_usage { result ≢ 1 }
    ensures compile { IfCompile (Some (command_of command.entry)) (λ source target listing heap depth.
        EndsCompile source target listing heap depth result (disk_change D.files D.faults D.calls disk.old disk.new)
        (stream_change E.bytes E.left E.faults err.old err.new)) }
    ensures compile_out { IfCompile (Some (command_of command.entry)) (λ source target listing heap depth. out.new ≡ out.old) }
    ensures run { IfRun (Some (command_of command.entry)) (λ source heap depth steps. EndsRun source result
        (disk_change D.files D.faults D.calls disk.old disk.new) (stream_change E.bytes E.left E.faults err.old err.new)
        (RunsSource source heap depth steps (disk_change D.files D.faults D.calls disk.old disk.new)
        (stream_change O.bytes O.left O.faults out.old out.new))) }
    ensures run_no_image { IfRun (Some (command_of command.entry)) (λ source heap depth steps. result ≢ 8) }
    ensures step { IfStep (Some (command_of command.entry)) (λ image steps. EndsRun image result
        (disk_change D.files D.faults D.calls disk.old disk.new) (stream_change E.bytes E.left E.faults err.old err.new)
        (StepsImage image steps (disk_change D.files D.faults D.calls disk.old disk.new)
        (stream_change O.bytes O.left O.faults out.old out.new))) }
    ensures figures { IfGen (Some (command_of command.entry)) (λ number steps. EndsGen number steps result
        (stream_change E.bytes E.left E.faults err.old err.new) (stream_change O.bytes O.left O.faults out.old out.new)) }
    ensures figures_disk { IfGen (Some (command_of command.entry)) (λ number steps. disk.new ≡ disk.old) }
    ensures figures_no_image { IfGen (Some (command_of command.entry)) (λ number steps. result ≢ 8) }
    ensures list { IfList (Some (command_of command.entry)) (λ source heap depth. EndsList source heap depth result
        (disk_change D.files D.faults D.calls disk.old disk.new) (stream_change E.bytes E.left E.faults err.old err.new)
        (stream_change O.bytes O.left O.faults out.old out.new)) }
    ensures count { IfCount (Some (command_of command.entry)) (λ source heap depth steps. EndsCount source heap depth steps result
        (disk_change D.files D.faults D.calls disk.old disk.new) (stream_change E.bytes E.left E.faults err.old err.new)
        (stream_change O.bytes O.left O.faults out.old out.new)) }
    ensures count_no_image { IfCount (Some (command_of command.entry)) (λ source heap depth steps. result ≢ 8) }
{
    let status = match command {
        Command::Compile(wanted) => {
            let answer = compile(alloc, wanted, disk);
            report_compile(err, wanted, &answer)
        }
        Command::Run(wanted) => {
            let answer = run_source(alloc, wanted, disk, out);
            report_run(err, wanted.source, &answer)
        }
        Command::Step { image, steps } => {
            let answer = step_image(alloc, image, steps, disk, out);
            report_run(err, image, &answer)
        }
        Command::Generate { number, steps } => {
            let answer = generate_program(alloc, number, steps, out);
            report_generated(err, number, &answer)
        }
        Command::List { source, limits } => {
            let answer = list_source(alloc, source, limits, disk, out);
            report_printed(err, source, &answer)
        }
        Command::Count(wanted) => {
            let answer = count_source(alloc, wanted, disk, out);
            report_printed(err, wanted.source, &answer)
        }
    };
    status.number()
}

// The answer to words that are no command: 1.
fn report_usage<E: Outlet>(err: &mut E) -> u8
    ensures status { result ≡ 1 }
    ensures line { Says usage_line (stream_change E.bytes E.left E.faults err.old err.new) }
{
    say(err, USAGE, "\n");
    Status::Usage.number()
}

// The answer where there was no memory for the words: 10.
fn report_no_memory<E: Outlet>(err: &mut E) -> u8
    ensures status { result ≡ 10 }
    ensures line { Says out_of_memory_line (stream_change E.bytes E.left E.faults err.old err.new) }
{
    say_out_of_memory(err);
    Status::OutOfMemory.number()
}

/// Answers for words that could not be taken from the host: 10 where there was no memory for them, and
/// 1 where one is no text.
pub fn report_words<E: Outlet>(error: &Error, err: &mut E) -> u8
    ensures status { (result ≡ 1) ⊎ (result ≡ 10) }
    ensures no_memory { error_kind error.now ≡ ErrorKind.OutOfMemory → result ≡ 10 }
    ensures no_text { error_kind error.now ≢ ErrorKind.OutOfMemory → result ≡ 1 }
    ensures line { Says (if result == 1 then usage_line else out_of_memory_line) (stream_change E.bytes E.left E.faults err.old err.new) }
{
    if error.kind() == ErrorKind::OutOfMemory {
        return report_no_memory(err);
    }
    report_usage(err)
}
