//! Writes lines on the standard error. None of it takes memory.

ghost use Rattle.std.specs.Prelude.{◌≡◌, ◌≤◌, ◌<◌, ◌^◌, ◌++◌, codes, length};
ghost use Rattle.std.specs.Fmt.{decimal};
ghost use Rattle.std.specs.Int.{w32, w64, to_be_bytes};
ghost use Rattle.hex.specs.Hex.{encode_lower};
ghost use Rattle.sch_cli.specs.Messages.{Says, cause_text, end_line, exit_line, joined, out_of_memory_line, place_line, spent_line, stop_line, stuck_line};
ghost use Rattle.sch_cli.specs.Seen.{stream_change};

use hex::encode_to_slice;
use itoa::Buffer;
use sch_insn::StuckCause;
use sch_io::{Outlet, put_all};
use sch_listing::address_digits;
use sch_step::{RunEnd, Stuck};
use sch_word::Stop;

/// Writes a line in two parts. A failure of the outlet changes nothing else.
pub fn say<E: Outlet>(err: &mut E, subject: &str, text: &str)
    ensures line { Says (subject.now ++ text.now) (stream_change E.bytes E.left E.faults err.old err.new) }
    ensures faults { E.faults err.old ≤ E.faults err.new }
{
    if put_all(err, subject.as_bytes()) {
        put_all(err, text.as_bytes());
    }
}

/// Writes a line in pieces, and ends at the first that fails.
pub fn say_pieces<E: Outlet>(err: &mut E, pieces: &[&[u8]])
    ensures line { Says (joined pieces.now) (stream_change E.bytes E.left E.faults err.old err.new) }
    ensures faults { E.faults err.old ≤ E.faults err.new }
{
    for piece in pieces {
        if !put_all(err, piece) {
            return;
        }
    }
}

/// The line of a fault at a place of a source, with what the fault names.
pub fn say_at<E: Outlet>(err: &mut E, name: &str, at: u32, what: &str, subject: &[u8])
    ensures line { Says (place_line name.now at what.now subject.now) (stream_change E.bytes E.left E.faults err.old err.new) }
    ensures faults { E.faults err.old ≤ E.faults err.new }
{
    let mut buffer = Buffer::new();
    let digits = buffer.format(at).as_bytes();
    say_fault(err, name, digits, what, subject);
}

fn say_fault<'a, E: Outlet>(
    err: &mut E,
    name: &str,
    digits: &'a [u8],
    what: &str,
    subject: &'a [u8],
)
    ensures line { Says (name.now ++ (codes ": byte " ++ (digits.now ++ (codes ": " ++ (what.now ++ (subject.now ++ codes "\n"))))))
        (stream_change E.bytes E.left E.faults err.old err.new) }
    ensures faults { E.faults err.old ≤ E.faults err.new }
{
    say_pieces(
        err,
        &[
            name.as_bytes(),
            ": byte ".as_bytes(),
            digits,
            ": ".as_bytes(),
            what.as_bytes(),
            subject,
            "\n".as_bytes(),
        ],
    );
}

/// A line that ends with a number: of a segment, or an exit status.
pub fn say_numbered<E: Outlet>(err: &mut E, name: &str, what: &str, number: u64)
    ensures line { Says (name.now ++ (what.now ++ (decimal number ++ codes "\n"))) (stream_change E.bytes E.left E.faults err.old err.new) }
    ensures faults { E.faults err.old ≤ E.faults err.new }
{
    let mut buffer = Buffer::new();
    let digits = buffer.format(number).as_bytes();
    say_pieces(
        err,
        &[name.as_bytes(), what.as_bytes(), digits, "\n".as_bytes()],
    );
}

/// The line where there was no memory.
pub fn say_out_of_memory<E: Outlet>(err: &mut E)
    ensures line { Says out_of_memory_line (stream_change E.bytes E.left E.faults err.old err.new) }
    ensures faults { E.faults err.old ≤ E.faults err.new }
{
    say_pieces(err, &["out of memory\n".as_bytes()]);
}

/// The line for how a run of the image `name` ended: none where it exited with 0.
pub fn say_end<E: Outlet>(err: &mut E, name: &str, end: RunEnd)
    ensures line { Says (end_line name.now end) (stream_change E.bytes E.left E.faults err.old err.new) }
    ensures faults { E.faults err.old ≤ E.faults err.new }
{
    match end {
        RunEnd::Spent => say_spent(err),
        RunEnd::Exited(status) => say_exit(err, name, status),
        RunEnd::Stuck(stuck) => say_stuck(err, name, stuck),
    }
}

/// The line where the steps were spent.
pub fn say_spent<E: Outlet>(err: &mut E)
    ensures line { Says spent_line (stream_change E.bytes E.left E.faults err.old err.new) }
    ensures faults { E.faults err.old ≤ E.faults err.new }
{
    say_pieces(err, &["steps spent\n".as_bytes()]);
}

fn say_exit<E: Outlet>(err: &mut E, name: &str, status: u8)
    ensures line { Says (exit_line name.now status) (stream_change E.bytes E.left E.faults err.old err.new) }
    ensures faults { E.faults err.old ≤ E.faults err.new }
{
    if status == 0 {
        return;
    }
    match Stop::of_status(status) {
        Some(stop) => say_stop(err, stop),
        None => say_numbered(err, name, ": exit status ", status as u64),
    }
}

fn say_stop<E: Outlet>(err: &mut E, stop: Stop)
    ensures line { Says (stop_line stop) (stream_change E.bytes E.left E.faults err.old err.new) }
    ensures faults { E.faults err.old ≤ E.faults err.new }
{
    let mut buffer = Buffer::new();
    let digits = buffer.format(stop.status()).as_bytes();
    let text = stop.text().as_bytes();
    say_pieces(
        err,
        &[
            "stop ".as_bytes(),
            digits,
            ": ".as_bytes(),
            text,
            "\n".as_bytes(),
        ],
    );
}

// The end of the line of a machine that is stuck: the cause.
fn end_for(cause: StuckCause) -> &'static str
    ensures { result.now ≡ codes ": " ++ (cause_text cause ++ codes "\n") }
{
    match cause {
        StuckCause::Fetch => ": fetch\n",
        StuckCause::Access(_) => ": access\n",
        StuckCause::Flag => ": flag\n",
        StuckCause::Divide => ": divide\n",
        StuckCause::Kernel(_) => ": kernel\n",
    }
}

fn say_stuck<E: Outlet>(err: &mut E, name: &str, stuck: Stuck)
    ensures line { Says (stuck_line name.now stuck.at stuck.cause) (stream_change E.bytes E.left E.faults err.old err.new) }
    ensures faults { E.faults err.old ≤ E.faults err.new }
{
    let end = end_for(stuck.cause);
    if stuck.at < 1 << 32 {
        say_place(err, name, &address_digits(stuck.at as u32), end);
    } else {
        say_place(err, name, &long_address(stuck.at), end);
    }
}

fn long_address(address: u64) -> [u8; 16]
    ensures { result ≡ encode_lower (to_be_bytes w64 address) }
{
    let mut digits = [0; 16];
    let _ = encode_to_slice(address.to_be_bytes(), &mut digits);
    digits
}

fn say_place<E: Outlet>(err: &mut E, name: &str, digits: &[u8], end: &str)
    ensures line { Says (name.now ++ (codes ": stuck at " ++ (digits.now ++ end.now)))
        (stream_change E.bytes E.left E.faults err.old err.new) }
    ensures faults { E.faults err.old ≤ E.faults err.new }
{
    say_pieces(
        err,
        &[
            name.as_bytes(),
            ": stuck at ".as_bytes(),
            digits,
            end.as_bytes(),
        ],
    );
}
