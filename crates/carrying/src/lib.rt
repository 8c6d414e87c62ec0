// What a read gave, carried out and printed. The lines are carried out scan after scan, just the bytes that these write are printed, and the rest of
// the read is kept. What a write does is not in a contract.
#![tactic(auto)]

ghost use Rattle.std.specs.Prelude.{◌≡◌, ◌+◌, ◌%◌, ◌^◌, ◌≤◌, length, take};
ghost use Rattle.carrying.specs.Text.{said_of};
ghost use Rattle.carrying.specs.Post.{headway_of, Prints, PrintPost, PassPost, CarriedPost, ToStartPost};

use lines::{Scan, Scanned, scan_lines};
use processor::Processor;
use rules::Refusal;
use std::error::Error;
use std::io::{ErrorKind, Write};
use std::{fmt, io};

// A survey on its way: the processor, how many bytes at the start of the input buffer are not carried out yet, and how many bytes of input were.
// Stays: a length beside a buffer, since `carried` promises its answer of whatever buffer it is lent.
#[derive(Clone, Copy)]
pub struct Survey {
    pub processor: Processor,
    pub kept: usize,
    pub used: u64,
}

// How far a survey came in its input, with which processor, and whether it goes on from there.
#[derive(Clone, Copy)]
pub struct Headway {
    pub processor: Processor,
    pub from: usize,
    pub goes_on: bool,
}

// Why a survey stops before the end of its input: it is refused after so many bytes; nobody reads what it prints any more; a read or a write failed;
// or the output has no room for a line.
#[derive(Clone, Copy, Debug)]
pub enum Stop {
    Refused(Refusal, u64),
    Unread,
    CannotRead(io::Error),
    CannotWrite(io::Error),
    NoRoom,
}

impl fmt::Display for Stop {
    ghost output = { said_of };

    fn fmt<W: fmt::Write>(&self, f: &mut fmt::Formatter<W>) -> fmt::Result {
        match self {
            Stop::Refused(refusal, used) => {
                let number = u8::from(*refusal);
                write!(f, "refusal {number} at byte {used}")
            }
            Stop::Unread => f.write_str("nobody reads"),
            Stop::CannotRead(error) => write_failed(f, "cannot read", error),
            Stop::CannotWrite(error) => write_failed(f, "cannot write", error),
            Stop::NoRoom => f.write_str("no room for a line"),
        }
    }
}

impl Error for Stop {}

// What failed and why. The reason is the system's text for it, without the number that `io::Error` writes behind it.
fn write_failed<W: fmt::Write>(
    f: &mut fmt::Formatter<W>,
    what: &str,
    error: &io::Error,
) -> fmt::Result {
    // Stays: a buffer with a length beside it, since memory is fixed and a String is on the heap.
    let mut bytes = [0u8; 256];
    let mut writer = io::Cursor::new(bytes.as_mut_slice());
    let _ = write!(writer, "{error}");
    let n = writer.position().min(256) as usize;
    let text = std::str::from_utf8(&bytes[..n]).unwrap_or("");
    let why = text
        .split_once(" (os error ")
        .map_or(text, |(words, _)| words);
    write!(f, "{what}: {why}")
}

// ---- output

// Writes the bytes, however little each call takes; one that a signal interrupts takes nothing. Its caller shows that they are just those of the lines
// that were carried out, from a processor and a place of the input on: for this alone it is handed what it does not use. Nothing says that a write takes
// a byte, so the loop has a count that no run uses up.
pub fn print(
    rt: &impl Print,
    p: Processor,
    input: &[u8],
    from: usize,
    complete: bool,
    r: Headway,
    bytes: &[u8],
) -> Result<(), Stop>
    requires { Prints p input.now from complete r bytes.now }
    ensures { PrintPost result }
{
    let mut done: usize = 0;
    for _ in 0..u64::MAX {
        if done == bytes.len() {
            return Ok(());
        }
        match rt.write_some(&bytes[done..]) {
            Ok(taken) => done += taken,
            Err(error) if error.kind() == ErrorKind::Interrupted => {}
            Err(error) if error.kind() == ErrorKind::BrokenPipe => return Err(Stop::Unread),
            Err(error) => return Err(Stop::CannotWrite(error)),
        }
    }
    Err(Stop::Unread)
}

// ---- input

// The bytes of input used, with n more.
pub fn more(used: u64, n: usize) -> u64
    ensures { result ≡ (used + n) % 2 ^ 64 }
{
    used.wrapping_add(n as u64)
}

// Moves the bytes from a place to before another to the start of the buffer, and answers how many they are.
fn to_start(input: &mut [u8], from: usize, to: usize) -> usize
    requires { (from ≤ to) × (to ≤ length input.old) }
    ensures { ToStartPost from to input.old result input.new }
{
    input.copy_within(from..to, 0);
    to - from
}

// How far a scan came.
fn come_to(r: Scanned) -> Headway
    ensures { result ≡ headway_of r }
{
    let goes_on = match r.scan {
        Scan::Rest | Scan::Full => true,
        Scan::Stopped(_) => false,
    };
    Headway {
        processor: r.processor,
        from: r.from,
        goes_on,
    }
}

// Carries out lines from a place on until they end or the output is full, and prints what they give.
fn pass(
    rt: &impl Print,
    p: Processor,
    input: &[u8],
    from: usize,
    output: &mut [u8],
) -> Result<Scanned, Stop>
    requires { from ≤ length input.now }
    ensures { PassPost p input.now from result }
{
    let r = scan_lines(p, input, from, output, 0);
    print(rt, p, input, from, false, come_to(r), &output[..r.at])?;
    Ok(r)
}

// Carries out the whole lines of the first n bytes of the input. What is left moves to the start of the buffer. Nothing says that a scan carries out
// a line, so the loop has a count that no run uses up.
pub fn carried(
    rt: &impl Print,
    s: Survey,
    input: &mut [u8],
    n: usize,
    output: &mut [u8],
) -> Result<Survey, Stop>
    requires { n ≤ length input.old }
    ensures { CarriedPost s.processor (take n input.old) result input.new }
{
    let mut p = s.processor;
    let mut from: usize = 0;
    for _ in 0..u64::MAX {
        let r = pass(rt, p, &input[..n], from, output)?;
        p = r.processor;
        from = r.from;
        match r.scan {
            Scan::Full => {}
            Scan::Stopped(refusal) => return Err(Stop::Refused(refusal, more(s.used, from))),
            Scan::Rest => {
                let kept = to_start(input, from, n);
                return Ok(Survey {
                    processor: p,
                    kept,
                    used: more(s.used, from),
                });
            }
        }
    }
    Err(Stop::NoRoom)
}
