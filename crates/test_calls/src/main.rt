// Carries out the calls that standard input has, with open, take and close, and writes the outcome of each to standard output.
// Input that says something else, or ends before its end is said, is named on standard error, and nothing more is carried out.
// Numbers have their high byte first.
//
// A call is 17 bytes, and behind them a take's flags, then its values:
//    0  kind: 0 the end of the input, 1 open, 2 take, 3 close
//    1  1 to show the processor in the outcome, else 0
//    2  mode of an open
//    3  the byte on both sides of a piece, in recordings of 8,192 flags and 8,192 values
//    4  the byte that fills the lent buffer before the call
//    5  azimuth of an open (2 bytes)
//    7  where a take's flags start in their recording (2), 9 how many (2)
//   11  where a take's values start in theirs (2), 13 how many (2)
//   15  length of the lent buffer, up to 2,048 (2); an open is lent none
//
// An outcome is 968 bytes, and behind them the lent buffer as the call left it. But for `recent`, 8 bytes a number:
//    0  1 accepted, with the count at 8, or 2 refused, with the refusal number at 8
//   16  a close's six totals, in document 01's order, or zeros
//   64  the processor after the call: mode, azimuth, taken, and at 88 the 20 words of its front, as they are declared
//  248  recent, 256 bytes
//  504  the four places, 104 bytes each: 1 open, with F1, the four marks, settled, code, unsure, 0 lone or 1 average, the bits of the
//       reference, N and S, or zeros
//  920  the counts: found, opened, sidelobe, garbled, lost, phantoms
// A processor that is not shown is 904 bytes of the buffer's filling. A refused opening shows the processor that it gave, and the next call goes on with the
// one that there was.
#![tactic(auto)]

mod outcome_bytes;

ghost use Rattle.std.specs.Prelude.{◌≤◌, length};

use calls::Answer;
use outcome_bytes::put_outcome;
use processor::Processor;
use rules::{Opening, Totals};
use std::error::Error;
use std::fmt;
use std::io::{ErrorKind, Read};
use std::ops::Range;

// Samples in a recording.
const RECORDED: usize = 8192;

// Bytes of an outcome before the lent buffer.
const TOLD: usize = 968;

// Bytes of an outcome with the longest buffer, of 2,048.
const OUTCOME: usize = TOLD + 2048;

// Why nothing more is carried out.
#[derive(Clone, Copy, Debug)]
enum Fault {
    NoEnd,
    Shown,
    Samples,
    Kind,
    OpenLent,
    Lent,
    FlagsBeyond,
    ValuesBeyond,
    WithinFlags,
    WithinValues,
    Unwritten,
    // A reader that went away.
    Unread,
}

impl fmt::Display for Fault {
    fn fmt<W: fmt::Write>(&self, f: &mut fmt::Formatter<W>) -> fmt::Result {
        f.write_str(match self {
            Fault::NoEnd => "the input ends without its end",
            Fault::Shown => "a processor is shown or not, by 1 or 0",
            Fault::Samples => "samples belong to a take",
            Fault::Kind => "an unknown kind of call",
            Fault::OpenLent => "an open is lent no buffer",
            Fault::Lent => "a lent buffer is over 2048 bytes",
            Fault::FlagsBeyond => "flags reach beyond their recording",
            Fault::ValuesBeyond => "values reach beyond their recording",
            Fault::WithinFlags => "the input ends within flags",
            Fault::WithinValues => "the input ends within values",
            Fault::Unwritten => "an outcome cannot be written",
            Fault::Unread => "an outcome is read no more",
        })
    }
}

impl Error for Fault {}

// ---- reading a call

#[derive(Clone, Copy)]
enum Kind {
    End,
    Open,
    Take,
    Close,
}

impl TryFrom<u8> for Kind {
    type Error = Fault;

    fn try_from(number: u8) -> Result<Kind, Fault> {
        match number {
            0 => Ok(Kind::End),
            1 => Ok(Kind::Open),
            2 => Ok(Kind::Take),
            3 => Ok(Kind::Close),
            _ => Err(Fault::Kind),
        }
    }
}

// Samples of a recording: where they start, and how many they are.
#[derive(Clone, Copy)]
struct Part {
    start: u16,
    count: u16,
}

impl Part {
    fn range(self) -> Range<usize> {
        let start = self.start as usize;
        start..start + self.count as usize
    }
}

// A call as it was read.
#[derive(Clone, Copy)]
struct Call {
    kind: Kind,
    shown: bool,
    opening: Opening,
    around: u8,
    fill: u8,
    flags: Part,
    values: Part,
    lent: u16,
}

impl TryFrom<[u8; 17]> for Call {
    type Error = Fault;

    fn try_from(bytes: [u8; 17]) -> Result<Call, Fault> {
        let number = |at: usize| u16::from_be_bytes([bytes[at], bytes[at + 1]]);
        let shown = match bytes[1] {
            0 => false,
            1 => true,
            _ => return Err(Fault::Shown),
        };
        let kind = Kind::try_from(bytes[0]);
        let flags = Part {
            start: number(7),
            count: number(9),
        };
        let values = Part {
            start: number(11),
            count: number(13),
        };
        if !matches!(kind, Ok(Kind::Take)) && (flags.count != 0 || values.count != 0) {
            return Err(Fault::Samples);
        }
        Ok(Call {
            kind: kind?,
            shown,
            opening: Opening {
                mode: bytes[2],
                azimuth: number(5),
            },
            around: bytes[3],
            fill: bytes[4],
            flags,
            values,
            lent: number(15),
        })
    }
}

// ---- calls

// Writes the outcome of a call; the lent buffer stands behind the first 968 bytes.
fn tell(
    rt: &impl Print,
    answer: Answer,
    totals: Option<Totals>,
    shown: Option<Processor>,
    out: &mut [u8],
) -> Result<(), Fault>
    requires { 968 ≤ length out.old }
{
    put_outcome(out, answer, totals, shown);
    rt.write_all(out).map_err(|error| match error.kind() {
        ErrorKind::BrokenPipe => Fault::Unread,
        _ => Fault::Unwritten,
    })
}

// Where an opening is refused, the processor stays.
fn make_open(rt: &impl Print, p: Processor, c: Call) -> Result<Processor, Fault> {
    if c.lent != 0 {
        return Err(Fault::OpenLent);
    }
    let mut out = [c.fill; TOLD];
    let o = sweep::open(c.opening);
    tell(rt, o.answer, None, c.shown.then_some(o.processor), &mut out)?;
    match o.answer {
        Ok(_) => Ok(o.processor),
        Err(_) => Ok(p),
    }
}

fn take_piece(
    rt: &impl Print,
    p: Processor,
    c: Call,
    flags: &[u8],
    values: &[u8],
) -> Result<Processor, Fault> {
    let mut room = [c.fill; OUTCOME];
    let out = room.get_mut(..TOLD + c.lent as usize).ok_or(Fault::Lent)?;
    let t = sweep::take(p, flags, values, &mut out[TOLD..]);
    tell(rt, t.answer, None, c.shown.then_some(t.processor), out)?;
    Ok(t.processor)
}

// The samples go into the middle of two recordings, and the piece is a part of each.
fn make_take(
    rt: &impl Print,
    source: &mut impl Read,
    p: Processor,
    c: Call,
) -> Result<Processor, Fault> {
    let mut recorded_flags = [c.around; RECORDED];
    let mut recorded_values = [c.around; RECORDED];
    let flags = recorded_flags
        .get_mut(c.flags.range())
        .ok_or(Fault::FlagsBeyond)?;
    let values = recorded_values
        .get_mut(c.values.range())
        .ok_or(Fault::ValuesBeyond)?;
    source.read_exact(flags).map_err(|_| Fault::WithinFlags)?;
    source.read_exact(values).map_err(|_| Fault::WithinValues)?;
    take_piece(rt, p, c, flags, values)
}

fn make_close(rt: &impl Print, p: Processor, c: Call) -> Result<Processor, Fault> {
    let mut room = [c.fill; OUTCOME];
    let out = room.get_mut(..TOLD + c.lent as usize).ok_or(Fault::Lent)?;
    let t = sweep::close(p, &mut out[TOLD..]);
    tell(
        rt,
        t.answer,
        Some(t.totals),
        c.shown.then_some(t.processor),
        out,
    )?;
    Ok(t.processor)
}

// Carries out a call. The processor after it comes back; none at the end of the input.
fn next_call(
    rt: &impl Print,
    source: &mut impl Read,
    p: Processor,
) -> Result<Option<Processor>, Fault> {
    let mut bytes = [0; 17];
    source.read_exact(&mut bytes).map_err(|_| Fault::NoEnd)?;
    let c = Call::try_from(bytes)?;
    match c.kind {
        Kind::End => Ok(None),
        Kind::Open => make_open(rt, p, c).map(Some),
        Kind::Take => make_take(rt, source, p, c).map(Some),
        Kind::Close => make_close(rt, p, c).map(Some),
    }
}

// Nothing says that the input ends, so the loop has a count that no run uses up.
fn run(rt: &impl Print, source: &mut impl Read) -> Result<(), Fault> {
    let mut p = processor::idle();
    for _ in 0..u64::MAX {
        let Some(next) = next_call(rt, source, p)? else {
            return Ok(());
        };
        p = next;
    }
    Ok(())
}

// Of a reader that went away nothing is said.
fn main(rt: HostRuntime) {
    match run(&rt, &mut rt.stdin()) {
        Ok(()) | Err(Fault::Unread) => {}
        Err(fault) => {
            let _ = eprintln!(rt; "calls: {fault}");
        }
    }
}
