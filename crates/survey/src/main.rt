// The survey program: frames from standard input, replies and totals to standard output, up to the end of input or the first refusal.
// What the lines print is proved in the crate `lines`; that just these bytes are printed, and that the rest of a read is kept, in the crate `carrying`.
// What a read gives and a write does is not in a contract. Standard error gets one line: which refusal stopped the survey and after how many bytes of
// input, or what could not be read or written.
#![tactic(auto)]

ghost use Rattle.std.specs.Prelude.{◌≤◌, length};
ghost use Rattle.ends.specs.Ends.{LinePast};
ghost use Rattle.survey.specs.Post.{Going, Stands, ReadPost};

use carrying::{Headway, Stop, Survey, carried, more, print};
use processor::idle;
use std::io::{ErrorKind, Read};
use steps::{Step, rest_step};

// Reads once, behind the bytes kept. Answers how many bytes of the input buffer are in use then, as many as before where a signal interrupts the
// read; none at the end of the input.
fn read_more(source: &mut impl Read, input: &mut [u8], kept: usize) -> Result<Option<usize>, Stop>
    requires { kept ≤ length input.old }
    ensures { ReadPost kept input.old result input.new }
{
    match source.read(&mut input[kept..]) {
        Ok(0) => Ok(None),
        Ok(got) => Ok(Some(kept + got)),
        Err(error) if error.kind() == ErrorKind::Interrupted => Ok(Some(kept)),
        Err(error) => Err(Stop::CannotRead(error)),
    }
}

// What is left of the input at its end has no newline: it is refused.
fn last(rt: &impl Print, s: Survey, rest: &[u8], output: &mut [u8]) -> Result<(), Stop>
    requires { LinePast rest.now 0 }
{
    let n = rest.len();
    if n == 0 {
        return Ok(());
    }
    let Step::Stops(refusal, at) = rest_step(output, 0) else {
        return Ok(());
    };
    let r = Headway {
        processor: s.processor,
        from: n,
        goes_on: false,
    };
    print(rt, s.processor, rest, 0, true, r, &output[..at])?;
    Err(Stop::Refused(refusal, more(s.used, n)))
}

// Carries out what a read gives; none goes on from the end of the input.
fn turn(
    rt: &impl Print,
    source: &mut impl Read,
    s: Survey,
    input: &mut [u8],
    output: &mut [u8],
) -> Result<Option<Survey>, Stop>
    requires { Going s input.old }
    ensures { Stands result input.new }
{
    let Some(n) = read_more(source, input, s.kept)? else {
        last(rt, s, &input[..s.kept], output)?;
        return Ok(None);
    };
    let next = carried(rt, s, input, n, output)?;
    Ok(Some(next))
}

// Nothing says that the input ends, so the loop has a count that no run uses up.
fn run(
    rt: &impl Print,
    source: &mut impl Read,
    input: &mut [u8],
    output: &mut [u8],
) -> Result<(), Stop> {
    let mut s = Survey {
        processor: idle(),
        kept: 0,
        used: 0,
    };
    for _ in 0..u64::MAX {
        let Some(next) = turn(rt, source, s, input, output)? else {
            return Ok(());
        };
        s = next;
    }
    Ok(())
}

// Of a reader that went away nothing is said.
fn main(rt: HostRuntime) {
    let mut input = [0; 65536];
    let mut output = [0; 65536];
    match run(&rt, &mut rt.stdin(), &mut input, &mut output) {
        Ok(()) | Err(Stop::Unread) => {}
        Err(stop) => {
            let _ = eprintln!(rt; "{stop}");
        }
    }
}
