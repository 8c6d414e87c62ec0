// One line: what it makes of the sweep, and what it prints.
#![tactic(auto)]

ghost use Rattle.std.specs.Prelude.{◌+◌, ◌≤◌, ◌≡◌, length};
ghost use Rattle.steps.specs.Outcomes.{stops, opened_at, taken_at, closed_at};
ghost use Rattle.steps.specs.Post.{AnswerPost, StepPost, piece_of, said_at, count_in_lem, line_most};

use frames::has_room;
use processor::Processor;
use reading::{Frame, Line, read};
use rules::{CLOSE_ROOM, Opening, Refusal};
use steps::{LINE_ROOM, MOST, Step, Stepped, show_close, show_take, stop};
use sweep::{close, open, take};

// A refusal stops the survey.
fn stopped(p: Processor, refusal: Refusal, out: &mut [u8], at: usize) -> Stepped
    requires { at + line_most ≤ length out.old }
    ensures { AnswerPost (λ σ. stops refusal) p at out.old result out.new }
{
    Stepped {
        step: stop(refusal, out, at),
        processor: p,
    }
}

// `01` during a sweep starts afresh.
fn opened(p: Processor, opening: Opening, out: &mut [u8], at: usize) -> Stepped
    requires { at + line_most ≤ length out.old }
    ensures { AnswerPost (opened_at opening) p at out.old result out.new }
{
    let o = open(opening);
    match o.answer {
        Err(refusal) => stopped(p, refusal, out, at),
        Ok(_) => Stepped {
            step: Step::Goes(at),
            processor: o.processor,
        },
    }
}

// A piece of at most 64 ticks.
fn taken(p: Processor, flags: &[u8], values: &[u8], out: &mut [u8], at: usize) -> Stepped
    requires { (length flags.now ≤ 64) × (at + line_most ≤ length out.old) }
    ensures { AnswerPost (taken_at (piece_of flags.now values.now)) p at out.old result out.new }
{
    let mut handed = [0u8; LINE_ROOM];
    let t = take(p, flags, values, &mut handed);
    Stepped {
        step: show_take(t.answer, &handed, out, at),
        processor: t.processor,
    }
}

fn closed(p: Processor, out: &mut [u8], at: usize) -> Stepped
    requires { at + line_most ≤ length out.old }
    ensures { AnswerPost closed_at p at out.old result out.new }
{
    let mut handed = [0u8; CLOSE_ROOM];
    let c = close(p, &mut handed);
    Stepped {
        step: show_close(c.answer, c.totals, &handed, out, at),
        processor: c.processor,
    }
}

// What a line's frame, or the refusal of the line, makes of the sweep, and what it prints.
fn answer_line(
    p: Processor,
    line: Line,
    flags: &[u8],
    values: &[u8],
    out: &mut [u8],
    at: usize,
) -> Stepped
    requires { (count_in_lem line ≤ 64) × (count_in_lem line ≤ length flags.now) × (count_in_lem line ≤ length values.now) × (at + line_most ≤ length out.old) }
    ensures { AnswerPost (said_at line flags.now values.now) p at out.old result out.new }
{
    let Ok(frame) = line else {
        return stopped(p, line.unwrap_err(), out, at);
    };
    match frame {
        Frame::Open(opening) => opened(p, opening, out, at),
        Frame::Samples(n) => taken(p, &flags[..n], &values[..n], out, at),
        Frame::Close => closed(p, out, at),
    }
}

// What a line, its newline included, makes of the sweep, and what it prints from place at on.
pub fn line_step(p: Processor, line: &[u8], out: &mut [u8], at: usize) -> Stepped
    ensures { StepPost p line.now at out.old result out.new }
{
    if !has_room(MOST, out, at) {
        return Stepped {
            step: Step::Full,
            processor: p,
        };
    }
    let mut flags = [0u8; 64];
    let mut values = [0u8; 64];
    let said = read(line, &mut flags, &mut values);
    answer_line(p, said, &flags, &values, out, at)
}
