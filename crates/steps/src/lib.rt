// What is printed of an answer, and whether the survey goes on. `specs/Outcomes.antt` says what each kind of line is to make of it.
#![tactic(auto)]

ghost use Rattle.steps.specs.Post.{StopPost, TakeShown, CloseShown, RestPost};

use calls::Answer;
use frames::{REPLY_LINE, TOTALS_LINE, has_room, refusal_line, reply_lines, totals_line};
use processor::Processor;
use rules::{MOST_LEFT, RECORD, Refusal, Totals};

// The most that a line prints: the replies of a close and the totals.
pub const MOST: usize = MOST_LEFT * REPLY_LINE + TOTALS_LINE;

// The bytes of the reply buffer for the 64 samples of a line: 4 replies.
pub const LINE_ROOM: usize = RECORD * 4;

// The survey goes on, or stops with a refusal, and has printed up to a place in the buffer; or the buffer has no room for what a line may print.
#[derive(Clone, Copy)]
pub enum Step {
    Goes(usize),
    Stops(Refusal, usize),
    Full,
}

#[derive(Clone, Copy)]
pub struct Stepped {
    pub step: Step,
    pub processor: Processor,
}

// A refusal stops the survey, and its number is printed.
pub fn stop(refusal: Refusal, out: &mut [u8], at: usize) -> Step
    ensures { StopPost refusal at out.old result out.new }
{
    let end = refusal_line(u8::from(refusal), out, at);
    Step::Stops(refusal, end)
}

// What a take prints: its replies stand in the buffer that it was lent.
pub fn show_take(answer: Answer, handed: &[u8], out: &mut [u8], at: usize) -> Step
    ensures { TakeShown answer handed.now at out.old result out.new }
{
    match answer {
        Err(refusal) => stop(refusal, out, at),
        Ok(count) => Step::Goes(reply_lines(handed, count, out, at)),
    }
}

// What a close prints: its replies, which stand in the buffer that it was lent, and the totals.
pub fn show_close(answer: Answer, totals: Totals, handed: &[u8], out: &mut [u8], at: usize) -> Step
    ensures { CloseShown answer totals handed.now at out.old result out.new }
{
    match show_take(answer, handed, out, at) {
        Step::Goes(place) => Step::Goes(totals_line(totals, out, place)),
        stopped => stopped,
    }
}

// What the bytes left at the end of the input print. No newline ends them, so that they are refused, whatever the sweep is.
pub fn rest_step(out: &mut [u8], at: usize) -> Step
    ensures { RestPost at out.old result out.new }
{
    if !has_room(MOST, out, at) {
        return Step::Full;
    }
    stop(Refusal::Malformed, out, at)
}
