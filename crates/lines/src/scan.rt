// The lines of an input, one after the other.
ghost use Rattle.lines.specs.Post.{ScanPost};

use super::batch::batch;
use answers::line_step;
use ends::line_end;
use processor::Processor;
use rules::Refusal;
use steps::Step;

// What a scan came to: the rest of the input is the start of a line; the output has no more room; or a refusal has stopped the survey.
#[derive(Clone, Copy)]
pub enum Scan {
    Rest,
    Full,
    Stopped(Refusal),
}

// `from` is the place in the input behind the last line carried out, `at` that in the output behind the last byte printed.
#[derive(Clone, Copy)]
pub struct Scanned {
    pub scan: Scan,
    pub processor: Processor,
    pub from: usize,
    pub at: usize,
}

// Carries out the lines of the input from a place on, and prints from place at of the output on.
pub fn scan_lines(p: Processor, input: &[u8], from: usize, out: &mut [u8], at: usize) -> Scanned
    ensures { ScanPost p input.now from at out.old result out.new }
{
    let mut q = p;
    let mut i = from;
    let mut place = at;
    loop {
        let b = batch(q, input, i, out, place);
        q = b.processor;
        i = b.from;
        place = b.at;
        let Some(end) = line_end(input, i) else {
            return Scanned {
                scan: Scan::Rest,
                processor: q,
                from: i,
                at: place,
            };
        };
        let s = line_step(q, &input[i..end], out, place);
        q = s.processor;
        match s.step {
            Step::Goes(after) => {
                i = end;
                place = after;
            }
            Step::Stops(refusal, after) => {
                return Scanned {
                    scan: Scan::Stopped(refusal),
                    processor: q,
                    from: end,
                    at: after,
                };
            }
            Step::Full => {
                return Scanned {
                    scan: Scan::Full,
                    processor: q,
                    from: i,
                    at: place,
                };
            }
        }
    }
}
