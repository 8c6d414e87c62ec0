// Lines of samples, as many as there are one after the other, are taken as one piece of up to 4,096 ticks. What they print is the same.
ghost use Rattle.std.specs.Prelude.{◌+◌, ◌≤◌, ◌≡◌, length};
ghost use Rattle.steps.specs.Post.{count_in_lem, piece_of};
ghost use Rattle.lines.specs.Batches.{begins_samples, AddPost, Parts, GatherPost, TakeAllPost, BatchPost};

use ends::line_end;
use frames::{REPLY_LINE, has_room, reply_lines};
use processor::Processor;
use reading::{Frame, Line, read};
use rules::RECORD;
use sweep::take;

// The most replies of 4,096 ticks, the bytes of the buffer for them, and those that they print.
const REPLIES: usize = 80;

const ROOM: usize = RECORD * REPLIES;

const MOST: usize = REPLIES * REPLY_LINE;

// n samples, from lines that end before `end`.
#[derive(Clone, Copy)]
struct Gathering {
    end: usize,
    n: usize,
}

// `from` is the place in the input behind the last line taken, `at` that in the output behind the last byte printed.
#[derive(Clone, Copy)]
pub struct Batched {
    pub processor: Processor,
    pub from: usize,
    pub at: usize,
}

// How many samples a line says: none where it says something else.
fn count_in(line: Line) -> usize
    ensures { result ≡ count_in_lem line }
{
    let Ok(Frame::Samples(n)) = line else {
        return 0;
    };
    n
}

// The samples of a line, from place n of the two buffers on; what stands behind them is of no use. Answers how many: none where the line says
// something else.
fn add_samples(line: &[u8], flags: &mut [u8], values: &mut [u8], n: usize) -> usize
    requires { (n + 64 ≤ length flags.old) × (n + 64 ≤ length values.old) }
    ensures { AddPost line.now n flags.old values.old result flags.new values.new }
{
    let said = read(line, &mut flags[n..], &mut values[n..]);
    count_in(said)
}

// The samples of the lines from a place on, up to the first that says something else.
fn gather(input: &[u8], from: usize, flags: &mut [u8], values: &mut [u8]) -> Gathering
    requires { (4096 ≤ length flags.old) × (4096 ≤ length values.old) }
    ensures { GatherPost input.now from result flags.new values.new }
{
    let mut i = from;
    let mut n: usize = 0;
    // Stays: a turn goes on by the line that it finds, so there is no range or chunk to go through; a `for` would count turns that nothing needs.
    while n <= 4032 {
        let Some(end) = line_end(input, i) else {
            return Gathering { end: i, n };
        };
        let k = add_samples(&input[i..end], flags, values, n);
        if k == 0 {
            return Gathering { end: i, n };
        }
        n += k;
        i = end;
    }
    Gathering { end: i, n }
}

// Takes a piece that the lines before place `to` say and prints the replies. None without room for these, and where the sweep does not take it:
// then nothing happens.
fn take_all(
    p: Processor,
    flags: &[u8],
    values: &[u8],
    to: usize,
    out: &mut [u8],
    at: usize,
) -> Option<Batched>
    requires { length flags.now ≤ 4096 }
    ensures { TakeAllPost p (piece_of flags.now values.now) to at out.old result out.new }
{
    if !has_room(MOST, out, at) {
        return None;
    }
    let mut handed = [0u8; ROOM];
    let t = take(p, flags, values, &mut handed);
    let Ok(count) = t.answer else {
        return None;
    };
    let end = reply_lines(&handed, count, out, at);
    Some(Batched {
        processor: t.processor,
        from: to,
        at: end,
    })
}

// Whether the line at a place begins as samples do, with 02; if not, a batch is not worth a try.
fn may_say_samples(input: &[u8], from: usize) -> bool
    ensures { result ≡ begins_samples input.now from }
{
    let n = input.len();
    if n < from {
        return false;
    }
    if n - from < 2 {
        return false;
    }
    (input[from] == 48) & (input[from + 1] == 50)
}

// Takes the samples of the lines from a place to before another, each line's part of the two slices as a piece, up to the first that is not
// taken.
fn take_lines(
    p: Processor,
    input: &[u8],
    from: usize,
    to: usize,
    flags: &[u8],
    values: &[u8],
    out: &mut [u8],
    at: usize,
) -> Batched
    requires { (length flags.now ≤ 4096) × (at ≤ length out.old) × Parts input.now from to flags.now values.now }
    ensures { BatchPost p input.now from at out.old result out.new }
{
    let mut done = Batched {
        processor: p,
        from,
        at,
    };
    let mut a: usize = 0;
    // Stays: a turn goes on by the line that it finds, and its samples by a quarter of that; a `for` would count turns that nothing needs.
    while done.from < to {
        let Some(end) = line_end(input, done.from) else {
            return done;
        };
        let b = a + (end - done.from) / 4;
        let Some(next) = take_all(
            done.processor,
            &flags[a..b],
            &values[a..b],
            end,
            out,
            done.at,
        ) else {
            return done;
        };
        done = next;
        a = b;
    }
    done
}

// Carries out the lines of samples from a place on, in one piece, or where the sweep does not take that, line by line up to the first that it
// does not take.
pub fn batch(p: Processor, input: &[u8], from: usize, out: &mut [u8], at: usize) -> Batched
    ensures { BatchPost p input.now from at out.old result out.new }
{
    if !has_room(MOST, out, at) {
        return Batched {
            processor: p,
            from,
            at,
        };
    }
    if !may_say_samples(input, from) {
        return Batched {
            processor: p,
            from,
            at,
        };
    }
    let mut flags = [0u8; 4096];
    let mut values = [0u8; 4096];
    let g = gather(input, from, &mut flags, &mut values);
    let n = g.n;
    let to = g.end;
    if let Some(done) = take_all(p, &flags[..n], &values[..n], to, out, at) {
        return done;
    }
    take_lines(p, input, from, to, &flags[..n], &values[..n], out, at)
}
