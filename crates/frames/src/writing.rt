// Lines 11, 12 and 1f: what a survey prints. Lines that do not fit into the rest of the buffer are not written.
ghost use Rattle.std.specs.Prelude.{◌∷◌, ◌+◌, ◌*◌, ◌≤◌, ◌≡◌, leb, length};
ghost use Rattle.rules.specs.Records.{record_size, totals_size};
ghost use Rattle.rules.specs.Buffers.{over-at};
ghost use Rattle.frames.specs.Writing.{record_lines, first_lines, totals_bytes_lem, totals_line_lem, refusal_line_lem, reply_line_size};
ghost use Rattle.frames.specs.Post.{WritePost};
ghost use Rattle.hexadecimal.specs.Digits.{written};

use hexadecimal::put_line;
use rules::{RECORD, TOTALS, Totals};

// The kinds of these lines.
#[derive(Clone, Copy)]
enum Kind {
    Reply = 0x11,
    Totals = 0x12,
    Refusal = 0x1f,
}

// The bytes of the lines 11 and 12: two digits for each byte, and the newline.
pub const REPLY_LINE: usize = 2 * (1 + RECORD) + 1;

pub const TOTALS_LINE: usize = 2 * (1 + TOTALS) + 1;

// The first n records, each on a line, from place at on.
fn put_records(records: &[u8], n: usize, out: &mut [u8], at: usize)
    requires { (record_size * n ≤ length records.now) × (at + reply_line_size * n ≤ length out.old) }
    ensures { out.new ≡ over-at (record_lines n records.now) at out.old }
{
    let (all, _) = records.as_chunks::<RECORD>();
    for (k, record) in all[..n].iter().enumerate() {
        put_line(Kind::Reply as u8, record, out, at + REPLY_LINE * k);
    }
}

// Whether n bytes fit from place at on.
pub fn has_room(n: usize, out: &[u8], at: usize) -> bool
    ensures { result ≡ leb (at + n) (length out.now) }
{
    let room = out.len();
    if room < at {
        return false;
    }
    n <= room - at
}

// The first `count` records, or as many as there are, each on a line 11. Answers the place behind them.
pub fn reply_lines(records: &[u8], count: usize, out: &mut [u8], at: usize) -> usize
    ensures { WritePost (first_lines count records.now) at out.old result out.new }
{
    let n = count.min(records.len() / RECORD);
    let room = out.len();
    if room < at {
        return at;
    }
    if (room - at) / REPLY_LINE < n {
        return at;
    }
    put_records(records, n, out, at);
    at + REPLY_LINE * n
}

// The six totals, 2 bytes each, high byte first.
pub fn totals_bytes(t: Totals) -> [u8; TOTALS]
    ensures { result ≡ totals_bytes_lem t }
{
    let totals = [
        t.found, t.replies, t.sidelobe, t.garbled, t.lost, t.phantoms,
    ];
    let mut bytes = [0u8; TOTALS];
    for (k, total) in totals.iter().enumerate() {
        bytes[2 * k..2 * k + 2].copy_from_slice(&total.to_be_bytes());
    }
    bytes
}

// A line of a kind and at most the bytes of the totals. Answers the place behind it.
fn line(kind: u8, body: &[u8], out: &mut [u8], at: usize) -> usize
    requires { length body.now ≤ totals_size }
    ensures { WritePost (written (kind ∷ body.now)) at out.old result out.new }
{
    let n = 2 * body.len() + 3;
    if !has_room(n, out, at) {
        return at;
    }
    put_line(kind, body, out, at);
    at + n
}

// The totals on a line 12. Answers the place behind it.
pub fn totals_line(t: Totals, out: &mut [u8], at: usize) -> usize
    ensures { WritePost (totals_line_lem t) at out.old result out.new }
{
    line(Kind::Totals as u8, &totals_bytes(t), out, at)
}

// The number of a refusal on a line 1f. Answers the place behind it.
// Stays: a number, since docs/PROMISES.md names this function, and a `Refusal` in its place would ask more of its callers (what may not change).
pub fn refusal_line(number: u8, out: &mut [u8], at: usize) -> usize
    ensures { WritePost (refusal_line_lem number) at out.old result out.new }
{
    line(Kind::Refusal as u8, &[number], out, at)
}
