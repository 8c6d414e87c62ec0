// The record of a reply, byte by byte.
#![tactic(auto)]

ghost use Rattle.std.specs.Prelude.{◌≡◌, ◌+◌, ◌≤◌, length};
ghost use Rattle.rules.specs.Records.{record_of, record_size};
ghost use Rattle.rules.specs.Buffers.{over-at};

use fields::{bits_of, confidence_of, flags_of, put, range_of};
use replies::level_of;
use rules::Reply;

// The record of the reply, from place at on.
pub fn write_record(out: &mut [u8], at: usize, r: Reply)
    requires { at + record_size ≤ length out.old }
    ensures { out.new ≡ over-at (record_of r) at out.old }
{
    let f = r.reference;
    let range = range_of(r.f1).0 as u16;
    let sure = confidence_of(r.word.unsure);
    let flags = flags_of(r.marks, f.estimate);
    let bits = bits_of(level_of(f.estimate));
    put(out, at, &range.to_be_bytes());
    put(out, at + 2, &r.word.code.to_be_bytes());
    put(out, at + 4, &sure.to_be_bytes());
    put(out, at + 6, &[flags]);
    put(out, at + 7, &[(f.n % 256) as u8]);
    put(out, at + 8, &f.s.to_be_bytes());
    put(out, at + 10, &bits.to_be_bytes());
}
