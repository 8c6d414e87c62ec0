// The fields of a reply's record, and how they are written.
#![tactic(auto)]

ghost use Rattle.std.specs.Prelude.{◌≡◌, ◌+◌, ◌%◌, ◌≤◌, length};
ghost use Rattle.std.specs.Float.{binary64};
ghost use Rattle.std.specs.Float.Ieee.{to_bits};
ghost use Rattle.rules.specs.Records.{range_of, is_average_lem, flags_of, confidence};
ghost use Rattle.rules.specs.Buffers.{over-at};

use rules::{Estimate, Marks, Range, Tick};

// Only here a tick becomes a range, of two bytes.
// Stays: a function and no From, since a tick from 32,768 on loses what its range has above two bytes.
pub fn range_of(t: Tick) -> Range
    ensures { result.0 ≡ (range_of t).0 % 65536 }
{
    Range(2 * (t.0 % 32768))
}

// N is 2 or more.
pub fn is_average(e: Estimate) -> bool
    ensures { result ≡ is_average_lem e }
{
    matches!(e, Estimate::Average(_))
}

pub fn flags_of(m: Marks, e: Estimate) -> u8
    ensures { result ≡ flags_of m e }
{
    u8::from(is_average(e))
        + 2 * u8::from(m.second)
        + 4 * u8::from(!m.main)
        + 8 * u8::from(m.military)
}

// Confidence is 1 at each of the 15 positions that is not unsure.
pub fn confidence_of(unsure: u16) -> u16
    ensures { result ≡ confidence unsure }
{
    32767u16.saturating_sub(unsure)
}

// The bits of a binary64; every NaN has those of the quiet one.
pub fn bits_of(x: f64) -> u64
    ensures { result ≡ to_bits binary64 x }
{
    if x.is_nan() {
        0x7ff8_0000_0000_0000
    } else {
        x.to_bits()
    }
}

// The bytes in the buffer, from place at on.
pub fn put(out: &mut [u8], at: usize, bytes: &[u8])
    requires { at + length bytes.now ≤ length out.old }
    ensures { out.new ≡ over-at bytes.now at out.old }
{
    out[at..at + bytes.len()].copy_from_slice(bytes);
}
