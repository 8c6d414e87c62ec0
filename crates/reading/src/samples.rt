// The samples of a line: first the values of its digits, then two bytes of each four of them. Both go through the line without a branch.
ghost use Rattle.std.specs.Prelude.{◌+◌, ◌*◌, ◌≤◌, ◌≡◌, length, take, drop};
ghost use Rattle.rules.specs.Buffers.{over};
ghost use Rattle.reading.specs.Post.{AllDigits, FillPost, digit_values, FourDigits, TwoBytes};

use characters::value;

// The values of the n digits behind the kind, at the start of a buffer.
fn put_values(line: &[u8], n: usize, digits: &mut [u8])
    requires { (n ≤ length digits.old) × AllDigits line.now (n + 2) }
    ensures { digits.new ≡ over (digit_values (take n (drop 2 line.now))) digits.old }
{
    for (i, c) in line[2..n + 2].iter().enumerate() {
        digits[i] = value(*c);
    }
}

// The two bytes of four values: the first in the low byte, the second two bytes higher.
fn two_bytes(digits: [u8; 4]) -> u32
    requires { FourDigits digits }
    ensures { TwoBytes digits result }
{
    let four = u32::from_le_bytes(digits);
    16 * four + four / 256
}

// The n samples of a line, into the two buffers.
pub fn fill(line: &[u8], n: usize, flags: &mut [u8], values: &mut [u8])
    requires { (n ≤ 64) × (n ≤ length flags.old) × (n ≤ length values.old) × AllDigits line.now (4 * n + 2) }
    ensures { FillPost line.now n flags.old values.old flags.new values.new }
{
    let mut digits = [0u8; 256];
    put_values(line, 4 * n, &mut digits);
    let (fours, _) = digits.as_chunks::<4>();
    for (j, four) in fours[..n].iter().enumerate() {
        let two = two_bytes(*four);
        flags[j] = (two % 256) as u8;
        values[j] = (two / 65536 % 256) as u8;
    }
}
