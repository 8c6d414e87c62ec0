// Characters: whether they are hexadecimal digits, the value of one, and the byte of two.
#![tactic(auto)]

ghost use Rattle.std.specs.Prelude.{◌+◌, ◌*◌, ◌<◌, ◌≤◌, ◌≡◌, length, get_or, take};
ghost use Rattle.characters.specs.Characters.{digit, is_digit_lem, are_digits_lem, Digits};

// Whether a character is a digit.
fn is_digit(c: u8) -> bool
    ensures { result ≡ is_digit_lem c }
{
    ((48 <= c) & (c <= 57)) | ((97 <= c) & (c <= 102))
}

// Whether the first n bytes are digits. All of them are looked at, whatever they are: sixteen at once without a branch.
pub fn are_digits(line: &[u8], n: usize) -> bool
    requires { n ≤ length line.now }
    ensures { result ≡ are_digits_lem (take n line.now) }
{
    line[..n].iter().fold(true, |all, c| all & is_digit(*c))
}

// The value of a digit.
pub fn value(c: u8) -> u8
    requires { digit c < 16 }
    ensures { result ≡ digit c }
{
    c % 16 + 9 * (c / 64)
}

// The byte of the two digits at i.
pub fn byte_at(line: &[u8], i: usize) -> u8
    requires { Digits line.now i }
    ensures { result ≡ 16 * digit (get_or line.now i 0) + digit (get_or line.now (i + 1) 0) }
{
    let high = value(line[i]);
    let low = value(line[i + 1]);
    16 * high + low
}
