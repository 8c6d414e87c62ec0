// The altitude encoder: the code of a number of feet. Every number has an answer: nothing is asked of the caller.
#![tactic(auto)]

ghost use Rattle.std.specs.Prelude.{◌≡◌, ◌≤◌, if◌then◌else◌};
ghost use Rattle.codes.specs.Pulses.{word_of};
ghost use Rattle.codes.specs.Gray.{gray_of};
ghost use Rattle.codes.specs.Altitude.{eight, three};
ghost use Rattle.codes.specs.Writing.{has_code, steps_to, group_of, written, code_of};

use altitudes::turned_at;
use codes::pulses::*;

// How many 100 ft above -1,300 ft a number of feet is; none for one that is no multiple of 100 ft from -1,000 to 126,700 ft.
fn steps_of(feet: i32) -> Option<u16>
    ensures { result ≡ (if has_code feet then Some (steps_to feet) else None) }
{
    if feet < -1000 || 126700 < feet {
        return None;
    }
    let above = feet + 1300;
    if above % 100 != 0 {
        return None;
    }
    // Stays: From widens alone, and u16::try_from(..).unwrap() is no plainer than a cast that is proved to fit.
    Some((above / 100) as u16)
}

// The eight pulses that are the Gray code of n: in binary, n with its half laid over it.
fn eight_of(n: u16) -> u16
    ensures { result ≡ word_of eight (gray_of 8 n) }
{
    let gray = n ^ (n / 2);
    let high = D2 * (gray / 128 % 2) + D4 * (gray / 64 % 2);
    let a = A1 * (gray / 32 % 2) + A2 * (gray / 16 % 2) + A4 * (gray / 8 % 2);
    let b = B1 * (gray / 4 % 2) + B2 * (gray / 2 % 2) + B4 * (gray % 2);
    high + (a + b)
}

// The group C1 C2 C4 that counts h.
fn three_of(h: u16) -> u16
    requires { (1 ≤ h) × (h ≤ 5) }
    ensures { result ≡ word_of three (group_of h) }
{
    match h {
        1 => C4,
        2 => C2 + C4,
        3 => C2,
        4 => C1 + C2,
        _ => C1,
    }
}

// The code of so many 100 ft from -1,300 ft on.
fn word_at(s: u16) -> u16
    requires { (1 ≤ s) × (s ≤ 1280) }
    ensures { result ≡ written s }
{
    let n = (s - 1) / 5;
    let h = (s - 1) % 5 + 1;
    eight_of(n) + three_of(turned_at(n, h))
}

// The code of a number of feet; none where it has no code.
pub fn code_of(feet: i32) -> Option<u16>
    ensures { result ≡ code_of feet }
{
    steps_of(feet).map(word_at)
}
