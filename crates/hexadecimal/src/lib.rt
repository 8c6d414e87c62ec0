// Bytes as hexadecimal digits, and a line of them.
#![tactic(auto)]

ghost use Rattle.std.specs.Prelude.{◌+◌, ◌*◌, ◌≤◌, ◌<◌, ◌≡◌, [], ◌∷◌, length};
ghost use Rattle.rules.specs.Buffers.{over-at};
ghost use Rattle.hexadecimal.specs.Digits.{hexadecimal, written, glyph as glyph'};

// The digit of a number below 16.
fn glyph(x: u8) -> u8
    requires { x < 16 }
    ensures { result ≡ glyph' x }
{
    if x < 10 {
        return 48 + x;
    }
    87 + x
}

// A byte as two digits, from place at on.
fn put_byte(x: u8, out: &mut [u8], at: usize)
    requires { at + 2 ≤ length out.old }
    ensures { out.new ≡ over-at (hexadecimal (x ∷ [])) at out.old }
{
    out[at] = glyph(x / 16);
    out[at + 1] = glyph(x % 16);
}

// Bytes as digits, from place at on.
fn put_bytes(body: &[u8], out: &mut [u8], at: usize)
    requires { at + 2 * length body.now ≤ length out.old }
    ensures { out.new ≡ over-at (hexadecimal body.now) at out.old }
{
    for (i, x) in body.iter().enumerate() {
        put_byte(*x, out, at + 2 * i);
    }
}

// The line of a kind and its bytes, from place at on.
pub fn put_line(kind: u8, body: &[u8], out: &mut [u8], at: usize)
    requires { at + (2 * length body.now + 3) ≤ length out.old }
    ensures { out.new ≡ over-at (written (kind ∷ body.now)) at out.old }
{
    put_byte(kind, out, at);
    put_bytes(body, out, at + 2);
    out[at + 2 + 2 * body.len()] = 10;
}
