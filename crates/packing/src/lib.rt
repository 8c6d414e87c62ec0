// From flag bytes, one a tick, to planes: a word of A, one of P, one of N, one of M.
#![tactic(auto)]

ghost use Rattle.std.specs.Prelude.{◌+◌, ◌<◌, ◌≤◌, ◌≡◌, length};
ghost use Rattle.packing.specs.Packing.{Eight, Nibbles, Turn, Inside, Low, High, swapped, Packed, PackedPart};

#[derive(Clone, Copy, PartialEq, Default)]
pub struct Planes {
    pub a: u64,
    pub p: u64,
    pub n: u64,
    pub m: u64,
}

// The bits of the eight bytes from o on, lowest first.
pub fn eight(flags: &[u8], o: usize) -> u64
    requires { o + 8 ≤ length flags.now }
    ensures { Eight flags.now o result }
{
    u64::from_le_bytes([
        flags[o],
        flags[o + 1],
        flags[o + 2],
        flags[o + 3],
        flags[o + 4],
        flags[o + 5],
        flags[o + 6],
        flags[o + 7],
    ])
}

// x and y once the bits of x that stand s above those that the mask marks have changed places with the bits of y that it marks.
fn exchange(x: u64, y: u64, s: u32, mask: u64) -> (u64, u64)
    requires { Inside s mask }
    ensures low { Low s mask x y result.0 }
    ensures high { High s mask x y result.1 }
{
    let t = ((x >> s) ^ y) & mask;
    (x ^ (t << s), y ^ t)
}

// x once the bits that the mask marks have changed places with those that stand k above.
fn swap(x: u64, k: u32, mask: u64) -> u64
    requires { k < 64 }
    ensures { result ≡ swapped k mask x }
{
    let t = (x ^ (x >> k)) & mask;
    x ^ t ^ (t << k)
}

// Eight rows of eight bits, each row a byte, become columns.
fn turn(x: u64) -> u64
    ensures { Turn x result }
{
    let y = swap(x, 7, 0x00aa_00aa_00aa_00aa);
    let z = swap(y, 14, 0x0000_cccc_0000_cccc);
    swap(z, 28, 0x0000_0000_f0f0_f0f0)
}

// The flags of the eight ticks from o on, and in the high nibbles those of the ticks 32 later.
fn nibbles(flags: &[u8], o: usize) -> u64
    requires { o + 40 ≤ length flags.now }
    ensures { Nibbles flags.now o result }
{
    let x = eight(flags, o);
    let y = eight(flags, o + 32);
    exchange(x, y, 4, 0x0f0f_0f0f_0f0f_0f0f).0
}

// The planes of the 64 ticks from o on.
pub fn pack(flags: &[u8], o: usize) -> Planes
    requires { o + 64 ≤ length flags.now }
    ensures { Packed flags.now o result }
{
    let y0 = nibbles(flags, o);
    let y1 = nibbles(flags, o + 8);
    let y2 = nibbles(flags, o + 16);
    let y3 = nibbles(flags, o + 24);
    let (z0, z2) = exchange(y0, y2, 2, 0x3333_3333_3333_3333);
    let (z1, z3) = exchange(y1, y3, 2, 0x3333_3333_3333_3333);
    let (x0, x1) = exchange(z0, z1, 1, 0x5555_5555_5555_5555);
    let (x2, x3) = exchange(z2, z3, 1, 0x5555_5555_5555_5555);
    Planes {
        a: turn(x0),
        p: turn(x1),
        n: turn(x2),
        m: turn(x3),
    }
}

// The planes of the r ticks from o on, r being 64 or fewer, in the low bits; the other bits are 0.
pub fn pack_part(flags: &[u8], o: usize, r: usize) -> Planes
    requires { (o + r ≤ length flags.now) × (r ≤ 64) }
    ensures { PackedPart flags.now o r result }
{
    let mut block = [0u8; 64];
    block[..r].copy_from_slice(&flags[o..o + r]);
    pack(&block, 0)
}
