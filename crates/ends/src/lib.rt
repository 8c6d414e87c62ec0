// Where a line ends.
#![tactic(auto)]

ghost use Rattle.std.specs.Prelude.{◌+◌, ◌≤◌, ◌≡◌, length};
ghost use Rattle.ends.specs.Ends.{newline_in, passed_by, EndPost};

// So many bytes without a newline are no line any more.
const MOST: usize = 259;

// Whether a newline stands in the 32 bytes from a place on. All of them are looked at, sixteen at once without a branch.
fn has_newline(input: &[u8], from: usize) -> bool
    requires { from + 32 ≤ length input.now }
    ensures { result ≡ newline_in input.now from 32 }
{
    input[from..from + 32].contains(&10)
}

// Passes up to eight times 32 bytes that have no newline.
fn passed(input: &[u8], from: usize) -> usize
    ensures { result ≡ passed_by 8 input.now from }
{
    let n = input.len();
    let mut i = from;
    for _ in 0..8u32 {
        if n < i {
            return i;
        }
        if n - i < 32 {
            return i;
        }
        if has_newline(input, i) {
            return i;
        }
        i += 32;
    }
    i
}

// Where the line that begins at `from` ends: behind its newline, or behind 259 bytes without one, which are no line any more. None where it goes on
// past the input.
pub fn line_end(input: &[u8], from: usize) -> Option<usize>
    ensures { EndPost input.now from result }
{
    for i in passed(input, from)..input.len() {
        let c = input[i];
        let end = i + 1;
        if c == 10 {
            return Some(end);
        }
        if end - from == MOST {
            return Some(end);
        }
    }
    None
}
