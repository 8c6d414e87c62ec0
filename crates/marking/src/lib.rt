// Words of ticks beside the four places: bit i of a place's word says that its reply covers tick i of the block, or that a bracket there removes it.
#![tactic(auto)]

ghost use Rattle.std.specs.Prelude.{◌<◌, ◌≡◌, cond};
ghost use Rattle.marking.specs.Marks.{with_word_lem, without_word_lem, AnyWord, TwiceWord, which_in, last_in, behind_of};

use plane::{Nth, marked};

// A word of ticks for each of the four places.
// Stays: four fields, by which Marked, AnyWord and TwiceWord (specs/Marks.antt) name them; the tests read each by its own name.
#[derive(Clone, Copy)]
pub struct Words {
    pub a: u64,
    pub b: u64,
    pub c: u64,
    pub d: u64,
}

fn pick_word(c: bool, a: u64, b: u64) -> u64
    ensures { result ≡ cond c a b }
{
    if c {
        return a;
    }
    b
}

// The words with that of place k another.
pub fn with_word(w: Words, k: usize, x: u64) -> Words
    ensures { result ≡ with_word_lem k x w }
{
    Words {
        a: pick_word(k == 0, x, w.a),
        b: pick_word(k == 1, x, w.b),
        c: pick_word(k == 2, x, w.c),
        d: pick_word(k == 3, x, w.d),
    }
}

// The words without that of place k; those behind it move up.
pub fn without_word(w: Words, k: usize) -> Words
    ensures { result ≡ without_word_lem k w }
{
    Words {
        a: pick_word(k < 1, w.b, w.a),
        b: pick_word(k < 2, w.c, w.b),
        c: pick_word(k < 3, w.d, w.c),
        d: 0,
    }
}

// The ticks that one of the words marks.
pub fn any_word(w: Words) -> u64
    ensures { AnyWord w result }
{
    w.a | (w.b | (w.c | w.d))
}

// The ticks that two of the words mark.
pub fn twice(w: Words) -> u64
    ensures { TwiceWord w result }
{
    (w.a & w.b) | (((w.a | w.b) & w.c) | ((w.a | w.b | w.c) & w.d))
}

// The one place whose word marks tick i. By arithmetic: a branch on it would not be foreseen.
pub fn which(w: Words, i: Nth) -> usize
    ensures is { result ≡ which_in w i.n }
    ensures below { result < 4 }
{
    usize::from(marked(w.b | w.d, i)) + 2 * usize::from(marked(w.c | w.d, i))
}

// The last of the places whose word marks tick i, if one does. Where none does, one test says so.
pub fn last_marked(w: Words, i: Nth) -> Option<usize>
    ensures { result ≡ last_in w i.n }
{
    if !marked(any_word(w), i) {
        return None;
    }
    if marked(w.d, i) {
        return Some(3);
    }
    if marked(w.c, i) {
        return Some(2);
    }
    if marked(w.b, i) {
        return Some(1);
    }
    Some(0)
}

// The place whose reply is at j once that of place k has left.
pub fn behind(j: usize, k: usize) -> usize
    requires { j < 3 }
    ensures is { result ≡ behind_of j k }
    ensures below { result < 4 }
{
    if j < k {
        return j;
    }
    j + 1
}
