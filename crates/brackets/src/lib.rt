// Brackets, from four words of edges in a row, e3 e2 e1 e, the newest being e.
// The ticks u at which a bracket may stand are the 64 that start 169 before the first tick of e: then u+167, u+168 and u+169 are known for all of them.
#![tactic(auto)]

ghost use Rattle.brackets.specs.Brackets.{Due, At168, At167};

use plane::slide;

// The edges at the ticks u.
pub fn due(e2: u64, e3: u64) -> u64
    ensures { Due e2 e3 result }
{
    slide(e3, e2, 23)
}

// The edges at u+168. Those at u+169 are e itself.
pub fn at168(e: u64, e1: u64) -> u64
    ensures { At168 e e1 result }
{
    slide(e1, e, 63)
}

// The edges at u+167.
// Stays: one function for both places would be `slide` itself, and the places numbers where it is called.
pub fn at167(e: u64, e1: u64) -> u64
    ensures { At167 e e1 result }
{
    slide(e1, e, 62)
}
