// Reads a line of a script into the call that it spells.
#![tactic(auto)]

mod calls;
mod numbers;
mod words;

ghost use Rattle.script.specs.Spelling.{Means, OneCall, OneMeaning};

use calls::read_call;
use runs::records::Call;

// What a line of a script is. Its three named cases are plainer than an Option of a Result.
#[derive(Clone, Copy, PartialEq, Eq, Debug)]
pub enum Line {
    Passed,
    Call(Call),
    NotACall,
}

// Any bytes are read, the byte that ends the line not among them.
pub fn read_line(text: &[u8]) -> Line
    ensures { Means text.now result }
{
    if let [] | [b'#', ..] = text {
        return Line::Passed;
    }
    read_call(text).map_or(Line::NotACall, Line::Call)
}

// A text spells one call at most, and a line has one meaning: its contract is what is proved.
pub fn lines_are_unambiguous()
    ensures one_call { OneCall }
    ensures one_meaning { OneMeaning }
{}
