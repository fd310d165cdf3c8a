// The lines of a script.
ghost use Rattle.std.specs.Prelude.{◌≡◌, ◌<◌, ◌==◌, false, length, map, IfOk, MatchOption};
ghost use Rattle.std.specs.List.{slice_split};
ghost use Rattle.script.specs.Spelling.{PassedOver};
ghost use Rattle.simulation.specs.Calls.{existing};
ghost use Rattle.simulate.specs.Lines.{lines_of};
ghost use Rattle.simulate.specs.Scripts.{has, closes, Stands, Entered, calls_of};

use runs::records::Call;
use script::{Line, read_line};
use std::alloc::{AllocError, Global};

// A line that is not passed over: its number from 1, its text, and the call that it is.
#[derive(Clone, Copy)]
pub struct Entry<'a> {
    pub number: usize,
    pub text: &'a [u8],
    pub call: Option<Call>,
}

// The text whose parts between bytes 10 are the lines: behind a last byte 10 stands no line.
fn between_ends(script: &[u8]) -> &[u8]
    requires { 0 < length script.now }
    ensures { slice_split (λ code. code == 10) result.now ≡ lines_of script.now }
{
    match script {
        [front @ .., b'\n'] => front,
        _ => script,
    }
}

// A line ends with a byte 10; the last one also without it.
fn lines(heap: Global, script: &[u8]) -> Result<Vec<&[u8]>, AllocError>
    ensures { IfOk result (λ v. map (λ l. l.now) v.items ≡ lines_of script.now) }
{
    if script.is_empty() {
        return Ok(Vec::new(heap));
    }
    let text = between_ends(script);
    let lines: Vec<&[u8]> = text.split(|code| *code == b'\n').collect(heap)?;
    Ok(lines)
}

// A closed runtime has neither arrive nor close.
fn exists(call: Call, closed: bool) -> bool
    ensures { result ≡ has closed call }
{
    match call {
        Call::Arrive { .. } | Call::Close => !closed,
        _ => true,
    }
}

// What stands on a line, unless it is passed over.
fn read_entry(number: usize, text: &[u8], closed: bool) -> Option<Entry<'_>>
    ensures { MatchOption result (PassedOver text.now) (Stands number text.now closed) }
{
    let call = match read_line(text) {
        Line::Passed => return None,
        Line::Call(call) if exists(call, closed) => Some(call),
        _ => None,
    };
    Some(Entry { number, text, call })
}

// Whether the call closes the runtime.
fn closes(call: Option<Call>) -> bool
    ensures { result ≡ closes call }
{
    matches!(call, Some(Call::Close))
}

// What stands on the lines of a script that are not passed over.
pub fn entries(heap: Global, script: &[u8]) -> Result<Vec<Entry<'_>>, AllocError>
    ensures stand { IfOk result (λ v. Entered 1 false (lines_of script.now) v.items) }
    ensures exist { IfOk result (λ v. existing (calls_of v.items) ≡ calls_of v.items) }
{
    let mut entries = Vec::new(heap);
    let mut closed = false;
    let lines = lines(heap, script)?;
    // A loop is plainer than a chain: whether a line is a call hangs on the lines before it.
    for (i, text) in lines.iter().enumerate() {
        if let Some(entry) = read_entry(i + 1, text, closed) {
            closed |= closes(entry.call);
            entries.push(entry)?;
        }
    }
    Ok(entries)
}

// The calls among them.
pub fn calls(heap: Global, entries: &[Entry<'_>]) -> Result<Vec<Call>, AllocError>
    ensures { IfOk result (λ v. v.items ≡ calls_of entries.now) }
{
    entries.iter().filter_map(|entry| entry.call).collect(heap)
}
