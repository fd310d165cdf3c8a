ghost use Rattle.std.specs.Prelude.{◌≡◌, ◌++◌, ◌∷◌, Some, None, position};
ghost use Rattle.runs.specs.declared.records.Call.TheVariants.{Close};
ghost use Rattle.simulation.specs.Calls.{existing, is_close, when_closed, when_open};

use runs::records::Call;

// Whether a call is a close.
fn is_close(call: &Call) -> bool
    ensures { result ≡ is_close call.now }
{
    matches!(call, Call::Close)
}

// How many calls stand before the first close.
fn first_close(calls: &[Call]) -> Option<usize>
    ensures { result ≡ position is_close calls.now }
{
    calls.iter().position(is_close)
}

// The calls before the first close, and those behind it if there is one. The latter have neither arrive nor close.
pub(crate) fn part_at_close(calls: &[Call]) -> (&[Call], Option<&[Call]>)
    ensures { elim result.1 [ None ↦ existing calls.now ≡ when_open result.0.now | Some behind ↦ existing calls.now ≡ when_open result.0.now ++ Close ∷ when_closed behind.now ] }
{
    match first_close(calls) {
        Some(close) => (&calls[..close], Some(&calls[close + 1..])),
        None => (calls, None),
    }
}
