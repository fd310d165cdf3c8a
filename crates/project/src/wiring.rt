// Where channels begin and end.
ghost use Rattle.std.specs.Prelude.{◌≡◌};
ghost use Rattle.line.specs.Plan.{end_of, start_of};

use line::parts::{Channel, Sink, Source};

// Where the channel from x ends, if there is one.
pub fn end_of(channels: &[Channel], x: Source) -> Option<Sink>
    ensures { result ≡ end_of x channels.now }
{
    channels.iter().find(|c| c.source == x).map(|c| c.sink)
}

// Where the channel to y begins, if there is one.
// It mirrors `end_of`: one function over both ends, with a reader for each, would be no plainer.
pub fn origin_of(channels: &[Channel], y: Sink) -> Option<Source>
    ensures { result ≡ start_of y channels.now }
{
    channels.iter().find(|c| c.sink == y).map(|c| c.source)
}
