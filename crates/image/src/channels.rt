// Channels as records of six bytes: sort, number and outlet of the source, then sort, number and inlet of the sink.
ghost use Rattle.std.specs.Prelude.{◌≡◌};
ghost use Rattle.image.specs.Encoding.{source_bytes, sink_bytes, channel_bytes};
ghost use Rattle.image.specs.Fields.{BadChannelOf, SourceOf, SinkOf, Wired};
ghost use Rattle.std.proofs.Common.{rules};

use crate::counts::{CHANNEL_WIDTH, Counts};
use crate::row::{FieldError, Row};
use crate::words::put_bytes;
use line::parts::{Channel, Sink, Source};

fn source_of(sort: u8, number: u8, outlet: u8, counts: Counts) -> Result<Source, FieldError>
    ensures { SourceOf counts sort number outlet result }
{
    match (sort, number, outlet) {
        (0, n, _) if n >= counts.sensors => Err(FieldError { offset: 1 }),
        (0, _, 1..) => Err(FieldError { offset: 2 }),
        (0, n, 0) => Ok(Source::Sensor(n)),
        (1, n, _) if n >= counts.actors => Err(FieldError { offset: 1 }),
        (1, _, 4..) => Err(FieldError { offset: 2 }),
        (1, actor, outlet) => Ok(Source::Outlet { actor, outlet }),
        (2.., _, _) => Err(FieldError { offset: 0 }),
    }
}

// A sensor feeds no actuator.
fn sink_of(
    source: Source,
    sort: u8,
    number: u8,
    inlet: u8,
    counts: Counts,
) -> Result<Sink, FieldError>
    ensures { SinkOf counts source sort number inlet result }
{
    match (source, sort, number, inlet) {
        (_, 0, n, _) if n >= counts.actors => Err(FieldError { offset: 4 }),
        (_, 0, _, 4..) => Err(FieldError { offset: 5 }),
        (_, 0, actor, inlet) => Ok(Sink::Inlet { actor, inlet }),
        (Source::Sensor(_), 1, _, _) => Err(FieldError { offset: 3 }),
        (_, 1, n, _) if n >= counts.actuators => Err(FieldError { offset: 4 }),
        (_, 1, _, 1..) => Err(FieldError { offset: 5 }),
        (Source::Outlet { .. }, 1, n, 0) => Ok(Sink::Actuator(n)),
        (_, 2.., _, _) => Err(FieldError { offset: 3 }),
    }
}

fn spell_source(source: Source) -> [u8; 3]
    ensures { result ≡ source_bytes source }
{
    match source {
        Source::Sensor(number) => [0, number, 0],
        Source::Outlet { actor, outlet } => [1, actor, outlet],
    }
}

fn spell_sink(sink: Sink) -> [u8; 3]
    ensures { result ≡ sink_bytes sink }
{
    match sink {
        Sink::Inlet { actor, inlet } => [0, actor, inlet],
        Sink::Actuator(number) => [1, number, 0],
    }
}

impl Row for Channel {
    ghost spelt = { channel_bytes };

    ghost WIDTH = { 6 };

    ghost fine = { Wired };

    ghost bad = { BadChannelOf };

    ghost even = { Prim.search rules };

    ghost some = { Prim.search rules };

    const WIDTH: usize = CHANNEL_WIDTH;

    fn write(self, bytes: &mut [u8], at: usize) {
        put_bytes(bytes, at, &spell_source(self.source));
        put_bytes(bytes, at + 3, &spell_sink(self.sink));
    }

    fn read(bytes: &[u8], counts: Counts) -> Result<Channel, FieldError> {
        let source = source_of(bytes[0], bytes[1], bytes[2], counts)?;
        let sink = sink_of(source, bytes[3], bytes[4], bytes[5], counts)?;
        Ok(Channel { source, sink })
    }
}
