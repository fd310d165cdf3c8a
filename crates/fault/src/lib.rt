// Every refusal of the product, by layer, cause and place.
#![tactic(auto)]

ghost use Rattle.std.specs.Prelude.{◌≡◌, Some};
ghost use Rattle.fault.specs.Table.{entry, place_of, layer_name, notice, of_bytes, of_records, of_graph, of_run};

use std::fmt;

// Where in the product a refusal was made.
#[derive(Clone, Copy, PartialEq, Eq, Debug)]
pub enum Layer {
    Bytes,
    Records,
    Graph,
    Run,
}

// Of the image as a row of bytes.
#[derive(Clone, Copy, PartialEq, Eq, Debug)]
pub enum BytesCause {
    Head,
    Count,
    Length,
}

// Of its records, one by one and beside each other.
#[derive(Clone, Copy, PartialEq, Eq, Debug)]
pub enum RecordsCause {
    Field,
    Order,
    Sink,
}

// Of the line that the records draw.
#[derive(Clone, Copy, PartialEq, Eq, Debug)]
pub enum GraphCause {
    Unwired,
    CutOff,
    ZeroLoop,
}

// Of a call while the line runs, or for want of room.
#[derive(Clone, Copy, PartialEq, Eq, Debug)]
pub enum RunCause {
    NoSuch,
    Window,
    Stale,
    Full,
    Back,
    Horizon,
    Due,
    Nothing,
    Early,
    Behind,
    NotSooner,
}

// A refusal: its layer, the cause there and the place that the cause names.
#[derive(Clone, Copy, PartialEq, Eq, Debug)]
pub enum Fault {
    Bytes(BytesCause, u64),
    Records(RecordsCause, u64),
    Graph(GraphCause, u64),
    Run(RunCause, u64),
}

impl Layer {
    pub fn name(self) -> &'static str
        ensures { result.now ≡ layer_name self }
    {
        match self {
            Layer::Bytes => "bytes",
            Layer::Records => "records",
            Layer::Graph => "graph",
            Layer::Run => "run",
        }
    }
}

// One line of the table of refusals.
#[derive(Clone, Copy)]
struct Entry {
    number: u8,
    name: &'static str,
    words: &'static str,
}

fn row(number: u8, name: &'static str, words: &'static str) -> Entry
    ensures { (result.number ≡ number) × (result.name.now ≡ name.now) × (result.words.now ≡ words.now) }
{
    Entry {
        number,
        name,
        words,
    }
}

impl BytesCause {
    fn entry(self) -> Entry
        ensures number { result.number ≡ (of_bytes self).number }
        ensures name { result.name.now ≡ (of_bytes self).name }
        ensures words { result.words.now ≡ (of_bytes self).words }
    {
        match self {
            BytesCause::Head => row(
                1,
                "Head",
                "the image does not begin with LIN, version 1 and four counts",
            ),
            BytesCause::Count => row(2, "Count", "a count is out of range"),
            BytesCause::Length => row(
                3,
                "Length",
                "the image has another length than its counts ask for",
            ),
        }
    }
}

impl RecordsCause {
    fn entry(self) -> Entry
        ensures number { result.number ≡ (of_records self).number }
        ensures name { result.name.now ≡ (of_records self).name }
        ensures words { result.words.now ≡ (of_records self).words }
    {
        match self {
            RecordsCause::Field => row(
                4,
                "Field",
                "a field is out of range or against a rule of channels",
            ),
            RecordsCause::Order => row(
                5,
                "Order",
                "a channel does not come after the one before it in the order of sources",
            ),
            RecordsCause::Sink => row(6, "Sink", "a channel ends where an earlier one ends"),
        }
    }
}

impl GraphCause {
    fn entry(self) -> Entry
        ensures number { result.number ≡ (of_graph self).number }
        ensures name { result.name.now ≡ (of_graph self).name }
        ensures words { result.words.now ≡ (of_graph self).words }
    {
        match self {
            GraphCause::Unwired => row(
                7,
                "Unwired",
                "a sensor feeds nothing, or an actuator is not fed",
            ),
            GraphCause::CutOff => row(
                8,
                "Cut off",
                "an actor has no sensor before it or no actuator behind it",
            ),
            GraphCause::ZeroLoop => row(9, "Zero loop", "an actor lies on a cycle without delay"),
        }
    }
}

impl RunCause {
    fn entry(self) -> Entry
        ensures number { result.number ≡ (of_run self).number }
        ensures name { result.name.now ≡ (of_run self).name }
        ensures words { result.words.now ≡ (of_run self).words }
    {
        match self {
            RunCause::NoSuch => row(10, "No such", "the project has no such number"),
            RunCause::Window => row(
                11,
                "Window",
                "the timestamp is in the future or older than the lateness allows",
            ),
            RunCause::Stale => row(
                12,
                "Stale",
                "the timestamp is not above the sensor's last one",
            ),
            RunCause::Full => row(13, "Full", "there is not enough room"),
            RunCause::Back => row(14, "Back", "the clock would go back"),
            RunCause::Horizon => row(15, "Horizon", "the time lies beyond the horizon"),
            RunCause::Due => row(16, "Due", "an output is due before the new clock"),
            RunCause::Nothing => row(17, "Nothing", "there is nothing to do"),
            RunCause::Early => row(
                18,
                "Early",
                "an event that is no later may still come from a sensor",
            ),
            RunCause::Behind => row(
                19,
                "Behind",
                "an event that is no later may still come from a waiting one",
            ),
            RunCause::NotSooner => row(
                20,
                "Not sooner",
                "the deadline is not below that of the running firing",
            ),
        }
    }
}

impl Fault {
    fn entry(self) -> Entry
        ensures number { result.number ≡ (entry self).number }
        ensures name { result.name.now ≡ (entry self).name }
        ensures words { result.words.now ≡ (entry self).words }
    {
        match self {
            Fault::Bytes(cause, _) => cause.entry(),
            Fault::Records(cause, _) => cause.entry(),
            Fault::Graph(cause, _) => cause.entry(),
            Fault::Run(cause, _) => cause.entry(),
        }
    }

    pub fn number(self) -> u8
        ensures { result ≡ (entry self).number }
    {
        self.entry().number
    }

    pub fn name(self) -> &'static str
        ensures { result.now ≡ (entry self).name }
    {
        self.entry().name
    }

    pub fn words(self) -> &'static str
        ensures { result.now ≡ (entry self).words }
    {
        self.entry().words
    }

    pub fn layer(self) -> Layer
        ensures { result ≡ (entry self).layer }
    {
        match self {
            Fault::Bytes(_, _) => Layer::Bytes,
            Fault::Records(_, _) => Layer::Records,
            Fault::Graph(_, _) => Layer::Graph,
            Fault::Run(_, _) => Layer::Run,
        }
    }

    pub fn place(self) -> u64
        ensures { result ≡ place_of self }
    {
        match self {
            Fault::Bytes(_, place)
            | Fault::Records(_, place)
            | Fault::Graph(_, place)
            | Fault::Run(_, place) => place,
        }
    }
}

// What `{}` writes of a layer: its name.
impl fmt::Display for Layer {
    ghost output = { λ l. Some (layer_name l) };

    fn fmt<W: fmt::Write>(&self, f: &mut fmt::Formatter<W>) -> fmt::Result {
        f.write_str(self.name())
    }
}

// As every program prints a refusal; the words may follow.
impl fmt::Display for Fault {
    ghost output = { λ f. Some (notice f) };

    fn fmt<W: fmt::Write>(&self, f: &mut fmt::Formatter<W>) -> fmt::Result {
        write!(
            f,
            "refused {} {}, layer {}, place {}",
            self.number(),
            self.name(),
            self.layer(),
            self.place()
        )
    }
}
