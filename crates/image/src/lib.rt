// Projects as bytes, both ways.
#![tactic(auto)]

ghost use Rattle.image.specs.Laws.{Faithful};

mod actors;
mod channels;
mod counts;
pub mod draft;
mod emitting;
mod head;
mod parsing;
mod row;
mod sensors;
mod words;

pub use emitting::emit;
pub use parsing::parse;

// Images tell plans apart, and none of a plan in range is refused for its bytes or fields.
pub fn images_are_faithful()
    ensures { Faithful }
{}
