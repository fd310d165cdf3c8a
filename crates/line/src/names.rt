ghost use Rattle.std.specs.Prelude.{◌≡◌, Some};
ghost use Rattle.line.specs.Names.{kind_name};

use crate::parts::Kind;
use std::fmt;

impl Kind {
    // The kind's name in reports.
    pub fn name(self) -> &'static str
        ensures { result.now ≡ kind_name self }
    {
        match self {
            Kind::Pass => "pass",
            Kind::Count => "count",
            Kind::Gate => "gate",
            Kind::Toggle => "toggle",
            Kind::Scale => "scale",
            Kind::Sort => "sort",
            Kind::Other => "other",
        }
    }
}

impl fmt::Display for Kind {
    ghost output = { λ kind. Some (kind_name kind) };

    fn fmt<W: fmt::Write>(&self, f: &mut fmt::Formatter<W>) -> fmt::Result {
        f.write_str(self.name())
    }
}
