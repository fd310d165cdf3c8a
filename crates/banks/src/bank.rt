ghost use Rattle.std.specs.Prelude.{◌≡◌};
ghost use Rattle.banks.specs.Firing.{fired, next};
ghost use Rattle.banks.specs.Meaning.{Meaning};

// A bank of actors, each with a number, a row of whole numbers that it remembers, and a reaction.
pub trait Bank {
    // The row of each actor, and the rule by which a firing changes it and gives values.
    ghost means: { Self → Meaning };

    // Lets an actor fire: answers its outlets and stores its new row. Every actor number is answered, all other rows and
    // the rule stay as they were, and nothing but the arguments and the actor's own row counts.
    fn react(&mut self, actor: u64, timestamp: u64, inlets: [Option<i32>; 4]) -> [Option<i32>; 4]
        ensures outlets { result ≡ (fired (means self.old) actor timestamp inlets).outlets }
        ensures meaning { means self.new ≡ next (means self.old) actor timestamp inlets };
}
