// The runtime's calls by definition, and the laws that hold over every run of them.
#![tactic(auto)]

pub mod ranks;
pub mod records;

ghost use Rattle.runs.specs.Equal.{Exact};
ghost use Rattle.runs.specs.Laws.{EventsFixRecords, EventsFixBeginnings, AlwaysOrderly};
ghost use Rattle.runs.specs.Laws.{NeverSticks, AlwaysBounded, AlwaysSafe};
ghost use Rattle.runs.specs.Laws.{EveryCallAnswers, StateFixesAnswer, JournalFixesState};
ghost use Rattle.runs.specs.Sample.{SampleSound, SampleRuns};

use records::{Answer, Call, Delivered, Event, Firing, Output, Running, Started, Status, Step};

// The laws over runs, for every sound line and every meaning of a bank: its contract is what is proved.
pub fn laws_over_runs()
    ensures events_fix_records { EventsFixRecords }
    ensures events_fix_beginnings { EventsFixBeginnings }
    ensures always_orderly { AlwaysOrderly }
    ensures never_sticks { NeverSticks }
    ensures always_bounded { AlwaysBounded }
    ensures always_safe { AlwaysSafe }
    ensures every_call_answers { EveryCallAnswers }
    ensures state_fixes_answer { StateFixesAnswer }
    ensures journal_fixes_state { JournalFixesState }
{}

// The sample line keeps every rule, and its steps follow from the definitions of the calls.
pub fn sample_line_runs()
    ensures sound { SampleSound }
    ensures steps { SampleRuns }
{}

// Two records are equal exactly where they are the same.
#[tactic(auto, using(crate::proofs::Equal::running_exact, crate::proofs::Equal::firing_exact, crate::proofs::Equal::answer_exact, crate::proofs::Equal::step_exact))]
pub fn equal_records_are_the_same()
    ensures event { Exact ⟦<Event as PartialEq>⟧.eq }
    ensures running { Exact ⟦<Running as PartialEq>⟧.eq }
    ensures firing { Exact ⟦<Firing as PartialEq>⟧.eq }
    ensures output { Exact ⟦<Output as PartialEq>⟧.eq }
    ensures started { Exact ⟦<Started as PartialEq>⟧.eq }
    ensures delivered { Exact ⟦<Delivered as PartialEq>⟧.eq }
    ensures status { Exact ⟦<Status as PartialEq>⟧.eq }
    ensures call { Exact ⟦<Call as PartialEq>⟧.eq }
    ensures answer { Exact ⟦<Answer as PartialEq>⟧.eq }
    ensures step { Exact ⟦<Step as PartialEq>⟧.eq }
{}
