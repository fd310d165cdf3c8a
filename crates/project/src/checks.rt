// The rules between the records of a draft whose fields are in range, in the order of their refusals.
ghost use Rattle.std.specs.Prelude.{◌≡◌, ℕ, ◌+◌, ◌<◌, true, false, length, MatchResult};
ghost use Rattle.image.specs.Drafts.{plan_of};
ghost use Rattle.line.specs.Rules.{Misplaced, Doubled, Idle, Unfed, Severed, Sized, Ranged, Lawful};
ghost use Rattle.fault.specs.declared.RecordsCause.TheVariants.{Order as Unordered, Sink as Shared};
ghost use Rattle.fault.specs.declared.GraphCause.TheVariants.{Unwired as Unwired, CutOff as CutOff, ZeroLoop as ZeroLoop};
ghost use Rattle.fault.specs.declared.Fault.TheVariants.{Records as OfRecords, Graph as OfGraph};
ghost use Rattle.project.specs.Tables.{Far, InstantBy};
ghost use Rattle.project.specs.Flawed.{Cleared, FirstFlaw};

use super::flaws::{is_cut_off, is_doubled, is_idle, is_instant, is_misplaced, is_unfed};
use super::records::{Distances, Records};
use fault::{Fault, GraphCause, RecordsCause};
use image::draft::Draft;

// Refuses the lowest number below n that has the flaw.
fn refuse<C: Fn(usize) -> bool, R: FnOnce(u64) -> Fault>(
    n: usize,
    has_flaw: C,
    refusal: R,
) -> Result<(), Fault>
    requires test { C.IsAlwaysCallable has_flaw }
    requires refusal { (k : ℕ) → k < n → R.pre refusal k }
    ensures { MatchResult result (λ _. (k : ℕ) → k < n → C.post has_flaw k false) (λ f. (k : ℕ) × (k < n) × R.post refusal k f × C.post has_flaw k true × ((j : ℕ) → j < k → C.post has_flaw j false)) }
{
    match (0..n).find(|k| has_flaw(*k)) {
        Some(k) => Err(refusal(k as u64)),
        None => Ok(()),
    }
}

fn check_order(draft: &Draft) -> Result<(), Fault>
    ensures { Cleared (Misplaced (plan_of draft.now)) (OfRecords Unordered) result }
{
    refuse(
        draft.channels.len(),
        |k| is_misplaced(draft, k),
        |k| Fault::Records(RecordsCause::Order, k),
    )
}

fn check_sinks(draft: &Draft) -> Result<(), Fault>
    ensures { Cleared (Doubled (plan_of draft.now)) (OfRecords Shared) result }
{
    refuse(
        draft.channels.len(),
        |k| is_doubled(draft, k),
        |k| Fault::Records(RecordsCause::Sink, k),
    )
}

fn check_sensors(draft: &Draft) -> Result<(), Fault>
    ensures { Cleared (Idle (plan_of draft.now)) (OfGraph Unwired) result }
{
    refuse(
        draft.sensors.len(),
        |s| is_idle(draft, s),
        |s| Fault::Graph(GraphCause::Unwired, s),
    )
}

// Actuators come after sixteen places for sensors.
fn check_actuators(draft: &Draft) -> Result<(), Fault>
    ensures { Cleared (Unfed (plan_of draft.now)) (λ q. OfGraph Unwired (16 + q)) result }
{
    refuse(
        usize::from(draft.actuators),
        |q| is_unfed(draft, q),
        |q| Fault::Graph(GraphCause::Unwired, 16 + q),
    )
}

impl<'a> Records<'a> {
    fn check_reach(&self) -> Result<(), Fault>
        ensures { Cleared (Severed (plan_of self.now.draft.now)) (OfGraph CutOff) result }
    {
        let draft = self.draft;
        let reach = self.reach();
        refuse(
            draft.actors.len(),
            |a| is_cut_off(draft, &reach, a),
            |a| Fault::Graph(GraphCause::CutOff, a),
        )
    }

    // The distances of a draft that keeps every rule, or its first flaw.
    pub fn check(&self) -> Result<Distances<'a>, Fault>
        requires sized { Sized (plan_of self.now.draft.now) }
        ensures { MatchResult result (λ d. (d.draft ≡ self.now.draft) × Lawful (plan_of self.now.draft.now) × Far (plan_of self.now.draft.now) d.table) (FirstFlaw (plan_of self.now.draft.now)) }
    {
        check_order(self.draft)?;
        check_sinks(self.draft)?;
        check_sensors(self.draft)?;
        check_actuators(self.draft)?;
        self.check_reach()?;
        let distances = self.distances();
        distances.check_loops()?;
        Ok(distances)
    }
}

impl Distances<'_> {
    fn check_loops(&self) -> Result<(), Fault>
        ensures { Cleared (InstantBy (plan_of self.now.draft.now) self.now.table) (OfGraph ZeroLoop) result }
    {
        let (draft, table) = (self.draft, &self.table);
        refuse(
            draft.actors.len(),
            |a| is_instant(draft, table, a),
            |a| Fault::Graph(GraphCause::ZeroLoop, a),
        )
    }
}
