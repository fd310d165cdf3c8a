ghost use Rattle.std.specs.Prelude.{◌≡◌, MatchResult};
ghost use Rattle.image.specs.Drafts.{plan_of};
ghost use Rattle.line.specs.Rules.{Sized, Ranged, Lawful};
ghost use Rattle.project.specs.Flawed.{FirstFlaw};

use super::Project;
use crate::records::Records;
use fault::Fault;
use image::draft::Draft;

impl Project {
    // The project of a draft whose fields are in range, or the draft's first flaw.
    pub(crate) fn of(draft: &Draft) -> Result<Project, Fault>
        requires sized { Sized (plan_of draft.now) }
        requires ranged { Ranged (plan_of draft.now) }
        ensures { MatchResult result (λ p. (p.draft ≡ draft.now) × Lawful (plan_of draft.now)) (FirstFlaw (plan_of draft.now)) }
    {
        let distances = Records { draft }.check()?;
        Ok(Project {
            draft: *draft,
            far: distances.table,
            waits: distances.waits(),
        })
    }
}
