//! The edges of a trace before the one that is asked for, and what is written behind them.
ghost use Rattle.std.specs.Prelude.{◌≡◌, List, IsTrue, if◌then◌else◌};
ghost use Rattle.vme_model.specs.declared.signals.Edge.{Edge as EdgeValue};
ghost use Rattle.vme_model.specs.declared.signals.Version.{Version as VersionValue};
ghost use Rattle.vme_model.specs.Plan.{Plan as PlanValue};
ghost use Rattle.vme_model.specs.Signals.{is_well_formed};
ghost use Rattle.vme_shrink.specs.Shrinking.{IsFront, WritesStory};

use std::alloc::Global;
use std::io::Write;
use vme_model::Edge;
use vme_reading::{Status, write_trace};
use vme_shrink_search::{Front, StoryProgress, story};
use vme_store::Code;
use vme_trace::Fault;

/// The status if the edge that is asked for is accepted, and if it is not.
fn status_if(is_accepted: bool) -> Status
    ensures { result ≡ (if is_accepted then Status.Done else Status.SomeRefused) }
{
    if is_accepted {
        Status::Done
    } else {
        Status::SomeRefused
    }
}

/// Writes the trace of a story of the next edge, and returns whether that edge is refused.
///
/// # Errors
/// X6, and nothing is written then; X8.
pub(crate) fn write_story<W: Write, P: StoryProgress>(
    front: Front,
    alloc: Global,
    edge: &Edge,
    out: &mut W,
    progress: &mut P,
) -> Result<Status, Fault>
    requires { IsTrue (is_well_formed edge.now) }
    ensures { (p : PlanValue) (v : VersionValue) (before : List EdgeValue)
        → IsFront p v before front
        → WritesStory p v before edge.now (W.contents out.old) (W.contents out.new) result }
{
    let version = front.version();
    let status = status_if(front.verdict(*edge).is_ok());
    let Ok(story) = story(alloc, front, *edge, progress) else {
        return Err(Fault::Memory);
    };
    write_trace(version, &story, &[Code::of(*edge)], out)?;
    Ok(status)
}
