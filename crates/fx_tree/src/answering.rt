//! What steps that only look at the tree answer.
ghost use Rattle.std.specs.Prelude.{◌≡◌, ℕ, List, IfErr, IfOk, option_map};
ghost use Rattle.fx_item.specs.Item.{value_of};
ghost use Rattle.fx_item.specs.Look.{MayFail};
ghost use Rattle.fx_item.specs.Overlay.{live_in};
ghost use Rattle.fx_contents.specs.Points.{text_in};
ghost use Rattle.fx_steps.specs.Rows.{told_attr};
ghost use Rattle.fx_tree.specs.Planned.{AnswersStep};

use crate::walking::{attribute_of, walk_along};
use fx_contents::look_laws;
use fx_dir::{WalkEnd, names};
use fx_item::{Look, LookFault, Name, Value};
use fx_plain::{Answer, Kind, Path, Refusal, Step};
use fx_steps::{StepRefusal, TreeStep};
use std::alloc::Global;

/// The names of what lies in a directory. Two looks for each name of the path, and one for each
/// child.
pub fn answer_list<L: Look>(
    alloc: Global,
    look: &L,
    path: &Path,
) -> Result<Result<Answer, StepRefusal>, LookFault>
    ensures answer { IfOk result (AnswersStep (live_in (L.said look.now))
        (TreeStep.Basic (Step.List path.now))) }
    ensures fault { IfErr result (MayFail (L.lacks look.now)) }
{
    look_laws();
    let walk = walk_along(alloc, look, path)?;
    match walk.end {
        WalkEnd::Stopped(refusal) => Ok(Err(StepRefusal::Basic(refusal))),
        WalkEnd::Missing => Ok(Err(StepRefusal::Basic(Refusal::NotFound))),
        WalkEnd::Node(node, kind) => match kind {
            Kind::File => Ok(Err(StepRefusal::Basic(Refusal::NotDir))),
            Kind::Dir => {
                let found = names(alloc, look, node)?;
                Ok(Ok(Answer::Names(found)))
            }
        },
    }
}

/// The text of an attribute. Two looks for each name of the path, and one.
pub fn answer_attr<L: Look>(
    alloc: Global,
    look: &L,
    path: &Path,
    name: &Name,
) -> Result<Result<Answer, StepRefusal>, LookFault>
    ensures answer { IfOk result (AnswersStep (live_in (L.said look.now))
        (TreeStep.GetAttr path.now name.now)) }
    ensures fault { IfErr result (MayFail (L.lacks look.now)) }
{
    let walk = walk_along(alloc, look, path)?;
    match walk.end {
        WalkEnd::Stopped(refusal) => Ok(Err(StepRefusal::Basic(refusal))),
        WalkEnd::Missing => Ok(Err(StepRefusal::Basic(Refusal::NotFound))),
        WalkEnd::Node(node, _) => {
            let found = attribute_of(alloc, look, node, name)?;
            Ok(told(found))
        }
    }
}

/// What the value of an attribute answers.
fn told(value: Option<Value>) -> Result<Answer, StepRefusal>
    ensures { result ≡ told_attr (text_in (option_map value_of value)) }
{
    match value {
        Some(Value::Attribute { text }) => Ok(Answer::Text(text)),
        _ => Err(StepRefusal::NoAttr),
    }
}
