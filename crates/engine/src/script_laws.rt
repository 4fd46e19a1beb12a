ghost use Rattle.seal_core.specs.Sealing.{IsSealing};
ghost use Rattle.engine.specs.inside.Scripted.{ScriptLaws};

use machine::{
    a_script_has_all_keys, frames_are_apart, messages_fit_frames, only_the_low_part_counts,
};
use seal_core::Seal;

/// What the machine promises of every script.
pub(crate) fn script_laws()
    ensures { ScriptLaws }
{
    messages_fit_frames();
    frames_are_apart();
    a_script_has_all_keys();
    only_the_low_part_counts();
}

/// What a sealing promises.
pub(crate) fn sealing_laws<S: Seal>()
    ensures { IsSealing S.sealed_text }
{}
