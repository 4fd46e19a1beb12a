ghost use Rattle.std.specs.Prelude.{◌≡◌, IfOk};
ghost use Rattle.script.specs.Answers.{AnswersText};
ghost use Rattle.script.specs.inside.Stages.{at_line};
ghost use Rattle.script.specs.Text.{text_of};
ghost use Rattle.script.specs.Laws.{IsSpelled};

use crate::cut::cut;
use crate::refusal::{Reason, Refusal, ScriptRefused, Stop};
use crate::stage::Stage;
use events::Script;
use std::alloc::Global;

/// The most bytes of a script's text.
pub const TEXT_LIMIT: usize = 16_777_216;

fn at_line(line: u32, stop: Stop) -> ScriptRefused
    ensures { result ≡ at_line line stop }
{
    match stop {
        Stop::Refused(reason) => ScriptRefused::Refused(Refusal { line, reason }),
        Stop::OutOfMemory => ScriptRefused::OutOfMemory,
    }
}

/// Reads the text of a script, or names the first line that is refused.
pub fn read_script(alloc: Global, bytes: &[u8]) -> Result<Script, ScriptRefused>
    ensures exact { AnswersText bytes.now result }
    ensures text { IfOk result (λ script. bytes.now ≡ text_of script) }
    ensures spelled { IfOk result IsSpelled }
{
    if bytes.len() > TEXT_LIMIT {
        return Err(at_line(0, Stop::Refused(Reason::Many)));
    }
    let mut stage = Stage::Nothing;
    let mut rest = bytes;
    let mut line: u32 = 1;
    while let Some((text, behind)) = cut(rest, b'\n') {
        match stage.step(alloc, text) {
            Ok(()) => rest = behind,
            Err(stop) => return Err(at_line(line, stop)),
        }
        line += 1;
    }
    match stage.finish(rest) {
        Ok(script) => Ok(script),
        Err(reason) => Err(at_line(line, Stop::Refused(reason))),
    }
}
