ghost use Rattle.std.specs.Prelude.{◌≡◌, ◌≤◌, IfOk};
ghost use Rattle.drill.specs.Drills.{drill};

use crate::draws::Draws;
use crate::under_way::Drill;
use events::Script;
use std::alloc::{AllocError, Global};

/// The drill of a seed and of a number of steps, each of which has one to three events. It fails
/// only for want of memory.
pub fn drill_script(alloc: Global, seed: u32, count: u32) -> Result<Script, AllocError>
    requires { count ≤ 20000 }
    ensures { IfOk result (λ script. script ≡ drill seed count) }
{
    let mut draws = Draws::new(seed);
    let mut drill = Drill::start(alloc)?;
    for _ in 0..count {
        drill.add_step(draws.step())?;
    }
    Ok(drill.script)
}
