ghost use Rattle.std.specs.Prelude.{◌≡◌, ◌≤◌, ◌<◌, IfOk};
ghost use Rattle.drill.specs.Events.{bytes_of, file_name, call_of};
ghost use Rattle.drill.specs.inside.Ranges.{IsStep};

use crate::draws::Step;
use crate::places::home_of;
use file_calls::{Call, Content, Name};
use std::alloc::{AllocError, Global};

/// The number of the lowest level.
const LOWEST: u8 = 0;

/// As many bytes as the value says, each of them the value.
pub fn bytes_of(alloc: Global, value: u8) -> Result<Vec<u8>, AllocError>
    ensures { IfOk result (λ bytes. bytes.items ≡ bytes_of value) }
{
    vec![in alloc; value; value as usize]
}

/// `f` and the last digit of the value.
fn file_name(alloc: Global, value: u8) -> Result<Name, AllocError>
    ensures { IfOk result (λ name. name ≡ file_name value) }
{
    match Name::new(alloc, &[b'f', b'0' + value % 10])? {
        Some(name) => Ok(name),
        None => unreachable!(),
    }
}

fn content_of(alloc: Global, value: u8) -> Result<Content, AllocError>
    requires { value ≤ 97 }
    ensures { IfOk result (λ content. content ≡ bytes_of value) }
{
    let bytes = bytes_of(alloc, value)?;
    match Content::new(alloc, &bytes)? {
        Some(content) => Ok(content),
        None => unreachable!(),
    }
}

/// What a step asks the manager unit of its host's level.
pub fn call_of(alloc: Global, step: Step) -> Result<Call, AllocError>
    requires { IsStep step }
    ensures { IfOk result (λ call. call ≡ call_of step) }
{
    match step.kind {
        4 => Ok(Call::Put {
            name: file_name(alloc, step.value)?,
            content: content_of(alloc, step.value)?,
        }),
        5 => Ok(Call::Get {
            level: home_of(step.host).0,
            name: file_name(alloc, step.value)?,
        }),
        6 => Ok(Call::Get {
            level: LOWEST,
            name: file_name(alloc, step.value)?,
        }),
        _ => Ok(Call::List {
            level: home_of(step.host).0,
        }),
    }
}
