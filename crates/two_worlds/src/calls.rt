ghost use Rattle.std.specs.Prelude.{◌≡◌, ◌↔◌, IsTrue};
ghost use Rattle.file_calls.specs.declared.call.Call.TheVariants as kind;

use file_calls::{Call, Content, Name};

/// Whether a call writes this file.
fn is_put(call: &Call, name: &Name, content: &Content) -> bool
    ensures { IsTrue result ↔ (call.now ≡ kind.Put name.now content.now) }
{
    match call {
        Call::Put {
            name: other,
            content: kept,
        } => { other.bytes() == name.bytes() && kept.bytes() == content.bytes() }
        _ => false,
    }
}

/// Whether a call is for the first block of this file.
fn is_get(call: &Call, level: u8, name: &Name) -> bool
    ensures { IsTrue result ↔ (call.now ≡ kind.Get level name.now) }
{
    match call {
        Call::Get {
            level: own,
            name: other,
        } => *own == level && other.bytes() == name.bytes(),
        _ => false,
    }
}

/// Whether a call is for the names of this level.
fn is_list(call: &Call, level: u8) -> bool
    ensures { IsTrue result ↔ (call.now ≡ kind.List level) }
{
    match call {
        Call::List { level: own } => *own == level,
        _ => false,
    }
}

/// Whether a call removes this file.
fn is_remove(call: &Call, name: &Name) -> bool
    ensures { IsTrue result ↔ (call.now ≡ kind.Remove name.now) }
{
    match call {
        Call::Remove { name: other } => other.bytes() == name.bytes(),
        _ => false,
    }
}

/// Whether a call writes this block more.
fn is_append(call: &Call, name: &Name, content: &Content) -> bool
    ensures { IsTrue result ↔ (call.now ≡ kind.Append name.now content.now) }
{
    match call {
        Call::Append {
            name: other,
            content: kept,
        } => { other.bytes() == name.bytes() && kept.bytes() == content.bytes() }
        _ => false,
    }
}

/// Whether a call is for this block of a file.
fn is_get_block(call: &Call, level: u8, name: &Name, block: u8) -> bool
    ensures { IsTrue result ↔ (call.now ≡ kind.GetBlock level name.now block) }
{
    match call {
        Call::GetBlock {
            level: own,
            name: other,
            block: number,
        } => { *own == level && other.bytes() == name.bytes() && *number == block }
        _ => false,
    }
}

pub fn same_call(a: &Call, b: &Call) -> bool
    ensures { IsTrue result ↔ (a.now ≡ b.now) }
{
    match a {
        Call::Put { name, content } => is_put(b, name, content),
        Call::Get { level, name } => is_get(b, *level, name),
        Call::List { level } => is_list(b, *level),
        Call::Remove { name } => is_remove(b, name),
        Call::Append { name, content } => is_append(b, name, content),
        Call::GetBlock { level, name, block } => is_get_block(b, *level, name, *block),
    }
}
