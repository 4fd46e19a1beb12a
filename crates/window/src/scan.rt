//! The list rule as a plain program that looks through the whole list, for each place of a message.
ghost use Rattle.std.specs.Prelude.{◌≡◌, ◌≤◌, ◌+◌, [], ◌∷◌, ◌++◌, nat_lt, IfOk, OnOk, IfSome, unwrap_or};
ghost use Rattle.std.specs.List.{list_all, list_any, flat_map};
ghost use Rattle.window.specs.ListRule.{places_to, last_of, is_held, is_whole, has_newer, given_in, completes_past, bytes_at, body};
ghost use Rattle.frame.specs.Ahead.{messages_ahead};
ghost use Rattle.window.specs.Scanning.{bytes_in, items_in, completed};

use frame::Piece;
use std::alloc::{AllocError, Global};

/// How far a message may be behind the newest one.
const AHEAD: u64 = 3;

/// The last place of a message, as the first of its pieces has it.
fn last_of(heard: &[Piece], message: u32) -> Option<u8>
    ensures last { result ≡ last_of heard.now message }
    ensures small { IfSome result (λ last. last ≤ 63) }
{
    match heard {
        [] => None,
        [newest, older @ ..] => {
            let earlier = last_of(older, message);
            if earlier.is_some() {
                earlier
            } else if newest.message() == message {
                Some(newest.last())
            } else {
                None
            }
        }
    }
}

/// The first piece of a message at a place, among those that have this last place.
fn first_at(heard: &[Piece], message: u32, last: u8, place: u8) -> Option<Piece>
    ensures { bytes_in result ≡ bytes_at heard.now message last place }
{
    match heard {
        [] => None,
        [newest, older @ ..] => {
            let earlier = first_at(older, message, last, place);
            if earlier.is_some() {
                earlier
            } else if newest.message() == message
                && newest.piece() == place
                && newest.last() == last
            {
                Some(*newest)
            } else {
                None
            }
        }
    }
}

fn is_held(heard: &[Piece], message: u32, last: u8, place: u8) -> bool
    ensures { result ≡ is_held heard.now message last place }
{
    heard.iter().any(|x| x.message() == message && x.piece() == place && x.last() == last)
}

/// Whether each place to the last one is held.
fn all_held(heard: &[Piece], message: u32, last: u8) -> bool
    requires { last ≤ 63 }
    ensures { result ≡ list_all (is_held heard.now message last) (places_to last) }
{
    for place in 0..last + 1 {
        if !is_held(heard, message, last, place) {
            return false;
        }
    }
    true
}

fn is_whole(heard: &[Piece], message: u32) -> bool
    ensures { result ≡ is_whole heard.now message }
{
    match last_of(heard, message) {
        None => false,
        Some(last) => all_held(heard, message, last),
    }
}

/// Whether there is a piece of a message more than three numbers later.
fn has_much_newer(heard: &[Piece], message: u32) -> bool
    ensures { result ≡ has_newer heard.now (message + messages_ahead) }
{
    heard
        .iter()
        .any(|x| u64::from(message) + AHEAD < u64::from(x.message()))
}

fn has_greater(given: &[u32], message: u32) -> bool
    ensures { result ≡ list_any (nat_lt message) given.now }
{
    given.iter().any(|number| message < *number)
}

/// Whether a piece completes its message after the others, where these messages were given.
fn completes(given: &[u32], older: &[Piece], heard: &[Piece], piece: &Piece) -> bool
    requires { heard.now ≡ piece.now ∷ older.now }
    ensures { result ≡ completes_past given.now older.now piece.now }
{
    let message = piece.message();
    is_whole(heard, message)
        && !is_whole(older, message)
        && !has_much_newer(older, message)
        && !has_greater(given, message)
}

/// The numbers of the messages that the pieces gave, the last first.
fn given_in(alloc: Global, heard: &[Piece]) -> Result<Vec<u32>, AllocError>
    ensures { IfOk result (λ given. given.items ≡ given_in heard.now) }
{
    match heard {
        [] => Ok(Vec::new(alloc)),
        [newest, older @ ..] => {
            let mut given = given_in(alloc, older)?;
            if completes(&given, older, heard, newest) {
                given.insert(0, newest.message())?;
            }
            Ok(given)
        }
    }
}

/// Appends what a piece carries, if there is one.
fn append(bytes: &mut Vec<u8>, piece: Option<Piece>) -> Result<(), AllocError>
    ensures { OnOk result (bytes.new.items ≡ bytes.old.items ++ unwrap_or (bytes_in piece) []) }
{
    if let Some(piece) = piece {
        bytes.extend_from_slice(&piece.payload()[..usize::from(piece.used())])?;
    }
    Ok(())
}

/// The bytes at the places to the last one, joined.
fn joined(alloc: Global, heard: &[Piece], message: u32, last: u8) -> Result<Vec<u8>, AllocError>
    requires { last ≤ 63 }
    ensures { IfOk result (λ bytes. bytes.items
        ≡ flat_map (λ i. unwrap_or (bytes_at heard.now message last i) []) (places_to last)) }
{
    let mut bytes = Vec::new(alloc);
    for place in 0..last + 1 {
        append(&mut bytes, first_at(heard, message, last, place))?;
    }
    Ok(bytes)
}

/// The bytes of a message, joined by place.
fn body(alloc: Global, heard: &[Piece], message: u32) -> Result<Vec<u8>, AllocError>
    ensures { IfOk result (λ bytes. bytes.items ≡ body heard.now message) }
{
    match last_of(heard, message) {
        None => Ok(Vec::new(alloc)),
        Some(last) => joined(alloc, heard, message, last),
    }
}

/// The message that the newest piece of a list of one sender's pieces completes. The newest comes
/// first.
pub fn completed(alloc: Global, heard: &[Piece]) -> Result<Option<Vec<u8>>, AllocError>
    ensures { IfOk result (λ message. items_in message ≡ completed heard.now) }
{
    match heard {
        [] => Ok(None),
        [newest, older @ ..] => {
            let given = given_in(alloc, older)?;
            if completes(&given, older, heard, newest) {
                let bytes = body(alloc, heard, newest.message())?;
                return Ok(Some(bytes));
            }
            Ok(None)
        }
    }
}
