ghost use Rattle.std.specs.Prelude.{◌≡◌, ℕ, ◌≤◌, ◌<◌, true, None, length, slice_index, IfOk};
ghost use Rattle.window.specs.Windows.{is_sender, waiting};

use frame::{Piece, cut, pieces};
use std::alloc::{AllocError, Global};
use window::{Taken, Window};

/// The addresses from 0 on.
fn addresses(alloc: Global, count: u8) -> Result<Vec<u8>, AllocError>
    ensures count { IfOk result (λ addresses. length addresses.items ≡ count) }
    ensures numbers { IfOk result
        (λ addresses. (i : ℕ) → i < count → slice_index addresses.items i ≡ i) }
{
    let mut addresses = Vec::new(alloc);
    for address in 0..count {
        addresses.push(address)?;
    }
    Ok(addresses)
}

/// A window of the partners with the addresses from 0 on.
pub fn open(alloc: Global, count: u8) -> Result<Window, AllocError>
    requires { count ≤ 64 }
    ensures partners { IfOk result (λ window. (a : ℕ) → a < count → is_sender window a ≡ true) }
    ensures idle { IfOk result (λ window. (a : ℕ) → waiting window a ≡ None) }
{
    let partners = addresses(alloc, count)?;
    Window::open(alloc, &partners)
}

/// Takes a piece from its sender, and hands out the message that it completes.
fn hear(window: &mut Window, piece: &Piece, out: &mut [u8; 5632])
    requires partner { is_sender window.old piece.now.from ≡ true }
    requires idle { (a : ℕ) → waiting window.old a ≡ None }
    ensures partners { (a : ℕ) → is_sender window.new a ≡ is_sender window.old a }
    ensures idle { (a : ℕ) → waiting window.new a ≡ None }
{
    let from = piece.from();
    if let Taken::Complete(length) = window.take(from, piece) {
        window.hand_out(from, &mut out[..usize::from(length)]);
    }
}

/// Takes all these pieces from the partners with the addresses from 0 on, one after another.
pub fn hear_all(window: &mut Window, heard: &[Piece], count: u8, out: &mut [u8; 5632])
    requires partners { (a : ℕ) → a < count → is_sender window.old a ≡ true }
    requires idle { (a : ℕ) → waiting window.old a ≡ None }
{
    for piece in heard {
        if piece.from() < count {
            hear(window, piece, out);
        }
    }
}

/// Takes all pieces of a message of the partner with address 0, in order.
fn hear_message(window: &mut Window, message: u32, body: &[u8; 5632], out: &mut [u8; 5632])
    requires partner { is_sender window.old 0 ≡ true }
    requires idle { (a : ℕ) → waiting window.old a ≡ None }
    ensures partner { is_sender window.new 0 ≡ true }
    ensures idle { (a : ℕ) → waiting window.new a ≡ None }
{
    for i in 0..pieces(body.len()) {
        hear(window, &cut(0, 100, 0, message, body, i), out);
    }
}

/// Sends so many messages through the window, and sums the last bytes that came out.
pub fn send_through(window: &mut Window, count: u32, out: &mut [u8; 5632]) -> u64
    requires partner { is_sender window.old 0 ≡ true }
    requires idle { (a : ℕ) → waiting window.old a ≡ None }
{
    let mut sum = 0u64;
    for message in 0..count {
        hear_message(window, message, &[(message % 256) as u8; 5632], out);
        sum = sum.wrapping_add(u64::from(out[5631]));
    }
    sum
}
