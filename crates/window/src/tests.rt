ghost use Rattle.std.specs.Prelude.{◌≡◌, ◌≤◌, true, None, IfSome};
ghost use Rattle.window.specs.Windows.{is_sender, waiting, SameElsewhere};

use crate::reception::Taken;
use crate::scan;
use crate::window::Window;
use frame::{MESSAGE_LIMIT, Piece, cut, pieces};
use std::alloc::{AllocError, Global};
use std::test::Fail;

const HI: [u8; 2] = [0x68, 0x69];

const ONE: [u8; 1] = [1];

const TWO: [u8; 1] = [2];

const LONG: [u8; 89] = [0xaa; 89];

const OTHER: [u8; 89] = [0xbb; 89];

const FULL: [u8; 176] = [0xdd; 176];

const LONGER: [u8; 177] = [0xcc; 177];

const LAST_NUMBER: u32 = 4_294_967_295;

/// A piece of a host's to host 9, as if it had sent this message.
fn piece(from: u8, message: u32, body: &[u8], i: u8) -> Option<Piece>
    ensures { IfSome result (λ piece. piece.from ≡ from) }
{
    if body.len() > MESSAGE_LIMIT || i >= pieces(body.len()) {
        return None;
    }
    Some(cut(from, 9, 0, message, body, i))
}

/// Takes a piece from a host, and hands out the message that it completes.
fn hear(window: &mut Window, from: u8, piece: &Piece, out: &mut [u8; 5632]) -> Option<u16>
    requires partner { is_sender window.old from ≡ true }
    requires idle { waiting window.old from ≡ None }
    requires sender { piece.now.from ≡ from }
    ensures partner { is_sender window.new from ≡ true }
    ensures idle { waiting window.new from ≡ None }
    ensures others { SameElsewhere window.old window.new from }
    ensures short { IfSome result (λ length. length ≤ 5632) }
{
    match window.take(from, piece) {
        Taken::Nothing => None,
        Taken::Complete(length) => {
            window.hand_out(from, &mut out[..usize::from(length)]);
            Some(length)
        }
    }
}

/// Takes a message's pieces from a host, from one place up to another, and says what the last of
/// them gave.
fn hear_part(
    window: &mut Window,
    from: u8,
    message: u32,
    body: &[u8],
    places: (u8, u8),
    out: &mut [u8; 5632],
) -> Option<u16>
    requires partner { is_sender window.old from ≡ true }
    requires idle { waiting window.old from ≡ None }
    ensures partner { is_sender window.new from ≡ true }
    ensures idle { waiting window.new from ≡ None }
    ensures others { SameElsewhere window.old window.new from }
{
    let mut given = None;
    let (first, end) = places;
    for place in first..end {
        if let Some(heard) = piece(from, message, body, place) {
            given = hear(window, from, &heard, out);
        }
    }
    given
}

/// A piece that is heard, by its message, the message's bytes and its place; and whether it gives
/// the message.
type Step<'a> = (u32, &'a [u8], u8, bool);

/// How many of the steps do as they say, one after another.
fn follow(alloc: Global, steps: &[Step]) -> Result<usize, AllocError> {
    let mut window = Window::open(alloc, &[1])?;
    let mut out = [0u8; 5632];
    let mut right = 0usize;
    for (message, body, place, gives) in steps {
        if let Some(heard) = piece(1, *message, body, *place) {
            let is_right = match hear(&mut window, 1, &heard, &mut out) {
                Some(length) => *gives && &out[..usize::from(length)] == *body,
                None => !*gives,
            };
            right = right.saturating_add(usize::from(is_right));
        }
    }
    Ok(right)
}

#[test]
fn messages_come_once_and_in_order(rt: HostRuntime) -> Result<(), Fail> {
    let rows: [(&str, &[Step]); 12] = [
        ("one piece", &[(0, &HI, 0, true)]),
        (
            "repeats",
            &[(0, &HI, 0, true), (0, &HI, 0, false), (0, &HI, 0, false)],
        ),
        (
            "last piece first",
            &[
                (0, &LONG, 1, false),
                (0, &LONG, 0, true),
                (0, &LONG, 1, false),
            ],
        ),
        (
            "two full pieces",
            &[(0, &FULL, 1, false), (0, &FULL, 0, true)],
        ),
        (
            "an older message",
            &[(1, &TWO, 0, true), (0, &ONE, 0, false)],
        ),
        (
            "given up",
            &[
                (0, &LONG, 0, false),
                (1, &TWO, 0, true),
                (0, &LONG, 1, false),
            ],
        ),
        (
            "two at once",
            &[
                (0, &LONG, 0, false),
                (1, &OTHER, 0, false),
                (0, &LONG, 1, true),
                (1, &OTHER, 1, true),
            ],
        ),
        (
            "three ahead",
            &[
                (0, &LONG, 0, false),
                (3, &OTHER, 0, false),
                (0, &LONG, 1, true),
            ],
        ),
        (
            "four ahead",
            &[
                (0, &LONG, 0, false),
                (4, &OTHER, 0, false),
                (0, &LONG, 1, false),
            ],
        ),
        (
            "the greater one first",
            &[
                (0, &LONG, 0, false),
                (1, &OTHER, 0, false),
                (1, &OTHER, 1, true),
                (0, &LONG, 1, false),
            ],
        ),
        (
            "two lasts",
            &[
                (0, &LONG, 1, false),
                (0, &LONGER, 0, false),
                (0, &LONG, 0, true),
            ],
        ),
        (
            "the last number",
            &[
                (LAST_NUMBER, &LONG, 0, false),
                (LAST_NUMBER, &LONG, 1, true),
            ],
        ),
    ];
    for (name, steps) in rows {
        let right = follow(rt.alloc(), steps)?;
        assert_eq!(rt; right, steps.len(), "{name}");
    }
    Ok(())
}

#[test]
fn the_longest_message_comes_backwards(rt: HostRuntime) -> Result<(), Fail> {
    let mut window = Window::open(rt.alloc(), &[1])?;
    let mut body = [0u8; 5632];
    for (i, byte) in body.iter_mut().enumerate() {
        *byte = (i % 251) as u8;
    }
    let mut out = [0u8; 5632];
    for place in (0..64u8).rev() {
        let heard = piece(1, 7, &body, place);
        assert!(rt; heard.is_some());
        if let Some(heard) = heard {
            let given = hear(&mut window, 1, &heard, &mut out);
            let want = if place == 0 { Some(5632) } else { None };
            assert!(rt; given == want, "at {place}");
        }
    }
    assert!(rt; out == body);
    Ok(())
}

#[test]
fn a_partner_whose_places_are_full_holds_no_other_up(rt: HostRuntime) -> Result<(), Fail> {
    let mut window = Window::open(rt.alloc(), &[1, 2])?;
    let body = [0xee; 5632];
    let mut out = [0u8; 5632];
    for message in 0..4u32 {
        let given = hear_part(&mut window, 1, message, &body, (0, 63), &mut out);
        assert!(rt; given.is_none(), "at {message}");
    }
    let given = hear_part(&mut window, 2, 0, &LONG, (0, 2), &mut out);
    assert!(rt; given == Some(89));
    assert!(rt; out.starts_with(&LONG));
    for message in 0..4u32 {
        let given = hear_part(&mut window, 1, message, &body, (63, 64), &mut out);
        assert!(rt; given == Some(5632), "at {message}");
        assert!(rt; out == body);
        out.fill(0);
    }
    Ok(())
}

/// The next of a row of numbers that look arbitrary.
fn next(seed: u32) -> u32 {
    seed.wrapping_mul(1_664_525).wrapping_add(1_013_904_223)
}

/// Some body, by a number.
fn some_body(choice: u32) -> &'static [u8] {
    match choice % 6 {
        0 => &HI,
        1 => &ONE,
        2 => &LONG,
        3 => &OTHER,
        4 => &LONGER,
        _ => &[],
    }
}

#[test]
fn the_window_does_what_the_scan_does(rt: HostRuntime) -> Result<(), Fail> {
    let mut window = Window::open(rt.alloc(), &[1])?;
    let mut out = [0u8; 5632];
    let mut heard = Vec::new(rt.alloc());
    let mut seed = 7;
    let mut given_count = 0u32;
    for step in 0..400u32 {
        seed = next(seed);
        let message = step / 16 + (seed >> 8) % 5;
        if let Some(x) = piece(1, message, some_body(seed >> 12), ((seed >> 20) % 3) as u8) {
            heard.insert(0, x)?;
            let want = scan::completed(rt.alloc(), &heard)?;
            let given = hear(&mut window, 1, &x, &mut out);
            match (given, want) {
                (Some(length), Some(want)) => {
                    given_count = given_count.saturating_add(1);
                    assert!(rt; out[..usize::from(length)] == want[..], "at {step}");
                }
                (None, None) => {}
                _ => assert!(rt; false, "at {step}"),
            }
        }
    }
    assert!(rt; given_count > 5, "{given_count} messages were given");
    Ok(())
}

fn is_shared<T: Send + Sync>(_value: &T) {}

#[test]
fn windows_may_go_to_other_threads(rt: HostRuntime) -> Result<(), Fail> {
    let window = Window::open(rt.alloc(), &[1, 2])?;
    is_shared(&window);
    Ok(())
}
