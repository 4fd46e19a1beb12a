//! Times windows. Takes the pieces of messages of 5,632 bytes and hands the messages out; copies
//! the pieces to their places and the whole messages out, with no window; and copies each message
//! once.
//!
//! `window_bench ROUNDS` does this with few messages of one partner, with many of one, with as many
//! of 64 whose pieces come in turn, and with those of 64 of which four of each come mixed. It
//! prints sums of the last bytes that came out, and the times on standard error.
//!
//! `window_bench through COUNT` sends so many messages through one window, and prints the sum of
//! their last bytes.
#![tactic(auto)]

ghost use Rattle.std.specs.Prelude.{◌≤◌};

mod copies;
mod load;
mod windows;

use copies::{KEPT, copy_bodies, copy_pieces};
use load::{Load, Traffic};
use std::env;
use std::io::Result;
use std::time::Instant;
use windows::{hear_all, open, send_through};

/// A round takes 1,024 messages of each load.
const LOADS: [Load; 4] = [
    Load {
        partners: 1,
        messages: 16,
        mixed: 1,
        turns: 64,
    },
    Load {
        partners: 1,
        messages: 1024,
        mixed: 1,
        turns: 1,
    },
    Load {
        partners: 64,
        messages: 16,
        mixed: 1,
        turns: 1,
    },
    Load {
        partners: 64,
        messages: 16,
        mixed: 4,
        turns: 1,
    },
];

/// How long some turns took, and the sum of the last bytes that came out.
#[derive(Clone, Copy)]
struct Total {
    nanoseconds: u128,
    sum: u64,
}

impl Total {
    fn zero() -> Total {
        Total {
            nanoseconds: 0,
            sum: 0,
        }
    }

    /// One turn more, which began at `start`.
    fn add(&mut self, rt: &HostRuntime, start: Instant, out: &[u8; 5632]) -> Result<()> {
        let nanoseconds = start.elapsed(rt)?.as_nanos();
        self.nanoseconds = self.nanoseconds.saturating_add(nanoseconds);
        self.sum = self.sum.wrapping_add(u64::from(out[5631]));
        Ok(())
    }
}

#[derive(Clone, Copy)]
struct Totals {
    windows: Total,
    pieces: Total,
    bodies: Total,
}

impl Totals {
    /// Takes and copies all messages once more.
    fn turn(&mut self, rt: &HostRuntime, load: Load, traffic: &Traffic) -> Result<()>
        requires { load.partners ≤ 64 }
    {
        let mut window = open(rt.alloc(), load.partners)?;
        let mut rows = vec![in rt.alloc(); [0u8; 5632]; KEPT * usize::from(load.partners)]?;
        let mut out = [0u8; 5632];
        let start = Instant::now(rt)?;
        hear_all(&mut window, &traffic.heard, load.partners, &mut out);
        self.windows.add(rt, start, &out)?;
        let start = Instant::now(rt)?;
        copy_pieces(&mut rows, &traffic.heard, &mut out);
        self.pieces.add(rt, start, &out)?;
        let start = Instant::now(rt)?;
        copy_bodies(&traffic.bodies, &mut out);
        self.bodies.add(rt, start, &out)
    }
}

fn measure(rt: &HostRuntime, load: Load, rounds: u32) -> Result<Totals>
    requires { load.partners ≤ 64 }
{
    let traffic = Traffic::of(rt.alloc(), load)?;
    let mut totals = Totals {
        windows: Total::zero(),
        pieces: Total::zero(),
        bodies: Total::zero(),
    };
    for _ in 0..rounds.saturating_mul(load.turns) {
        totals.turn(rt, load, &traffic)?;
    }
    Ok(totals)
}

/// The number that a word spells, or 10.
fn number(word: Option<String>) -> u32 {
    word.and_then(|x| x.as_str().parse().ok()).unwrap_or(10)
}

/// Sends messages through one window.
fn send_messages(rt: &HostRuntime, count: u32) -> Result<()> {
    let mut window = open(rt.alloc(), 1)?;
    let mut out = [0u8; 5632];
    let sum = send_through(&mut window, count, &mut out);
    println!(rt; "{sum}")
}

fn measure_all(rt: &HostRuntime, rounds: u32) -> Result<()> {
    for load in LOADS {
        let Totals {
            windows,
            pieces,
            bodies,
        } = measure(rt, load, rounds)?;
        println!(rt; "{} {} {}", windows.sum, pieces.sum, bodies.sum)?;
        eprint!(rt;
            "partners: {}, messages of each: {}, mixed: {}, ",
            load.partners, load.messages, load.mixed
        )?;
        eprintln!(rt;
            "take and hand out: {} ns, pieces and messages: {} ns, messages: {} ns",
            windows.nanoseconds, pieces.nanoseconds, bodies.nanoseconds
        )?;
    }
    Ok(())
}

fn main(rt: HostRuntime) -> Result<()> {
    let mut words = env::args(&rt)?;
    let word = words.nth(1);
    if word.as_ref().is_some_and(|x| x.as_str() == "through") {
        return send_messages(&rt, number(words.next()));
    }
    measure_all(&rt, number(word))
}
