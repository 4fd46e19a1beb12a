//! Runs the DES sealing on a given amount of work and prints a checksum of what it made.
//!
//! `des_bench SIZE` chains SIZE buffers of 8 KiB, seals SIZE frames and opens SIZE frames;
//! `des_bench SIZE chain`, `seal` or `open` does one of them; `des_bench SIZE cases SEED` prints
//! SIZE cases that another implementation can compute again.
#![tactic(auto)]

mod draws;
mod work;

use std::env;
use std::io::Result;
use std::process::ExitCode;
use work::{cases, chain, open, seal};

const USAGE: &str = "usage: des_bench SIZE [chain | seal | open | cases SEED]";

fn number(words: &[String], place: usize) -> Option<u64> {
    words.get(place)?.as_str().parse().ok()
}

fn is_word(words: &[String], word: &str) -> bool {
    match words.get(2) {
        None => false,
        Some(given) => given.as_str() == word,
    }
}

fn main(rt: HostRuntime) -> Result<ExitCode> {
    let alloc = rt.alloc();
    let words: Vec<String> = env::args(&rt)?.collect(alloc)?;
    let Some(size) = number(&words, 1) else {
        eprintln!(rt; "{USAGE}")?;
        return Ok(ExitCode::from(1));
    };
    let all = words.len() == 2;
    if all || is_word(&words, "chain") {
        println!(rt; "chain {}", chain(alloc, size)?)?;
    }
    if all || is_word(&words, "seal") {
        println!(rt; "seal {}", seal(size))?;
    }
    if all || is_word(&words, "open") {
        println!(rt; "open {}", open(size))?;
    }
    if is_word(&words, "cases") {
        cases(&rt, alloc, size, number(&words, 3).unwrap_or(0))?;
    }
    Ok(ExitCode::SUCCESS)
}
