ghost use Rattle.std.specs.Prelude.{◌≡◌, ◌≤◌, ◌↔◌, map, string_bytes, IsTrue, IfSome, Some};
ghost use Rattle.replay.specs.Words.{command_named, number_spelled, twin_named, drill_named, command_of, Reads};
ghost use Rattle.replay.specs.inside.Commands.{is_plain, HasRange};

use levels::LevelName;

/// The greatest seed of a drill.
const SEED_LIMIT: u32 = 2_147_483_647;

/// The most steps of a drill.
const STEP_LIMIT: u32 = 20_000;

/// What the words of the command line ask for.
#[derive(Clone, Copy, Debug)]
pub enum Command {
    /// Whether the input is a script, and how large it is.
    Check,
    /// Runs a script, and shows this of it.
    Run(Shown),
    /// Compares the two scripts of the input at the level of this name, and runs both where they
    /// are alike.
    Twin(LevelName),
    /// Runs a drill, of this many steps.
    Drill { seed: u32, count: u32 },
}

/// What is shown of a script that was run.
#[derive(Clone, Copy, Debug, PartialEq, Eq)]
pub enum Shown {
    /// What each host was told.
    Hosts,
    /// Each frame that a unit sealed.
    Wire,
}

impl Command {
    /// Whether an input is read.
    pub fn reads(&self) -> bool
        ensures { IsTrue result ↔ Reads (Some self.now) }
    {
        !matches!(self, Command::Drill { .. })
    }
}

fn command_named(word: &[u8]) -> Option<Command>
    ensures value { result ≡ command_named word.now }
    ensures range { IfSome result HasRange }
{
    if word == b"replay".as_slice() {
        return Some(Command::Run(Shown::Hosts));
    }
    if word == b"check".as_slice() {
        return Some(Command::Check);
    }
    if word == b"wire".as_slice() {
        return Some(Command::Run(Shown::Wire));
    }
    None
}

/// Whether a word has a digit in front, and no zero in front of more.
fn is_plain(word: &[u8]) -> bool
    ensures { result ≡ is_plain word.now }
{
    match word {
        [] => false,
        [only] => only.is_ascii_digit(),
        [first, ..] => first.is_ascii_digit() && *first != b'0',
    }
}

/// The number, up to the greatest, that a word spells.
fn number(word: &str, most: u32) -> Option<u32>
    ensures value { result ≡ number_spelled most word.now }
    ensures most { IfSome result (λ n. n ≤ most) }
{
    if !is_plain(word.as_bytes()) {
        return None;
    }
    match word.parse::<u32>() {
        Ok(n) if n <= most => Some(n),
        _ => None,
    }
}

fn drill_named(seed: &str, count: &str) -> Option<Command>
    ensures value { result ≡ drill_named seed.now count.now }
    ensures range { IfSome result HasRange }
{
    let seed = number(seed, SEED_LIMIT)?;
    let count = number(count, STEP_LIMIT)?;
    Some(Command::Drill { seed, count })
}

fn twin_named(level: &[u8]) -> Option<Command>
    ensures value { result ≡ twin_named level.now }
    ensures range { IfSome result HasRange }
{
    let name = LevelName::new(level)?;
    Some(Command::Twin(name))
}

/// The command of the words, if they have one of the forms.
pub fn command_of(words: &[String]) -> Option<Command>
    ensures value { result ≡ command_of (map string_bytes words.now) }
    ensures range { IfSome result HasRange }
{
    match words {
        [word] => command_named(word.as_bytes()),
        [word, level] if word.as_bytes() == b"twin".as_slice() => twin_named(level.as_bytes()),
        [word, seed, count] if word.as_bytes() == b"drill".as_slice() => drill_named(seed, count),
        _ => None,
    }
}
