ghost use Rattle.std.specs.Prelude.{◌≡◌, ◌≢◌, ◌≤◌, ◌<◌, ◌↔◌, length, map, Some, All, IsSome, IfOk, IfSome, MatchOption};
ghost use Rattle.levels.specs.declared.level.Level.{Level};
ghost use Rattle.levels.specs.Rosters.{level_at};
ghost use Rattle.two_worlds.specs.LowParts.{entry_at};
ghost use Rattle.two_worlds.specs.Comparing.{DifferFirst, Compares};

use crate::places::{LowItem, low_part};
use crate::rosters::same_roster;
use crate::same::is_same;
use events::Script;
use levels::Partition;
use std::alloc::{AllocError, Global};

/// How two scripts compare at a level.
#[derive(Clone, Copy, Debug, PartialEq, Eq)]
pub enum Comparison {
    /// They have one low part.
    Alike,
    /// They are apart at this place: 0 where their rosters differ, else the first place at which
    /// their low parts do. Places in a low part are counted from 1, its rows before its events.
    Apart(u32),
}

/// The first place, from 0, at which not the same stands, or just one list has ended.
fn first_apart(a: &Script, first: &[LowItem], b: &Script, second: &[LowItem]) -> Option<usize>
    requires a { All (λ item. IsSome (entry_at a.now item)) first.now }
    requires b { All (λ item. IsSome (entry_at b.now item)) second.now }
    ensures apart { MatchOption result
        (map (entry_at a.now) first.now ≡ map (entry_at b.now) second.now)
        (λ place. DifferFirst place (map (entry_at a.now) first.now)
        (map (entry_at b.now) second.now)) }
    ensures within { IfSome result (λ place. place ≤ length first.now) }
{
    for (place, x) in first.iter().enumerate() {
        let Some(y) = second.get(place) else {
            return Some(place);
        };
        if !is_same(a, *x, b, *y) {
            return Some(place);
        }
    }
    if first.len() < second.len() {
        Some(first.len())
    } else {
        None
    }
}

/// How two scripts compare at this level of their roster.
pub fn compare(
    alloc: Global,
    a: &Script,
    b: &Script,
    level: Partition,
) -> Result<Comparison, AllocError>
    requires { a.now.roster ≡ b.now.roster → level.0 < length a.now.roster.levels }
    ensures rosters { IfOk result
        (λ comparison. (comparison ≡ Comparison.Apart 0) ↔ (a.now.roster ≢ b.now.roster)) }
    ensures compares { (own : Level) → level_at a.now.roster (Some level) ≡ Some own →
        IfOk result (λ comparison. Compares own a.now b.now comparison) }
{
    if !same_roster(a, b) {
        return Ok(Comparison::Apart(0));
    }
    let first = low_part(alloc, a, level)?;
    let second = low_part(alloc, b, level)?;
    Ok(match first_apart(a, first.items(), b, second.items()) {
        Some(place) => Comparison::Apart(place as u32 + 1),
        None => Comparison::Alike,
    })
}
