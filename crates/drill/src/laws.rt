ghost use Rattle.std.specs.Prelude.{◌≡◌, ℕ, ◌≤◌, [], ◌∷◌, length, codes, true};
ghost use Rattle.levels.specs.declared.level.Party.TheVariants.{Host, Manager};
ghost use Rattle.levels.specs.Rosters.{is_partner};
ghost use Rattle.file_calls.specs.declared.call.Call.TheVariants.{Get};
ghost use Rattle.events.specs.declared.event.Event.TheVariants.{Ask};
ghost use Rattle.events.specs.ScriptView.{ScriptView};
ghost use Rattle.machine.specs.FalseBytes.{NoneFalse};
ghost use Rattle.drill.specs.Places.{IsHost, home_of, neighbour_of};
ghost use Rattle.drill.specs.Rosters.{drill_roster};
ghost use Rattle.drill.specs.Events.{carry};
ghost use Rattle.drill.specs.Drills.{drill};
ghost use Rattle.drill.specs.Honest.{IsHonest};

/// Where the network makes up and changes no frame, and the store has no plan, no false bytes open.
pub fn honest_scripts_have_nothing_false()
    ensures { (script : ScriptView) (n : ℕ) → IsHonest script → NoneFalse script n }
{}

/// At no event of a drill false bytes open.
pub fn a_drill_has_nothing_false()
    ensures { (seed count : ℕ) →
        (let script = drill seed count in NoneFalse script (length script.events)) }
{}

/// A host's neighbour and the manager unit of its level are its partners, to whom it may send.
pub fn hosts_have_partners()
    ensures neighbour { (host : ℕ) → IsHost host →
        is_partner drill_roster (Host host) (Host (neighbour_of host)) ≡ true }
    ensures manager { (host : ℕ) → IsHost host →
        is_partner drill_roster (Host host) (Manager (home_of host)) ≡ true }
{}

/// The drill of seed 7 and of one step: host 5 reads a file of the lowest level.
pub fn a_small_drill()
    ensures { (let s = Manager (record { 0 = 2 }) in
        (drill 7 1).events ≡ Ask 5 (Get 0 (codes "f5"))
        ∷ carry (Host 5) s 0 ∷ carry s (Host 5) 0 ∷ []) }
{}
