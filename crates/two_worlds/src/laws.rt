ghost use Rattle.std.specs.Prelude.{◌≡◌, map, Some};
ghost use Rattle.levels.specs.declared.level.Level.{Level};
ghost use Rattle.events.specs.ScriptView.{ScriptView};
ghost use Rattle.two_worlds.specs.declared.comparing.Comparison.{Comparison};
ghost use Rattle.two_worlds.specs.LowParts.{entries, low_items, entry_at};
ghost use Rattle.two_worlds.specs.Comparing.{Compares};

/// Two scripts compare in one way alone at each level.
pub fn scripts_compare_in_one_way()
    ensures { (level : Level) (a b : ScriptView) (x y : Comparison) →
        Compares level a b x → Compares level a b y → x ≡ y }
{}

/// What stands at the places of a low part is the low part.
pub fn places_hold_the_low_part()
    ensures { (level : Level) (script : ScriptView) →
        map (entry_at script) (low_items level script) ≡ map Some (entries level script) }
{}
