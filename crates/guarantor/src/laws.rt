ghost use Rattle.std.specs.Prelude.{◌≡◌, ℕ, ◌<◌, ◌≤◌, ◌^◌, List, true};
ghost use Rattle.seal_core.specs.declared.KeyPair.{KeyPair};
ghost use Rattle.seal_core.specs.Sealing.{Sealer, IsSealing};
ghost use Rattle.file_calls.specs.Names.{is_name};
ghost use Rattle.guarantor.specs.Checks.{IsOpen, IsRecord};

/// Under every sealing a record has a record's length and opens, and it has one content.
pub fn records_have_one_content()
    ensures opens { (sealed : Sealer) (keys : KeyPair) (level : ℕ) (name : List ℕ)
        (block version : ℕ) (text content : List ℕ) → IsSealing sealed
        → level < 2 ^ 8 → is_name name ≡ true → block ≤ 63
        → IsRecord sealed keys level name block version text content
        → IsOpen sealed keys text }
    ensures one { (sealed : Sealer) (keys : KeyPair) (level : ℕ) (name : List ℕ)
        (block version : ℕ) (text content other : List ℕ) → IsSealing sealed
        → level < 2 ^ 8 → is_name name ≡ true → block ≤ 63
        → IsRecord sealed keys level name block version text content
        → IsRecord sealed keys level name block version text other
        → content ≡ other }
{}
