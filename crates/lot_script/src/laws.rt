//! Laws of the definitions about places in scripts, without executable code.
ghost use Rattle.std.specs.Prelude.{◌≡◌, ℕ, ◌<◌, List, drop, length};
ghost use Rattle.lot_simulation.specs.declared.script.ScriptLine.{ScriptLine};
ghost use Rattle.lot_simulation.specs.Script.{unrolled};
ghost use Rattle.lot_script.specs.Drafts.{IsScript};
ghost use Rattle.lot_script.specs.Places.{Fits, Place, context_at, rest_at};

/// A thread passes each mark and each trap of a script at exactly one place: two places that fit a script and mean
/// the same rest of its list, with the same accumulator, are equal; and for each nonempty rest of the list there is a
/// place that fits and leaves this rest.
pub fn places_are_exact()
    ensures one { (lines : List ScriptLine) (place other : Place) → IsScript lines → Fits lines place → Fits lines other
        → context_at lines place ≡ context_at lines other → place ≡ other }
    ensures each { (lines : List ScriptLine) (passed : ℕ) → IsScript lines → passed < length (unrolled lines)
        → (place : Place) × Fits lines place × (rest_at lines place ≡ drop passed (unrolled lines)) }
{}
