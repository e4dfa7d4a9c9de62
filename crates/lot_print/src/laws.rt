//! The parser reads a printed history back.
ghost use Rattle.std.specs.Prelude.{ℕ, List};
ghost use Rattle.lot_simulation.specs.Reading.{Reading};
ghost use Rattle.lot_simulation.specs.Report.{history_lines};
ghost use Rattle.lot_print.specs.Readback.{HasRoom, IsReadAs};

/// Wherever a body line may stand, the parser reads the lines printed for a history, `schedule` lines or `runs` lines
/// by the input's format, as that history.
pub fn histories_are_read_back()
    ensures { (n start : ℕ) (r : Reading) (history : List ℕ) → HasRoom r start history (history_lines r.unit history)
        → IsReadAs n start r (history_lines r.unit history) history }
{}
