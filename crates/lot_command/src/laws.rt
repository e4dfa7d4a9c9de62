//! Texts of inputs that keep their own seeds, and exit statuses: laws of the definitions, without executable code.
ghost use Rattle.std.specs.Prelude.{◌≡◌, ℕ, Err, List, None, Ok, Option, false, true};
ghost use Rattle.lot_simulation.specs.declared.input.InputFault.{InputFault};
ghost use Rattle.lot_simulation.specs.Grammar.{program_in};
ghost use Rattle.lot_simulation.specs.Output.{output};
ghost use Rattle.lot_simulation.specs.World.{Program};
ghost use Rattle.lot_curves.specs.declared.by.By.TheVariants.{Currency, Thread};
ghost use Rattle.lot_curves.specs.declared.interval.Interval.{Interval};
ghost use Rattle.lot_curves.specs.declared.stretch.Measure.{Measure};
ghost use Rattle.lot_explain.specs.declared.detail.Detail.{Detail};
ghost use Rattle.lot_explain.specs.Explained.{explained_output};
ghost use Rattle.lot_chart.specs.Shown.{chart_output, shares_output};
ghost use Rattle.lot_command.specs.declared.exit_status.ExitStatus.TheVariants.{Done, Refused};
ghost use Rattle.lot_command.specs.declared.command_line.request.View.{View};
ghost use Rattle.lot_command.specs.declared.command_line.request.View.TheVariants as views;
ghost use Rattle.lot_command.specs.Statuses.{status_of_input};
ghost use Rattle.lot_command.specs.Views.{text_of, view_ends_refused, view_of};

/// Without a given seed, interval or window, the text of each view is the library's output for the same bytes; a
/// picture's is the one by thread. A picture by currency of a program without a duration is the one by thread.
pub fn texts_without_a_seed()
    ensures play { (title bytes : List ℕ) → text_of views.Play title None bytes ≡ output bytes }
    ensures explain { (detail : Detail) (title bytes : List ℕ)
        → text_of (views.Explain detail) title None bytes ≡ explained_output detail bytes }
    ensures shares { (measure : Measure) (title bytes : List ℕ)
        → text_of (views.Shares measure None None) title None bytes ≡ shares_output measure bytes }
    ensures chart { (title bytes : List ℕ)
        → text_of (views.Chart Thread None None) title None bytes ≡ chart_output title bytes }
    ensures untimed { (interval : Option Interval) (window : Option ℕ) (title : List ℕ) (program : Program)
        → program.duration ≡ None
        → view_of (views.Chart Currency interval window) title program
        ≡ view_of (views.Chart Thread interval window) title program }
{}

/// In each view and with any seed an input calls for success if its program isn't strict, and for a refusal's status if
/// it is refused. If a refusal ends the play with its own seeds, it calls for that status, too.
pub fn statuses_of_inputs()
    ensures lenient { (view : View) (seed : Option ℕ) (bytes : List ℕ) (program : Program)
        → program_in bytes ≡ Ok program → program.options.strict ≡ false → status_of_input view seed bytes ≡ Done }
    ensures refused { (view : View) (seed : Option ℕ) (bytes : List ℕ) (fault : InputFault)
        → program_in bytes ≡ Err fault → status_of_input view seed bytes ≡ Refused }
    ensures stopped { (view : View) (bytes : List ℕ) (program : Program) → program_in bytes ≡ Ok program
        → view_ends_refused view program ≡ true → status_of_input view None bytes ≡ Refused }
{}
