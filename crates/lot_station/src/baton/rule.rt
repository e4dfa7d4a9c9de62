//! The invariant of the queue, and the outcome of each step.

use crate::baton::view::View;
use crossbeam_queue::protocol::{Join, Lesson, Outcome, Protocol, Split};
use lot_engine::System;

/// The invariant: the system is in the queue, or one pass holds it.
pub struct OneBaton;

impl Protocol<System, View> for OneBaton {
    ghost use Rattle.lot_station.specs.BatonViews.{newcomer};
    ghost use Rattle.lot_station.specs.BatonRule.{Kept};

    ghost holds = { Kept };

    ghost first = { newcomer };
}

/// The first push.
pub struct Opens;

impl Outcome<System, View> for Opens {
    ghost use Rattle.std.specs.Prelude.{◌≡◌, [], ◌∷◌};
    ghost use Rattle.lot_station.specs.BatonViews.{all_actors, resting};

    ghost then = { λ v x w. w ≡ resting (all_actors x ∷ []) };
}

/// A pop that returns the system.
pub struct Takes;

impl Outcome<System, View> for Takes {
    ghost use Rattle.std.specs.Prelude.{◌≡◌};
    ghost use Rattle.lot_station.specs.BatonViews.{took, SeesAll};

    ghost then = { λ v x w. SeesAll x v.claims × (w ≡ took v x) };
}

impl Lesson<System, View> for Takes {
    ghost fact = { λ v items. Unit {0} };
}

/// A push of the system that the pass holds.
pub struct Gives;

impl Outcome<System, View> for Gives {
    ghost use Rattle.std.specs.Prelude.{◌≡◌};
    ghost use Rattle.lot_station.specs.BatonViews.{gave};

    ghost then = { λ v x w. w ≡ gave v x };
}

impl Lesson<System, View> for Gives {
    ghost use Rattle.std.specs.Prelude.{◌≡◌, []};

    ghost fact = { λ v items. items ≡ [] };
}

/// A split that gives the first actor to a new seat.
pub struct Deals;

impl Split<View> for Deals {
    ghost use Rattle.lot_station.specs.BatonViews.{all_but_first, first_actor};

    ghost left = { all_but_first };

    ghost right = { first_actor };
}

/// A split that records the history seen.
pub struct Notes;

impl Split<View> for Notes {
    ghost use Rattle.lot_station.specs.BatonViews.{note_of};

    ghost left = { λ v. v };

    ghost right = { note_of };
}

/// A join of two passes.
pub struct Both;

impl Join<View> for Both {
    ghost use Rattle.std.specs.Prelude.{[]};
    ghost use Rattle.lot_station.specs.BatonViews.{together, resting};

    ghost both = { together };

    ghost spent = { resting [] };
}
