//! Worked rows for the lines of replies, refusals and listings.
ghost use Rattle.std.specs.Prelude.{◌≡◌, [], ◌∷◌, codes, true, false, Some, None};
ghost use Rattle.lot_machine.specs.declared.trap.Trap.TheVariants as action;
ghost use Rattle.lot_machine.specs.declared.record.Status.TheVariants as status;
ghost use Rattle.lot_machine.specs.declared.refusal.Refusal.TheVariants as refusal;
ghost use Rattle.lot_machine.specs.declared.refusal.TrapRefusal.TheVariants as trap_refusal;
ghost use Rattle.lot_machine.specs.declared.reply.Outcome.TheVariants as outcome;
ghost use Rattle.lot_machine.specs.declared.ticket.Target.TheVariants as target;
ghost use Rattle.lot_simulation.specs.declared.style.LineStyle.TheVariants.{Whole};
ghost use Rattle.lot_simulation.specs.Samples.{text, refusal_line, trap_line, status_line};
ghost use Rattle.lot_simulation.specs.Texts.{ticket_line};

/// Each refusal of a command.
#[tactic(auto, unfolding(crate::specs::OnLiterals::texts_on_literals))]
pub fn command_refusals()
    ensures bad_name { refusal_line refusal.BadName ≡ text (codes "refused 1 BadName" ∷ []) }
    ensures name_taken { refusal_line refusal.NameTaken ≡ text (codes "refused 2 NameTaken" ∷ []) }
    ensures no_currency { refusal_line refusal.NoCurrency ≡ text (codes "refused 3 NoCurrency" ∷ []) }
    ensures no_ticket { refusal_line refusal.NoTicket ≡ text (codes "refused 4 NoTicket" ∷ []) }
    ensures no_target { refusal_line refusal.NoTarget ≡ text (codes "refused 5 NoTarget" ∷ []) }
    ensures bad_amount { refusal_line refusal.BadAmount ≡ text (codes "refused 6 BadAmount" ∷ []) }
    ensures in_use { refusal_line refusal.InUse ≡ text (codes "refused 7 InUse" ∷ []) }
    ensures funding { refusal_line refusal.Funding ≡ text (codes "refused 8 Funding" ∷ []) }
    ensures not_funding { refusal_line refusal.NotFunding ≡ text (codes "refused 9 NotFunding" ∷ []) }
    ensures cycle { refusal_line refusal.Cycle ≡ text (codes "refused 10 Cycle" ∷ []) }
    ensures base_fixed { refusal_line refusal.BaseFixed ≡ text (codes "refused 11 BaseFixed" ∷ []) }
    ensures dead_thread { refusal_line refusal.DeadThread ≡ text (codes "refused 12 DeadThread" ∷ []) }
    ensures full { refusal_line refusal.Full ≡ text (codes "refused 13 Full" ∷ []) }
    ensures no_script { refusal_line refusal.NoScript ≡ text (codes "refused 14 NoScript" ∷ []) }
    ensures no_thread { refusal_line refusal.NoThread ≡ text (codes "refused 15 NoThread" ∷ []) }
    ensures alive { refusal_line refusal.Alive ≡ text (codes "refused 16 Alive" ∷ []) }
{}

/// Each refusal of an event other than a command: of a processor's, and of a wake.
#[tactic(auto, unfolding(crate::specs::OnLiterals::texts_on_literals))]
pub fn event_refusals()
    ensures bad_processor { refusal_line refusal.BadProcessor ≡ text (codes "refused 20 BadProcessor" ∷ []) }
    ensures busy { refusal_line refusal.Busy ≡ text (codes "refused 21 Busy" ∷ []) }
    ensures not_running { refusal_line refusal.NotRunning ≡ text (codes "refused 22 NotRunning" ∷ []) }
    ensures bad_ticks { refusal_line refusal.BadTicks ≡ text (codes "refused 23 BadTicks" ∷ []) }
    ensures not_asleep { refusal_line refusal.NotAsleep ≡ text (codes "refused 24 NotAsleep" ∷ []) }
{}

/// Each refusal of a trap.
#[tactic(auto, unfolding(crate::specs::OnLiterals::texts_on_literals))]
pub fn trap_refusals()
    ensures no_port { trap_line (action.Receive 9) (outcome.Refused trap_refusal.NoPort) false
        ≡ text (codes "thread 1 ticks 5 refused 30 NoPort" ∷ []) }
    ensures nothing_to_reply { trap_line (action.Reply 7) (outcome.Refused trap_refusal.NothingToReply) false
        ≡ text (codes "thread 1 ticks 5 refused 32 NothingToReply" ∷ []) }
    ensures no_mutex { trap_line (action.Lock 9) (outcome.Refused trap_refusal.NoMutex) false
        ≡ text (codes "thread 1 ticks 5 refused 33 NoMutex" ∷ []) }
    ensures not_owner { trap_line (action.Unlock 2 7) (outcome.Refused trap_refusal.NotOwner) false
        ≡ text (codes "thread 1 ticks 5 refused 34 NotOwner" ∷ []) }
    ensures already_owner { trap_line (action.Lock 2) (outcome.Refused trap_refusal.AlreadyOwner) false
        ≡ text (codes "thread 1 ticks 5 refused 35 AlreadyOwner" ∷ []) }
    ensures lock_cycle { trap_line (action.Lock 2) (outcome.Refused trap_refusal.LockCycle) false
        ≡ text (codes "thread 1 ticks 5 refused 36 LockCycle" ∷ []) }
{}

/// A trap that uses up the quantum, though its thread neither yields nor waits.
#[tactic(auto, unfolding(crate::specs::OnLiterals::texts_on_literals))]
pub fn traps_that_end()
    ensures lock { trap_line (action.Lock 2) outcome.Locked true
        ≡ text (codes "thread 1 ticks 5 lock 2 taken ends" ∷ []) }
    ensures reply { trap_line (action.Reply 7) (outcome.Replied 3) true
        ≡ text (codes "thread 1 ticks 5 reply client 3 ends" ∷ []) }
    ensures unlock { trap_line (action.Unlock 2 7) (outcome.Passed 3 (Some (1, 6))) true
        ≡ text (codes "thread 1 ticks 5 unlock 2 to 3 draw 1 of 6 ends" ∷ []) }
    ensures refused { trap_line (action.Unlock 2 7) (outcome.Refused trap_refusal.NotOwner) true
        ≡ text (codes "thread 1 ticks 5 refused 34 NotOwner ends" ∷ []) }
{}

/// An unlock that passes its mutex on by a lottery, one that passes it to the longest waiter, and one that frees it.
#[tactic(auto, unfolding(crate::specs::OnLiterals::texts_on_literals))]
pub fn unlocks()
    ensures drawn { trap_line (action.Unlock 2 7) (outcome.Passed 3 (Some (1, 6))) false
        ≡ text (codes "thread 1 ticks 5 unlock 2 to 3 draw 1 of 6" ∷ []) }
    ensures oldest { trap_line (action.Unlock 2 7) (outcome.Passed 3 None) false
        ≡ text (codes "thread 1 ticks 5 unlock 2 to 3 oldest" ∷ []) }
    ensures free { trap_line (action.Unlock 2 7) outcome.Freed false
        ≡ text (codes "thread 1 ticks 5 unlock 2 free" ∷ []) }
{}

/// Each status in a listing.
#[tactic(auto, unfolding(crate::specs::OnLiterals::texts_on_literals))]
pub fn statuses()
    ensures ready { status_line status.Ready
        ≡ text (codes "thread 1 a ready value 10 weight 20 quanta 3 ticks 40" ∷ []) }
    ensures running { status_line (status.Running 2 30)
        ≡ text (codes "thread 1 a running 2 used 30 value 10 weight 20 quanta 3 ticks 40" ∷ []) }
    ensures receiving { status_line (status.Receiving 4)
        ≡ text (codes "thread 1 a receiving 4 value 10 weight 20 quanta 3 ticks 40" ∷ []) }
    ensures queued { status_line (status.Queued 5)
        ≡ text (codes "thread 1 a queued 5 value 10 weight 20 quanta 3 ticks 40" ∷ []) }
    ensures served { status_line (status.Served 6)
        ≡ text (codes "thread 1 a served 6 value 10 weight 20 quanta 3 ticks 40" ∷ []) }
    ensures waiting { status_line (status.Waiting 7)
        ≡ text (codes "thread 1 a waiting 7 value 10 weight 20 quanta 3 ticks 40" ∷ []) }
    ensures asleep { status_line status.Asleep
        ≡ text (codes "thread 1 a asleep value 10 weight 20 quanta 3 ticks 40" ∷ []) }
    ensures dead { status_line status.Dead ≡ text (codes "thread 1 a dead value 10 weight 20 quanta 3 ticks 40" ∷ []) }
{}

/// Tickets in a listing: one that funds nothing, and one that funds a currency.
#[tactic(auto, unfolding(crate::specs::OnLiterals::texts_on_literals))]
pub fn tickets()
    ensures without_target { ticket_line Whole 1 2 (record {
      amount = 30;
      issuer = codes "base";
      target = None;
      funds = target.Unfunded;
      is_active = false;
      value = 0;
    })
        ≡ text (codes "ticket 2 amount 30 in base funds - inactive value 0" ∷ []) }
    ensures with_target { ticket_line Whole 1 3 (record {
      amount = 40;
      issuer = codes "base";
      target = Some (codes "g");
      funds = target.Currency 1;
      is_active = true;
      value = 40;
    })
        ≡ text (codes "ticket 3 amount 40 in base funds g active value 40" ∷ []) }
{}
