//! The meanings of the plain fields: laws of the boundary, without executable code.
ghost use Rattle.std.specs.Prelude.{◌≡◌, ◌≤◌, ◌↔◌, ℕ, List, Ok, Some, true, length};
ghost use Rattle.lot_machine.specs.Commands as names;
ghost use Rattle.lot_machine.specs.declared.event.Event.{Event};
ghost use Rattle.lot_machine.specs.declared.record.Status.{Status};
ghost use Rattle.lot_machine.specs.declared.reply.Reply.{Reply};
ghost use Rattle.lot_machine.specs.declared.sizes.Sizes.{Sizes};
ghost use Rattle.lot_machine.specs.Named.{processor_of, thread_in};
ghost use Rattle.lot_machine.specs.Order.{IsInOrder};
ghost use Rattle.lot_machine.specs.State.{State, thread_on};
ghost use Rattle.lot_machine.specs.Step.{step};
ghost use Rattle.lot_c.specs.Events.{event_meant};
ghost use Rattle.lot_c.specs.Names.{name_meant, plain_name, thread_name_meant};
ghost use Rattle.lot_c.specs.Plain.{HasNames, plain_event};
ghost use Rattle.lot_c.specs.Replies.{plain_reply, seen_reply};
ghost use Rattle.lot_c.specs.Rows.{plain_status};
ghost use Rattle.lot_c.specs.Wides.{plain_wide, wide_meant};

/// A name that C receives keeps its meaning when C passes it back, to a kernel with the same sizes.
pub fn names_come_back()
    ensures named { (sizes : Sizes) (name : List ℕ) → length name ≤ 16 → names.is_name sizes name ≡ true
        → name_meant sizes (plain_name name) ≡ Ok name }
    ensures thread { (sizes : Sizes) (name : List ℕ) → length name ≤ 16 → names.is_thread_name sizes name ≡ true
        → thread_name_meant sizes (plain_name name) ≡ Ok name }
{}

/// A 128-bit number that C receives keeps its meaning when C passes it back.
pub fn wides_come_back()
    ensures { (n : ℕ) → wide_meant (plain_wide n) ≡ n }
{}

/// C can pass each event whose names the kernel takes.
pub fn each_event_can_be_meant()
    ensures { (sizes : Sizes) (e : Event) → HasNames sizes e → event_meant sizes (plain_event e) ≡ Ok e }
{}

/// No two replies have equal plain fields, except that a kill is done as other commands are.
pub fn replies_differ()
    ensures { (one other : Reply) → plain_reply one ≡ plain_reply other → seen_reply one ≡ seen_reply other }
{}

/// After a draw, an expiry or a trap the reply's flag tells whether the thread that it names runs on the processor.
pub fn flags_say_who_runs()
    ensures { (s : State) (e : Event) (p t : ℕ) → IsInOrder s → processor_of e ≡ Some p
        → thread_in (step s e).reply ≡ Some t
        → ((plain_reply (step s e).reply).goes_on ≡ true) ↔ (thread_on (step s e).state.records p ≡ Some t) }
{}

/// No two statuses of threads have equal plain fields.
pub fn statuses_differ()
    ensures { (one other : Status) → plain_status one ≡ plain_status other → one ≡ other }
{}
