//! Threads' waits for mutexes and for replies, and their lives.
ghost use Rattle.std.specs.Prelude.{◌≡◌, ◌<◌, ◌+◌, ◌^◌, ◌++◌, [], ◌∷◌, ℕ, List, IfOk, vec_len};
ghost use Rattle.lot_machine.specs.Bounds.{IsBetween};
ghost use Rattle.lot_simulation.specs.Timed.{TimedTurn};
ghost use Rattle.lot_simulation.specs.TimedReport as timed;
ghost use Rattle.lot_simulation.specs.World.{TurnMade as WorldTurn};
ghost use Rattle.lot_simulation.specs.World.TurnAnswer.{Answered};
ghost use Rattle.lot_simulation.specs.declared.timed.SpanChange.{SpanChange as SpanChangeRecord};
ghost use Rattle.lot_machine.specs.declared.event.Event.{Event as EventRecord};
ghost use Rattle.lot_machine.specs.declared.event.Event.TheVariants as event;
ghost use Rattle.lot_simulation.specs.declared.timed.SpanChange.TheVariants.{Anew, Begins, Ends};
ghost use Rattle.lot_machine.specs.State.{State, opening};
ghost use Rattle.lot_machine.specs.declared.sizes.Sizes.{Sizes};
ghost use Rattle.lot_playback.specs.Owed.{AreReadyFor};
ghost use Rattle.lot_playback.specs.InTime as in_time;
ghost use Rattle.lot_playback.specs.InTime.{AreFew, AreSpans, HaveFollowed};

use lot_machine::{Action, Event, Outcome, Reply};
use lot_simulation::{Span, SpanChange, Spans};
use std::alloc::{AllocError, Global};

/// No past span and no current one.
const NO_SPANS: Spans = Spans {
    count: 0,
    total: 0,
    longest: 0,
    last: None,
    since: None,
};

/// Each thread's spans of one kind.
#[derive(Debug, Drop)]
pub struct SpanTable {
    /// The spans, from thread 1.
    pub threads: Vec<Spans>,
}

impl SpanTable {
    /// The table of `threads` threads, none of which has had a span.
    pub(crate) fn open(alloc: Global, threads: u32) -> Result<SpanTable, AllocError>
        ensures none { (kind : WorldTurn → SpanChangeRecord)
            → IfOk result (λ table. AreSpans kind [] 0 table.threads.items) }
        ensures ready { (sizes : Sizes)
            → IfOk result (λ table. AreReadyFor [] 0 (opening sizes) table.threads.items) }
        ensures count { IfOk result (λ table. vec_len table.threads ≡ threads) }
    {
        Ok(SpanTable {
            threads: vec![in alloc; NO_SPANS; threads as usize]?,
        })
    }

    /// The spans of the thread with this number.
    pub fn of(&self, thread: u32) -> Spans
        requires { IsBetween 1 (vec_len self.now.threads) thread }
        ensures spans { (kind : WorldTurn → SpanChangeRecord) (done : List TimedTurn) (n : ℕ)
            → AreSpans kind done n self.now.threads.items → result ≡ timed.spans_in kind done thread }
        ensures ready { (s : State) (done : List TimedTurn) (n : ℕ)
            → AreReadyFor done n s self.now.threads.items → result ≡ timed.ready_in done thread }
    {
        self.threads[thread as usize - 1]
    }

    /// Records a change of spans at this time. It ignores a thread outside the table.
    pub(crate) fn follow(&mut self, time: u32, change: SpanChange)
        requires bounded { (kind : WorldTurn → SpanChangeRecord) × (done : List TimedTurn) × (n : ℕ) × (n < 2 ^ 31)
            × AreSpans kind done n self.old.threads.items }
        ensures exact { (kind : WorldTurn → SpanChangeRecord) (done : List TimedTurn) (n : ℕ) (turn : TimedTurn)
            → turn.time ≡ time → kind turn.turn ≡ change → AreSpans kind done n self.old.threads.items
            → AreSpans kind (done ++ turn ∷ []) (n + 1) self.new.threads.items }
        ensures count { vec_len self.new.threads ≡ vec_len self.old.threads }
    {
        match change {
            SpanChange::Nobody => (),
            SpanChange::Anew(thread) => self.forget(thread),
            SpanChange::Begins(thread) => self.begin(time, thread),
            SpanChange::Ends(thread) => self.end(time, thread),
        }
    }

    /// Resets the spans of the thread with this number.
    pub(crate) fn forget(&mut self, thread: u32)
        ensures { (time : ℕ) → HaveFollowed time (Anew thread) self.old.threads.items self.new.threads.items }
    {
        if thread == 0 || self.threads.len() < thread as usize {
            return;
        }
        self.threads[thread as usize - 1] = NO_SPANS;
    }

    /// Begins a span of the thread at this time.
    fn begin(&mut self, time: u32, thread: u32)
        ensures { HaveFollowed time (Begins thread) self.old.threads.items self.new.threads.items }
    {
        if thread == 0 || self.threads.len() < thread as usize {
            return;
        }
        let place = thread as usize - 1;
        self.threads[place] = Spans {
            since: Some(time),
            ..self.threads[place]
        };
    }

    /// Ends the thread's span at this time.
    fn end(&mut self, time: u32, thread: u32)
        requires { AreFew self.old.threads.items }
        ensures { HaveFollowed time (Ends thread) self.old.threads.items self.new.threads.items }
    {
        if thread == 0 || self.threads.len() < thread as usize {
            return;
        }
        let place = thread as usize - 1;
        self.threads[place] = span_ended(self.threads[place], time);
    }
}

/// Two tables of `threads` threads, none of which has had a span.
pub(crate) fn open_two(alloc: Global, threads: u32) -> Result<(SpanTable, SpanTable), AllocError>
    ensures none { (kind : WorldTurn → SpanChangeRecord)
        → IfOk result (λ two. AreSpans kind [] 0 two.0.threads.items × AreSpans kind [] 0 two.1.threads.items) }
    ensures ready { (sizes : Sizes)
        → IfOk result (λ two. AreReadyFor [] 0 (opening sizes) two.1.threads.items) }
    ensures count { IfOk result (λ two. (vec_len two.0.threads ≡ threads) × (vec_len two.1.threads ≡ threads)) }
{
    let first = SpanTable::open(alloc, threads)?;
    let second = SpanTable::open(alloc, threads)?;
    Ok((first, second))
}

/// The spans after the current one, if any, ends at this time.
pub(crate) fn span_ended(spans: Spans, time: u32) -> Spans
    requires { (spans.count < 2 ^ 31) × (spans.total < 2 ^ 63) }
    ensures { result ≡ timed.span_ended time spans }
{
    let Some(since) = spans.since else {
        return spans;
    };
    let passed = time.saturating_sub(since);
    Spans {
        count: spans.count + 1,
        total: spans.total + u64::from(passed),
        longest: spans.longest.max(passed),
        last: Some(Span {
            from: since,
            to: time,
        }),
        since: None,
    }
}

/// The change of waits for mutexes in a turn with this event and reply.
pub(crate) fn mutex_wait(event: &Event, reply: Reply) -> SpanChange
    ensures { result ≡ timed.mutex_wait (Answered event.now reply) }
{
    change_by(is_locking(event), reply)
}

/// The change of waits for mutexes in a turn with this reply, given whether its event is a lock.
fn change_by(locks: bool, reply: Reply) -> SpanChange
    ensures { result ≡ in_time.change_by locks reply }
{
    let (thread, outcome) = match reply {
        Reply::Trapped {
            thread,
            outcome,
            ..
        } => (thread, outcome),
        Reply::Thread(thread) | Reply::Funded { thread, .. } => return SpanChange::Anew(thread),
        _ => return SpanChange::Nobody,
    };
    match outcome {
        Outcome::Passed { to, draw: _ } => SpanChange::Ends(to),
        Outcome::Waits => {
            if locks {
                SpanChange::Begins(thread)
            } else {
                SpanChange::Nobody
            }
        }
        _ => SpanChange::Nobody,
    }
}

/// Whether the event is a lock.
fn is_locking(event: &Event) -> bool
    ensures { result ≡ in_time.is_locking event.now }
{
    match event {
        Event::Trap(_, _, action) => is_lock(*action),
        _ => false,
    }
}

/// Whether the action is a lock.
fn is_lock(action: Action) -> bool
    ensures { (p ran : ℕ) → result ≡ in_time.is_locking (event.Trap p ran action) }
{
    matches!(action, Action::Lock(_))
}

/// The change of waits for replies in a turn with this reply.
pub(crate) fn reply_wait(reply: Reply) -> SpanChange
    ensures { (e : EventRecord) → result ≡ timed.reply_wait (Answered e reply) }
{
    let (thread, outcome) = match reply {
        Reply::Trapped {
            thread,
            outcome,
            ..
        } => (thread, outcome),
        Reply::Thread(thread) | Reply::Funded { thread, .. } => return SpanChange::Anew(thread),
        _ => return SpanChange::Nobody,
    };
    match outcome {
        Outcome::ServedBy(_) | Outcome::Queued => SpanChange::Begins(thread),
        Outcome::Replied(client) => SpanChange::Ends(client),
        Outcome::RepliedThenReceived { to, .. } => SpanChange::Ends(to),
        Outcome::RepliedThenWaits(to) => SpanChange::Ends(to),
        _ => SpanChange::Nobody,
    }
}

/// The change that a turn with this reply makes to lives.
pub(crate) fn life(reply: Reply) -> SpanChange
    ensures { (e : EventRecord) → result ≡ timed.life (Answered e reply) }
{
    match reply {
        Reply::Thread(thread) | Reply::Funded { thread, .. } => SpanChange::Begins(thread),
        Reply::Trapped {
            thread,
            outcome: Outcome::Exited,
            ..
        } => SpanChange::Ends(thread),
        Reply::Killed(thread) => SpanChange::Ends(thread),
        _ => SpanChange::Nobody,
    }
}
