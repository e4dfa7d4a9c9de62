//! The currencies, threads and targets that commands refer to, by name or by number (4.7).
ghost use Rattle.std.specs.Prelude.{◌≡◌, true, IfSome, Some, is_some, map, option_map, slice_get};
ghost use Rattle.std.specs.Option.{option_flatten};
ghost use Rattle.lot_machine.specs.Commands as names;
ghost use Rattle.lot_machine.specs.State.{thread_at};
ghost use Rattle.lot_queues.specs.QueueLists.{IsThere};
ghost use Rattle.lot_kernel.specs.Snapshots.{IsTargetThere};

use crate::names::{Hashed, currency_place, thread_place};
use crate::tables::Tables;
use lot_machine::{CurrencyRef, Target, TargetRef, ThreadRef, index_of};

impl Tables {
    /// The number of the currency that the reference means, if it exists.
    pub(super) fn currency_meant(&self, currency: &CurrencyRef) -> Option<u32>
        ensures meant { result ≡ names.currency_meant self.now.state currency.now }
        ensures there { IfSome result (λ c. slice_get (map is_some self.now.state.currencies) c ≡ Some true) }
    {
        match currency {
            CurrencyRef::Named(name) => self.currency_named(&Hashed::new(name)),
            CurrencyRef::Numbered(number) => self.currency_numbered(*number),
        }
    }

    /// The number of the thread that the reference means, if it exists, even a dead one.
    pub(super) fn thread_meant(&self, thread: &ThreadRef) -> Option<u32>
        ensures { result ≡ names.thread_meant self.now.state thread.now }
    {
        match thread {
            ThreadRef::Named(name) => self.thread_named(&Hashed::new(name)),
            ThreadRef::Numbered(number) => self.thread_numbered(*number),
        }
    }

    /// The target that the reference means, if it exists.
    pub(super) fn target_meant(&self, to: &TargetRef) -> Option<Target>
        ensures meant { result ≡ names.target_meant self.now.state to.now }
        ensures there { IfSome result (IsTargetThere self.now.state) }
    {
        match to {
            TargetRef::Named(name) => self.target_named(&Hashed::new(name)),
            TargetRef::Currency(number) => Some(Target::Currency(self.currency_numbered(*number)?)),
            TargetRef::Thread(number) => Some(Target::Thread(self.thread_numbered(*number)?)),
        }
    }

    /// The currency or thread with this name.
    pub(super) fn target_named(&self, name: &Hashed<'_>) -> Option<Target>
        ensures named { result ≡ names.target_named self.now.state name.now }
        ensures there { IfSome result (IsTargetThere self.now.state) }
    {
        if let Some(currency) = self.currency_named(name) {
            return Some(Target::Currency(currency));
        }
        Some(Target::Thread(self.thread_named(name)?))
    }

    fn currency_named(&self, name: &Hashed<'_>) -> Option<u32>
        ensures named { result ≡ names.currency_named self.now.state name.now }
        ensures there { IfSome result (λ c. slice_get (map is_some self.now.state.currencies) c ≡ Some true) }
    {
        match currency_place(&self.currency_index, &self.currencies, name) {
            Some(place) => Some(place as u32),
            None => None,
        }
    }

    fn currency_numbered(&self, number: u32) -> Option<u32>
        ensures meant { result
            ≡ option_map (λ name. number) (option_flatten (slice_get self.now.state.currencies number)) }
        ensures there { IfSome result (λ c. slice_get (map is_some self.now.state.currencies) c ≡ Some true) }
    {
        match self.currencies.get(number as usize)? {
            Some(_) => Some(number),
            None => None,
        }
    }

    fn thread_named(&self, name: &Hashed<'_>) -> Option<u32>
        ensures named { result ≡ names.thread_named self.now.state name.now }
        ensures there { IfSome result (IsThere self.now.state.records) }
    {
        let place = thread_place(&self.thread_index, self.threads.threads(), name)?;
        Some(place as u32 + 1)
    }

    pub(super) fn thread_numbered(&self, number: u32) -> Option<u32>
        ensures meant { result ≡ option_map (λ thread. number) (thread_at self.now.state.threads number) }
        ensures there { IfSome result (IsThere self.now.state.records) }
    {
        if number == 0 {
            return None;
        }
        match self.threads.threads().get(index_of(number))? {
            Some(_) => Some(number),
            None => None,
        }
    }
}
