//! Shares with known amounts.
ghost use Rattle.std.specs.Prelude.{◌≡◌, ◌+◌, ◌<◌};
ghost use Rattle.lot_station.specs.Shares.{IsEnough};

use std::marker::Model;
use std::sync::ledger::{Blank, Book, Ledger, Share};

/// One part of a ledger, with its amount as a number, since a share has no size at run time.
#[derive(Drop)]
pub(crate) struct Holding<L: Ledger> {
    share: Share<L>,
    amount: u64,
}

impl<L: Ledger> Model for Holding<L> {
    ghost use Rattle.std.specs.Prelude.{◌≡◌, ℕ};

    ghost Value = { ℕ };

    ghost view = { λ h. h.amount };

    ghost invariant = { λ h. (h.share.parts ≡ 1) × (h.share.amount ≡ h.amount) };
}

impl<L: Ledger> Holding<L> {
    /// Splits off one part with this amount from the share.
    pub(crate) fn split_off(all: &mut Share<L>, amount: u64) -> Self
        requires { IsEnough all.old.parts all.old.amount amount }
        ensures amount { result ≡ amount }
        ensures parts_left { all.new.parts + 1 ≡ all.old.parts }
        ensures amount_left { all.new.amount + amount ≡ all.old.amount }
    {
        Holding {
            share: all.split_off(1, amount),
            amount,
        }
    }

    pub(crate) fn amount(&self) -> u64
        ensures { result ≡ self.now }
    {
        self.amount
    }

    /// Adds `more` to the book and to the part. The book then has this total.
    pub(crate) fn add(&mut self, book: &mut Book<L>, more: u64, total: u64)
        requires { book.old.total + more ≡ total }
        ensures amount { self.new ≡ self.old + more }
        ensures total { book.new.total ≡ total }
    {
        book.add(&mut self.share, more);
        book.audit(&mut self.share);
        let _ = total;
        self.amount += more;
    }

    /// Returns the part as a share.
    pub(crate) fn into_share(self) -> Share<L>
        ensures parts { result.parts ≡ 1 }
        ensures amount { result.amount ≡ self }
    {
        let Holding { share, amount: _ } = self;
        share
    }
}

/// The book of a new ledger with this total, and the share of all of it.
pub(crate) fn opened<L: Ledger>(blank: Blank, total: u64) -> (Book<L>, Share<L>)
    requires ledger { (blank.name ≡ L.name) × (blank.parts ≡ L.parts) }
    requires some { 0 < L.parts }
    ensures total { result.0.total ≡ total }
    ensures parts { result.1.parts ≡ L.parts }
    ensures amount { result.1.amount ≡ total }
{
    let (mut book, mut all) = blank.open::<L>();
    book.add(&mut all, total);
    (book, all)
}
