//! Names that are used again, and names in one bucket of the index.
use super::*;

/// Currencies and threads share one set of names: each may have the name of a removed one, and not that of an existing
/// one.
const GIVEN_AGAIN: &[Step<'static>] = &[
    Step::Gives("mkcur x", Reply::Currency(1)),
    Step::Gives("rmcur x", Reply::Done),
    Step::Gives("rmcur x", Reply::Refused(Refusal::NoCurrency)),
    Step::Gives("fundx 10 base x 1", FIRST_FUNDED),
    Step::Gives("mkcur x", Reply::Refused(Refusal::NameTaken)),
    Step::Gives("mktkt 1 x", Reply::Refused(Refusal::NoCurrency)),
    Step::Wins(1, 7, (1, 7, 10), None),
    Step::Traps(1, Action::Exit, 1, Outcome::Exited),
    Step::Gives("unfund 1", Reply::Done),
    Step::Gives("rmthr x", Reply::Done),
    Step::Gives("mkcur x", Reply::Currency(2)),
    Step::Gives("mkthr x 1", Reply::Refused(Refusal::NameTaken)),
    Step::Gives("mktkt 1 x", Reply::Ticket(2)),
    Step::Gives("rmtkt 2", Reply::Done),
    Step::Gives("rmcur x", Reply::Done),
    Step::Gives("mkthr x 1", Reply::Thread(2)),
    Step::NoCurrency(2),
    Step::Thread((2, "x", Status::Ready, 0, 0, 0, 0)),
];

/// Names of currencies in one bucket of eight, of which the second, the first and the last are removed.
const CURRENCIES_OF_ONE_BUCKET: &[Step<'static>] = &[
    Step::Gives("mkcur a", Reply::Currency(1)),
    Step::Gives("mkcur d", Reply::Currency(2)),
    Step::Gives("mkcur g", Reply::Currency(3)),
    Step::Gives("mkcur y", Reply::Currency(4)),
    Step::Gives("mkthr d 1", Reply::Refused(Refusal::NameTaken)),
    Step::Gives("rmcur d", Reply::Done),
    Step::Gives("mktkt 1 a", Reply::Ticket(1)),
    Step::Gives("mktkt 1 d", Reply::Refused(Refusal::NoCurrency)),
    Step::Gives("mktkt 1 g", Reply::Ticket(2)),
    Step::Gives("rmtkt 1", Reply::Done),
    Step::Gives("rmcur a", Reply::Done),
    Step::Gives("rmcur y", Reply::Done),
    Step::Gives("mktkt 1 a", Reply::Refused(Refusal::NoCurrency)),
    Step::Gives("mktkt 1 g", Reply::Ticket(3)),
    Step::Gives("mktkt 1 y", Reply::Refused(Refusal::NoCurrency)),
    Step::Gives("mkcur a", Reply::Currency(5)),
    Step::Gives("mktkt 1 a", Reply::Ticket(4)),
];

/// Names of threads in one bucket of eight. The second is removed, and a new thread gets its name.
const THREADS_OF_ONE_BUCKET: &[Step<'static>] = &[
    Step::Gives("fundx 1 base a 1", FIRST_FUNDED),
    Step::Gives("mkthr d 1", Reply::Thread(2)),
    Step::Gives("mkthr g 1", Reply::Thread(3)),
    Step::Gives("unfund 1", Reply::Done),
    Step::Gives("fund 1 d", Reply::Done),
    Step::Wins(1, 0, (2, 0, 1), None),
    Step::Traps(1, Action::Exit, 2, Outcome::Exited),
    Step::Gives("unfund 1", Reply::Done),
    Step::Gives("rmthr d", Reply::Done),
    Step::Gives("fund 1 d", Reply::Refused(Refusal::NoTarget)),
    Step::Gives("mkthr g 1", Reply::Refused(Refusal::NameTaken)),
    Step::Gives("mkthr d 1", Reply::Thread(4)),
    Step::Gives("fund 1 g", Reply::Done),
    Step::Gives("unfund 1", Reply::Done),
    Step::Gives("fund 1 d", Reply::Done),
];

/// Names that aren't a letter a to z, followed by letters, digits, `_` or `-`.
const REFUSED: &[Step<'static>] = &[
    Step::Gives("mkthr Job#1 1", Reply::Refused(Refusal::BadName)),
    Step::Gives("mkcur ~!", Reply::Refused(Refusal::BadName)),
    Step::Gives("mkcur 9", Reply::Refused(Refusal::BadName)),
    Step::Gives("fundx 1 base aB 1", Reply::Refused(Refusal::BadName)),
    Step::Gives("mktkt 1 ~!", Reply::Refused(Refusal::NoCurrency)),
    Step::Gives("kill Job#1", Reply::Refused(Refusal::NoThread)),
];

/// Plain names have any printable ASCII but the space, from `!` to `~`. Two names differ even if only one letter does,
/// small in one and a capital in the other.
const PLAIN: &[Step<'static>] = &[
    Step::Gives("mkthr Job#1 1", Reply::Thread(1)),
    Step::Gives("mkcur ~!", Reply::Currency(1)),
    Step::Gives("mkcur 9", Reply::Currency(2)),
    Step::Gives("mkcur Job#1", Reply::Refused(Refusal::NameTaken)),
    Step::Gives("mkthr 9 1", Reply::Refused(Refusal::NameTaken)),
    Step::Gives("mkthr job#1 1", Reply::Thread(2)),
    Step::Gives("mkcur a b", Reply::Refused(Refusal::BadName)),
    Step::Gives("mkthr a\u{7f} 1", Reply::Refused(Refusal::BadName)),
    Step::Gives("mkcur ", Reply::Refused(Refusal::BadName)),
    Step::Gives("mkthr  1", Reply::Thread(3)),
    Step::Gives("mktkt 100 ~!", Reply::Ticket(1)),
    Step::Gives("mktkt 50 base", Reply::Ticket(2)),
    Step::Gives("fund 2 ~!", Reply::Done),
    Step::Gives("fund 1 Job#1", Reply::Done),
    Step::Ticket((1, 100, "~!", "Job#1", Target::Thread(1), true, 50)),
    Step::Currency((1, "~!", 1, 1, 100, 50)),
    Step::Thread((1, "Job#1", Status::Ready, 50, 50, 0, 0)),
    Step::Gives("kill Job#1", Reply::Killed(1)),
    Step::Gives("unfund 1", Reply::Done),
    Step::Gives("rmthr Job#1", Reply::Done),
    Step::Gives("rmthr Job#1", Reply::Refused(Refusal::NoThread)),
    Step::Gives("fund 1 job#1", Reply::Done),
];

const SCENES: &[Scene<'static>] = &[
    ("names given again", LARGEST, &[], &[GIVEN_AGAIN]),
    (
        "currencies of one bucket",
        EIGHT,
        &[],
        &[CURRENCIES_OF_ONE_BUCKET],
    ),
    (
        "threads of one bucket",
        EIGHT,
        &[],
        &[THREADS_OF_ONE_BUCKET],
    ),
    ("refused names", LARGEST, &[], &[REFUSED]),
    (
        "plain names",
        Sizes {
            currencies: 8,
            quantum: Sizes::SMALLEST.quantum,
            plain_names: true,
            ..EIGHT
        },
        &[],
        &[PLAIN],
    ),
];

#[test]
fn names(rt: HostRuntime) {
    play_all(&rt, rt.alloc(), SCENES)
}

/// Makes a currency, which gets this number, and removes it.
fn make_and_remove(rt: &impl Abort, kernel: &mut Kernel, number: u32) {
    check_same(rt, &answer(rt, kernel, "mkcur x"), &Reply::Currency(number));
    check_same(rt, &answer(rt, kernel, "rmcur x"), &Reply::Done);
}

#[test]
fn one_name_for_each_currency(rt: HostRuntime) {
    let mut kernel = kernel_of(&rt, rt.alloc(), LARGEST);
    for number in 1..=4096 {
        make_and_remove(&rt, &mut kernel, number);
    }
    let full = Reply::Refused(Refusal::Full);
    check_same(&rt, &answer(&rt, &mut kernel, "mkcur x"), &full)
}
