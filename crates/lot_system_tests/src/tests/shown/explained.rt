//! Inputs and their explanations.
use super::{Shown, outcome};
use crate::tests::same::check_same_at;
use lot_system::Played;
use std::alloc::Global;
use std::process::Abort;

/// Two threads wait for a mutex, and its owner passes it on by a lottery.
const MUTEX_LOTTERY: &str =
    "lottery 1\nquantum 10\nseed 132\nmutex m\nscript one\nlock m\ncompute 2\nyield\nunlock m\nendscript\n\
    fundx 3 base a one\nfundx 2 base b one\nfundx 1 base c one\nschedule 0 0 0 1 1 1 1 1 1 1 1 1\n";

/// Its explanation, worked out by hand.
const EXPLAINED: &str = "0 funded 1 1
0 funded 2 2
0 funded 3 3
1 lot thread 1 a weight 3 from 0 below 3 wins
1 lot thread 2 b weight 2 from 3 below 5
1 lot thread 3 c weight 1 from 5 below 6
1 draw 0 of 6 thread 1
1 thread 1 ticks 1 lock 1 taken
1 thread 1 ticks 3 yield
1 lot thread 1 a weight 7 from 0 below 7
1 lot thread 2 b weight 2 from 7 below 9 wins
1 lot thread 3 c weight 1 from 9 below 10
1 draw 7 of 10 thread 2
1 thread 2 ticks 1 lock 1 waits
1 lot thread 1 a weight 12 from 0 below 12
1 lot thread 3 c weight 1 from 12 below 13 wins
1 draw 12 of 13 thread 3
1 thread 3 ticks 1 lock 1 waits
1 lot thread 1 a weight 15 from 0 below 15 wins
1 draw 12 of 15 thread 1
1 lot waiter 2 b value 2 from 0 below 2
1 lot waiter 3 c value 1 from 2 below 3 wins
1 thread 1 ticks 1 unlock 1 to 3 draw 2 of 3
report
thread 1 a quanta 2 ticks 5
thread 2 b quanta 1 ticks 1
thread 3 c quanta 1 ticks 1
processor 1 quanta 4 idle 0 ticks 7
total turns 12 quanta 4 ticks 7
";

/// A thread that uses a third of its quantum, and one that uses all of it.
const IN_TIME: &str =
    "lottery 3\nquantum 9\nfor 12\nseed 5\nscript short\ncompute 2 yield\nendscript\n\
    script long\ncompute 9\nendscript\nfundx 1 base a short\nfundx 1 base b long\n";

/// Its explanation, worked out by hand.
const EXPLAINED_IN_TIME: &str = "0 0 funded 1 1
0 0 funded 2 2
0 1 lot thread 1 a weight 1 from 0 below 1
0 1 lot thread 2 b weight 1 from 1 below 2 wins
0 1 draw 1.082 of 2 thread 2
9 1 thread 2 ticks 9 expire
9 1 lot thread 1 a weight 1 from 0 below 1 wins
9 1 lot thread 2 b weight 1 from 1 below 2
9 1 draw 0.82 of 2 thread 1
12 1 thread 1 ticks 3 yield
12 1 lot thread 1 a weight 3 = value 1 x 9 / 3 from 0 below 3
12 1 lot thread 2 b weight 1 from 3 below 4 wins
12 1 draw 3.257 of 4 thread 2
report
thread 1 a quanta 1 ticks 3 share 25% due 50% value 50% ready waits 1 mean 9 longest 9
thread 2 b quanta 2 ticks 9 share 75% due 50% value 50% ready waits 2 mean 1.5 longest 3
processor 1 quanta 3 idle 0 ticks 12 unused 0
total turns 7 quanta 3 ticks 12 refused 0 left 0
";

/// Two threads of one currency and one outside. Tickets get other amounts: first one inside the currency, then the one
/// that funds it. Two such commands are refused.
const OTHER_AMOUNTS: &str =
    "lottery 3\nfor 300\nseed 14\nscript s\ncompute 1000\nendscript\nmkcur g\nmktkt 10 base\nfund 1 g\n\
    fundx 1 g a s\nfundx 1 g b s\nfundx 5 base c s\nat 150\nsettkt 9 0\nsettkt 9 4\nsettkt 3 4\nlsthr\nat 250\n\
    settkt 1 5\n";

/// Its explanation, worked out by hand. Of the currency's 10 the first two threads have 5 and 5, then 2 and 8; when it
/// has 5, they have 1 and 4.
const EXPLAINED_AMOUNTS: &str = "0 0 currency 1
0 0 ticket 1
0 0 done
0 0 funded 2 1
0 0 funded 3 2
0 0 funded 4 3
0 1 lot thread 1 a weight 5 from 0 below 5
0 1 lot thread 2 b weight 5 from 5 below 10 wins
0 1 lot thread 3 c weight 5 from 10 below 15
0 1 draw 9.199 of 15 thread 2
100 1 thread 2 ticks 100 expire
100 1 lot thread 1 a weight 5 from 0 below 5 wins
100 1 lot thread 2 b weight 5 from 5 below 10
100 1 lot thread 3 c weight 5 from 10 below 15
100 1 draw 3.023 of 15 thread 1
150 0 refused 6 BadAmount
150 0 refused 4 NoTicket
150 0 done
150 0 lsthr 3
150 thread 1 a running 1 used 0 value 2 weight 2 quanta 1 ticks 0
150 thread 2 b ready value 8 weight 8 quanta 1 ticks 100
150 thread 3 c ready value 5 weight 5 quanta 0 ticks 0
200 1 thread 1 ticks 100 expire
200 1 lot thread 1 a weight 2 from 0 below 2
200 1 lot thread 2 b weight 8 from 2 below 10 wins
200 1 lot thread 3 c weight 5 from 10 below 15
200 1 draw 7.484 of 15 thread 2
250 0 done
300 1 thread 2 ticks 100 expire
300 1 lot thread 1 a weight 1 from 0 below 1
300 1 lot thread 2 b weight 4 from 1 below 5
300 1 lot thread 3 c weight 5 from 5 below 10 wins
300 1 draw 6.195 of 10 thread 3
report
thread 1 a quanta 1 ticks 100 share 33.333% due 22.777% value 10% ready waits 1 mean 100 longest 100
thread 2 b quanta 2 ticks 200 share 66.666% due 41.111% value 40% ready waits 2 mean 50 longest 100
thread 3 c quanta 1 ticks 0 share 0% due 36.111% value 50% ready waits 1 mean 300 longest 300
currency 1 g ticks 300 share 100% due 63.888%
processor 1 quanta 4 idle 0 ticks 300 unused 0
total turns 18 quanta 4 ticks 300 refused 2 left 0
";

/// A thread is removed once it has ended and no ticket funds it. Another gets its name, and a number of its own.
const REMOVAL: &str =
    "lottery 3\nquantum 10\nfor 15\nscript short\ncompute 4\nendscript\nscript long\ncompute 1000\nendscript\n\
    fundx 3 base a short\nfundx 1 base b long\nrmthr a\nat 8\nrmthr a\nunfund 1\nrmthr a\nrmthr a\n\
    fundx 3 base a short\n";

/// Its explanation, worked out by hand. The removed thread takes part in no lottery and has no line in the report, but
/// its 5 ticks count in the shares.
const EXPLAINED_REMOVAL: &str = "0 0 funded 1 1
0 0 funded 2 2
0 0 refused 16 Alive
0 1 lot thread 1 a weight 3 from 0 below 3 wins
0 1 lot thread 2 b weight 1 from 3 below 4
0 1 draw 1.992 of 4 thread 1
5 1 thread 1 ticks 5 exit
5 1 lot thread 2 b weight 1 from 0 below 1 wins
5 1 draw 0.281 of 1 thread 2
8 0 refused 7 InUse
8 0 done
8 0 done
8 0 refused 15 NoThread
8 0 funded 3 3
15 1 thread 2 ticks 10 expire
15 1 lot thread 2 b weight 1 from 0 below 1
15 1 lot thread 3 a weight 3 from 1 below 4 wins
15 1 draw 3.921 of 4 thread 3
report
thread 2 b quanta 1 ticks 10 share 66.666% due 40% value 25% ready waits 1 mean 5 longest 5
thread 3 a quanta 1 ticks 0 share 0% due 35% value 75% ready waits 1 mean 7 longest 7 made 8
processor 1 quanta 3 idle 0 ticks 15 unused 0
total turns 13 quanta 3 ticks 15 refused 3 left 0 ended 1 mean 5 longest 5
";

/// A thread that sleeps twice beside one that computes. Its second sleep would end after the end.
const SLEEPER: &str =
    "lottery 3\nquantum 10\nfor 20\nseed 2\nscript nap\ncompute 1 sleep 3 sleep 12\nendscript\n\
    script work\ncompute 30\nendscript\nfundx 1 base a nap\nfundx 1 base b work\n";

/// Its explanation, computed by a small model of the rules. While the thread sleeps it takes part in no draw, and a
/// wake has no explanation. Afterwards it weighs five times as much, since it used a fifth of its quantum.
const EXPLAINED_SLEEPER: &str = "0 0 funded 1 1
0 0 funded 2 2
0 1 lot thread 1 a weight 1 from 0 below 1 wins
0 1 lot thread 2 b weight 1 from 1 below 2
0 1 draw 0.042 of 2 thread 1
2 1 thread 1 ticks 2 sleep
2 1 lot thread 2 b weight 1 from 0 below 1 wins
2 1 draw 0.726 of 1 thread 2
5 2 wake thread 1
12 1 thread 2 ticks 10 expire
12 1 lot thread 1 a weight 5 = value 1 x 10 / 2 from 0 below 5 wins
12 1 lot thread 2 b weight 1 from 5 below 6
12 1 draw 2.515 of 6 thread 1
13 1 thread 1 ticks 1 sleep
13 1 lot thread 2 b weight 1 from 0 below 1 wins
13 1 draw 0.062 of 1 thread 2
report
thread 1 a quanta 2 ticks 3 share 23.076% due 38.461% value 0% ready waits 2 mean 3.5 longest 7
thread 2 b quanta 2 ticks 10 share 76.923% due 61.538% value 100% ready waits 2 mean 1.5 longest 2
processor 1 quanta 4 idle 0 ticks 13 unused 0
total turns 10 quanta 4 ticks 13 refused 0 left 0
";

/// A server waits for a mutex while it serves a client, so the client's loan goes on to the owner. Another thread waits
/// for the mutex too, until it loses its only ticket.
const LENDERS: &str =
    "lottery 3\nquantum 10\nfor 34\nseed 6\nport p\nmutex m\nscript own\nlock m compute 1000\nendscript\n\
    script serve\nreceive p lock m reply\nendscript\nscript ask\ncompute 1 call p\nendscript\n\
    script want\nlock m\nendscript\nfundx 5 base o own\nfundx 1 base s serve\nfundx 3 base c ask\n\
    fundx 2 base z want\nat 25\nunfund 4\n";

/// Its explanation, computed by a small model of the rules. The caller of the queued call lends to nobody, and a thread
/// that is worth 0 has no loan.
const EXPLAINED_LENDERS: &str = "0 0 funded 1 1
0 0 funded 2 2
0 0 funded 3 3
0 0 funded 4 4
0 1 lot thread 1 o weight 5 from 0 below 5
0 1 lot thread 2 s weight 1 from 5 below 6
0 1 lot thread 3 c weight 3 from 6 below 9 wins
0 1 lot thread 4 z weight 2 from 9 below 11
0 1 draw 7.089 of 11 thread 3
2 1 thread 3 ticks 2 call 1 queued
2 1 lot thread 1 o weight 5 from 0 below 5 wins
2 1 lot thread 2 s weight 1 from 5 below 6
2 1 lot thread 4 z weight 2 from 6 below 8
2 1 draw 4.16 of 8 thread 1
3 1 thread 1 ticks 1 lock 1 taken
12 1 thread 1 ticks 9 expire
12 1 lot thread 1 o weight 5 from 0 below 5
12 1 lot thread 2 s weight 1 from 5 below 6 wins
12 1 lot thread 4 z weight 2 from 6 below 8
12 1 draw 5.492 of 8 thread 2
13 1 thread 2 ticks 1 receive 1 client 3 got 0
14 1 thread 2 ticks 1 lock 1 waits
14 1 lot thread 1 o weight 9 from 0 below 9
14 1 lot thread 4 z weight 2 from 9 below 11 wins
14 1 lent thread 2 s value 4 to thread 1
14 1 lent thread 3 c value 3 to thread 2
14 1 draw 10.117 of 11 thread 4
15 1 thread 4 ticks 1 lock 1 waits
15 1 lot thread 1 o weight 11 from 0 below 11 wins
15 1 lent thread 2 s value 4 to thread 1
15 1 lent thread 3 c value 3 to thread 2
15 1 lent thread 4 z value 2 to thread 1
15 1 draw 0.003 of 11 thread 1
25 0 done
25 1 thread 1 ticks 10 expire
25 1 lot thread 1 o weight 9 from 0 below 9 wins
25 1 lent thread 2 s value 4 to thread 1
25 1 lent thread 3 c value 3 to thread 2
25 1 draw 4.804 of 9 thread 1
report
thread 1 o quanta 3 ticks 20 share 80% due 76.227% value 100% ready waits 3 mean 1.666 longest 3
thread 2 s quanta 1 ticks 2 share 8% due 7.681% value 0% ready waits 1 mean 12 longest 12
thread 3 c quanta 1 ticks 2 share 8% due 2.181% value 0% ready waits 1 mean 0 longest 0
thread 4 z quanta 1 ticks 1 share 4% due 13.909% value 0% ready waits 1 mean 14 longest 14
processor 1 quanta 6 idle 0 ticks 25 unused 0
total turns 18 quanta 6 ticks 25 refused 0 left 0
";

/// Explains the input, and compares the outcome and the output.
fn check(rt: &impl Abort, alloc: Global, input: &str, played: Played, expected: &str) {
    let found = outcome(alloc, Shown::Explained, input, expected);
    check_same_at(rt, &input, &found, &Ok((played, true)));
}

#[test]
fn explains_inputs(rt: HostRuntime) {
    let alloc = rt.alloc();
    check(&rt, alloc, MUTEX_LOTTERY, Played::Done, EXPLAINED);
    check(&rt, alloc, IN_TIME, Played::Done, EXPLAINED_IN_TIME);
    check(&rt, alloc, OTHER_AMOUNTS, Played::Done, EXPLAINED_AMOUNTS);
    check(&rt, alloc, REMOVAL, Played::Done, EXPLAINED_REMOVAL);
    check(&rt, alloc, SLEEPER, Played::Done, EXPLAINED_SLEEPER);
    check(&rt, alloc, LENDERS, Played::Done, EXPLAINED_LENDERS);
    let refused = "refused line 1 50 BadHeader\n";
    check(&rt, alloc, "lottery 9\n", Played::Refused, refused);
}
