//! Timed inputs.

/// Nothing to do.
const IDLE: (&str, &str) = (
    "lottery 3\nfor 10\n",
    "0 1 idle
report
processor 1 quanta 0 idle 1 ticks 0 unused 10
total turns 1 quanta 0 ticks 0 refused 0 left 0
",
);

/// Two threads that compute.
const SPINNERS: (&str, &str) = (
    "lottery 3\nfor 300\nscript spin\ncompute 1000\nendscript\nfundx 10 base a spin\nfundx 5 base b spin\n",
    "0 0 funded 1 1
0 0 funded 2 2
0 1 draw 12.992 of 15 thread 2
100 1 thread 2 ticks 100 expire
100 1 draw 13.281 of 15 thread 2
200 1 thread 2 ticks 100 expire
200 1 draw 13.921 of 15 thread 2
300 1 thread 2 ticks 100 expire
300 1 draw 1.363 of 15 thread 1
report
thread 1 a quanta 1 ticks 0 share 0% due 66.666% value 66.666% ready waits 1 mean 300 longest 300
thread 2 b quanta 3 ticks 300 share 100% due 33.333% value 33.333% ready waits 3 mean 0 longest 0
processor 1 quanta 4 idle 0 ticks 300 unused 0
total turns 9 quanta 4 ticks 300 refused 0 left 0
",
);

/// A command in the middle of a quantum, and one after the end.
const LATER: (&str, &str) = (
    "lottery 3\nfor 250\nscript spin\ncompute 1000\nendscript\nfundx 10 base a spin\nat 150\nfundx 30 base b spin\n\
    at 251\nunfund 1\n",
    "0 0 funded 1 1
0 1 draw 7.992 of 10 thread 1
100 1 thread 1 ticks 100 expire
100 1 draw 3.281 of 10 thread 1
150 0 funded 2 2
200 1 thread 1 ticks 100 expire
200 1 draw 23.921 of 40 thread 2
report
thread 1 a quanta 2 ticks 200 share 100% due 81.25% value 25% ready waits 2 mean 0 longest 0
thread 2 b quanta 1 ticks 0 share 0% due 18.75% value 75% ready waits 1 mean 50 longest 50 made 150
processor 1 quanta 3 idle 0 ticks 200 unused 0
total turns 7 quanta 3 ticks 200 refused 0 left 1
",
);

/// A command at the time of an expiry.
const TIES: (&str, &str) = (
    "lottery 3\nfor 100\nseed 1\nscript spin\ncompute 1000\nendscript\nfundx 10 base a spin\nat 100\nlsthr\n",
    "0 0 funded 1 1
0 1 draw 9.035 of 10 thread 1
100 0 lsthr 1
100 thread 1 a running 1 used 0 value 10 weight 10 quanta 1 ticks 0
100 1 thread 1 ticks 100 expire
100 1 draw 1.386 of 10 thread 1
report
thread 1 a quanta 2 ticks 100 share 100% due 100% value 100% ready waits 2 mean 0 longest 0
processor 1 quanta 2 idle 0 ticks 100 unused 0
total turns 5 quanta 2 ticks 100 refused 0 left 0
",
);

/// Two processors and one thread.
const TWO_PROCESSORS: (&str, &str) = (
    "lottery 3\nprocessors 2\nquantum 10\nfor 25\nscript spin\ncompute 12\nendscript\nfundx 10 base a spin\n",
    "0 0 funded 1 1
0 1 draw 7.992 of 10 thread 1
0 2 idle
10 1 thread 1 ticks 10 expire
10 1 draw 3.281 of 10 thread 1
10 2 idle
13 1 thread 1 ticks 3 exit
13 1 idle
13 2 idle
report
thread 1 a quanta 2 ticks 13 share 100% due 100% value 0% ready waits 2 mean 0 longest 0 made 0 ended 13
processor 1 quanta 2 idle 1 ticks 13 unused 12
processor 2 quanta 0 idle 3 ticks 0 unused 25
total turns 9 quanta 2 ticks 13 refused 0 left 0 ended 1 mean 13 longest 13
",
);

/// A call and its reply.
const CALLS: (&str, &str) = (
    "lottery 3\nquantum 10\nfor 40\nport p\nscript srv\nreceive p\ncompute 3\nreply\nendscript\n\
    script cli\nset 41\ncall p\nendscript\nfundx 5 base s srv\nfundx 3 base c cli\n",
    "0 0 funded 1 1
0 0 funded 2 2
0 1 draw 5.992 of 8 thread 2
2 1 thread 2 ticks 2 call 1 queued
2 1 draw 3.281 of 5 thread 1
3 1 thread 1 ticks 1 receive 1 client 2 got 41
7 1 thread 1 ticks 4 reply client 2
8 1 thread 1 ticks 1 exit
8 1 draw 13.921 of 15 thread 2 got 41
9 1 thread 2 ticks 1 exit
9 1 idle
report
thread 1 s quanta 1 ticks 6 share 66.666% due 76.388% value 0% ready waits 1 mean 2 longest 2 made 0 ended 8
thread 2 c quanta 2 ticks 3 share 33.333% due 23.611% value 0% \
ready waits 2 mean 0.5 longest 1 reply waits 1 mean 5 longest 5 made 0 ended 9
processor 1 quanta 3 idle 1 ticks 9 unused 31
total turns 11 quanta 3 ticks 9 refused 0 left 0 ended 2 mean 8.5 longest 9
",
);

/// A server without tickets that replies and receives in one trap.
const SERVING: (&str, &str) = (
    "lottery 3\nquantum 10\nfor 60\nport p\nscript srv\nreceive p\nloop 2\nserve p\nend\nendscript\n\
    script cli\ncall p\nendscript\nfundx 1 base s srv\nat 2\nunfund 1\nfundx 3 base a cli\nfundx 2 base b cli\n",
    "0 0 funded 1 1
0 1 draw 0.992 of 1 thread 1
1 1 thread 1 ticks 1 receive 1 waits
1 1 idle
2 0 done
2 0 funded 2 2
2 0 funded 3 3
2 1 draw 3.921 of 5 thread 3
3 1 thread 3 ticks 1 call 1 served by 1
3 1 draw 4.363 of 23 thread 1 got 0
5 1 thread 1 ticks 2 reply client 3 receive 1 waits
5 1 draw 18.738 of 23 thread 3 got 0
6 1 thread 3 ticks 1 exit
6 1 draw 1.058 of 3 thread 2
7 1 thread 2 ticks 1 call 1 served by 1
7 1 draw 1.828 of 15 thread 1 got 0
9 1 thread 1 ticks 2 reply client 2 receive 1 waits
9 1 draw 22.316 of 30 thread 2 got 0
10 1 thread 2 ticks 1 exit
10 1 idle
report
thread 1 s quanta 3 ticks 5 share 55.555% due 42.222% value 0% ready waits 3 mean 0 longest 0
thread 2 a quanta 2 ticks 2 share 22.222% due 48.888% value 0% \
ready waits 2 mean 2 longest 4 reply waits 1 mean 2 longest 2 made 2 ended 10
thread 3 b quanta 2 ticks 2 share 22.222% due 8.888% value 0% \
ready waits 2 mean 0 longest 0 reply waits 1 mean 2 longest 2 made 2 ended 6
processor 1 quanta 7 idle 2 ticks 9 unused 51
total turns 20 quanta 7 ticks 9 refused 0 left 0 ended 2 mean 6 longest 8
",
);

/// A mutex and its lottery.
const MUTEXES: (&str, &str) = (
    "lottery 3\nquantum 10\nfor 60\nmutex m\nscript one\nlock m\ncompute 2\nyield\nunlock m\nendscript\n\
    fundx 3 base a one\nfundx 2 base b one\nfundx 1 base c one\n",
    "0 0 funded 1 1
0 0 funded 2 2
0 0 funded 3 3
0 1 draw 3.992 of 6 thread 2
1 1 thread 2 ticks 1 lock 1 taken
4 1 thread 2 ticks 3 yield
4 1 draw 1.281 of 9 thread 1
5 1 thread 1 ticks 1 lock 1 waits
5 1 draw 6.421 of 13.5 thread 2
6 1 thread 2 ticks 1 unlock 1 to 1 draw 1.363 of 3
6 1 draw 32.738 of 51 thread 2
7 1 thread 2 ticks 1 exit
7 1 draw 22.058 of 31 thread 1
10 1 thread 1 ticks 3 yield
10 1 draw 9.828 of 11 thread 1
11 1 thread 1 ticks 1 unlock 1 free
12 1 thread 1 ticks 1 exit
12 1 draw 0.273 of 1 thread 3
13 1 thread 3 ticks 1 lock 1 taken
16 1 thread 3 ticks 3 yield
16 1 draw 2.316 of 2.5 thread 3
17 1 thread 3 ticks 1 unlock 1 free
18 1 thread 3 ticks 1 exit
18 1 idle
report
thread 1 a quanta 3 ticks 6 share 33.333% due 37.5% value 0% \
ready waits 3 mean 1.666 longest 4 mutex waits 1 mean 1 longest 1 made 0 ended 12
thread 2 b quanta 3 ticks 6 share 33.333% due 15.74% value 0% ready waits 3 mean 0.333 longest 1 made 0 ended 7
thread 3 c quanta 2 ticks 6 share 33.333% due 46.759% value 0% ready waits 2 mean 6 longest 12 made 0 ended 18
processor 1 quanta 8 idle 1 ticks 18 unused 42
total turns 24 quanta 8 ticks 18 refused 0 left 0 ended 3 mean 12.333 longest 18
",
);

/// Values with digits after the point.
const THIRDS: (&str, &str) = (
    "lottery 3\nfor 1\nscript s\ncompute 5\nendscript\nmkcur g\nmktkt 100 base\nfund 1 g\nfundx 1 g a s\n\
    fundx 1 g b s\nfundx 1 g c s\nlscur\nlsthr\n",
    "0 0 currency 1
0 0 ticket 1
0 0 done
0 0 funded 2 1
0 0 funded 3 2
0 0 funded 4 3
0 0 lscur 2
0 currency 0 base backing 0 issued 1 active 100 value 100
0 currency 1 g backing 1 issued 3 active 3 value 100
0 0 lsthr 3
0 thread 1 a ready value 33.332 weight 33.332 quanta 0 ticks 0
0 thread 2 b ready value 33.332 weight 33.332 quanta 0 ticks 0
0 thread 3 c ready value 33.332 weight 33.332 quanta 0 ticks 0
0 1 draw 5.503 of 99.996 thread 1
report
thread 1 a quanta 1 ticks 0 share 0% due 0% value 33.333% ready waits 1 mean 0 longest 0
thread 2 b quanta 0 ticks 0 share 0% due 0% value 33.333%
thread 3 c quanta 0 ticks 0 share 0% due 0% value 33.333%
currency 1 g ticks 0 share 0% due 0%
processor 1 quanta 1 idle 0 ticks 0 unused 0
total turns 9 quanta 1 ticks 0 refused 0 left 0
",
);

/// Refused commands.
const REFUSED: (&str, &str) = (
    "lottery 3\nfor 1\nmktkt 0 base\nmkthr a none\nfund 9 a\n",
    "0 0 refused 6 BadAmount
0 0 refused 14 NoScript
0 0 refused 4 NoTicket
0 1 idle
report
processor 1 quanta 0 idle 1 ticks 0 unused 1
total turns 4 quanta 0 ticks 0 refused 3 left 0
",
);

/// A thread that waits for good.
const STUCK: (&str, &str) = (
    "lottery 3\nquantum 10\nfor 50\nport p\nscript cli\ncall p\nendscript\nfundx 1 base c cli\n",
    "0 0 funded 1 1
0 1 draw 0.992 of 1 thread 1
1 1 thread 1 ticks 1 call 1 queued
1 1 idle
report
thread 1 c quanta 1 ticks 1 share 100% due 100% value 0% ready waits 1 mean 0 longest 0
processor 1 quanta 1 idle 1 ticks 1 unused 49
total turns 4 quanta 1 ticks 1 refused 0 left 0
",
);

/// A compensated thread.
const COMPENSATED: (&str, &str) = (
    "lottery 3\nquantum 9\nfor 12\nseed 5\nscript short\ncompute 2\nyield\nendscript\n\
    script long\ncompute 9\nendscript\nfundx 1 base a short\nfundx 1 base b long\nat 12\nlsthr\n",
    "0 0 funded 1 1
0 0 funded 2 2
0 1 draw 1.082 of 2 thread 2
9 1 thread 2 ticks 9 expire
9 1 draw 0.82 of 2 thread 1
12 0 lsthr 2
12 thread 1 a running 1 used 0 value 1 weight 1 quanta 1 ticks 0
12 thread 2 b ready value 1 weight 1 quanta 1 ticks 9
12 1 thread 1 ticks 3 yield
12 1 draw 3.257 of 4 thread 2
report
thread 1 a quanta 1 ticks 3 share 25% due 50% value 50% ready waits 1 mean 9 longest 9
thread 2 b quanta 2 ticks 9 share 75% due 50% value 50% ready waits 2 mean 1.5 longest 3
processor 1 quanta 3 idle 0 ticks 12 unused 0
total turns 8 quanta 3 ticks 12 refused 0 left 0
",
);

/// Two threads that wake at the same time, while both processors wait: `a` wakes first, since its number is lower,
/// though it went to sleep last. Then `a` sleeps to the last tick, and `b` past it.
const SLEEPERS: (&str, &str) = (
    "lottery 3\nprocessors 2\nquantum 10\nfor 30\nscript long\ncompute 4 sleep 10 compute 2 sleep 12\nendscript\n\
    script short\ncompute 1 sleep 13 compute 2 sleep 13\nendscript\nfundx 1 base a long\nfundx 1 base b short\n",
    "0 0 funded 1 1
0 0 funded 2 2
0 1 draw 1.992 of 2 thread 2
0 2 draw 0.054 of 1 thread 1
2 1 thread 2 ticks 2 sleep
2 1 idle
5 2 thread 1 ticks 5 sleep
5 1 idle
5 2 idle
15 3 wake thread 1
15 3 wake thread 2
15 1 draw 2.363 of 7 thread 2
15 2 draw 1.265 of 2 thread 1
18 1 thread 2 ticks 3 sleep
18 1 idle
18 2 thread 1 ticks 3 sleep
18 1 idle
18 2 idle
30 3 wake thread 1
30 1 draw 0.902 of 3.332 thread 1
30 2 idle
report
thread 1 a quanta 3 ticks 8 share 61.538% due 68.75% value 100% ready waits 3 mean 0 longest 0
thread 2 b quanta 2 ticks 5 share 38.461% due 31.25% value 0% ready waits 2 mean 0 longest 0
processor 1 quanta 3 idle 4 ticks 5 unused 25
processor 2 quanta 2 idle 3 ticks 8 unused 22
total turns 21 quanta 5 ticks 13 refused 0 left 0
",
);

/// A command and a wake at the last tick. The command comes first, and the woken thread takes part in the draw.
const LAST_TICK: (&str, &str) = (
    "lottery 3\nquantum 10\nfor 20\nscript nap\ncompute 4 sleep 15 compute 2\nendscript\nfundx 1 base a nap\n\
    at 20\nlsthr\n",
    "0 0 funded 1 1
0 1 draw 0.992 of 1 thread 1
5 1 thread 1 ticks 5 sleep
5 1 idle
20 0 lsthr 1
20 thread 1 a asleep value 0 weight 0 quanta 1 ticks 5
20 2 wake thread 1
20 1 draw 1.921 of 2 thread 1
report
thread 1 a quanta 2 ticks 5 share 100% due 100% value 100% ready waits 2 mean 0 longest 0
processor 1 quanta 2 idle 1 ticks 5 unused 15
total turns 7 quanta 2 ticks 5 refused 0 left 0
",
);

/// A thread that sleeps with a mutex. The thread that waits for it is worth 0 until the owner wakes, and then lends to
/// it.
const SLEEPING_OWNER: (&str, &str) = (
    "lottery 3\nquantum 10\nfor 60\nmutex m\nscript own\nlock m sleep 20 unlock m\nendscript\n\
    script wants\nlock m unlock m\nendscript\nscript spin\ncompute 25\nendscript\nfundx 1 base a own\nat 2\n\
    fundx 2 base b wants\nat 6\nfundx 1 base c spin\nlsthr\nat 23\nlsthr\n",
    "0 0 funded 1 1
0 1 draw 0.992 of 1 thread 1
1 1 thread 1 ticks 1 lock 1 taken
2 0 funded 2 2
2 1 thread 1 ticks 1 sleep
2 1 draw 1.281 of 2 thread 2
3 1 thread 2 ticks 1 lock 1 waits
3 1 idle
6 0 funded 3 3
6 0 lsthr 3
6 thread 1 a asleep value 0 weight 0 quanta 1 ticks 2
6 thread 2 b waiting 1 value 0 weight 0 quanta 1 ticks 1
6 thread 3 c ready value 1 weight 1 quanta 0 ticks 0
6 1 draw 0.363 of 1 thread 3
16 1 thread 3 ticks 10 expire
16 1 draw 0.738 of 1 thread 3
22 2 wake thread 1
23 0 lsthr 3
23 thread 1 a ready value 3 weight 15 quanta 1 ticks 2
23 thread 2 b waiting 1 value 2 weight 20 quanta 1 ticks 1
23 thread 3 c running 1 used 0 value 1 weight 1 quanta 2 ticks 10
26 1 thread 3 ticks 10 expire
26 1 draw 15.058 of 16 thread 3
32 1 thread 3 ticks 6 exit
32 1 draw 1.828 of 15 thread 1
33 1 thread 1 ticks 1 unlock 1 to 2 draw 0.316 of 2
33 1 draw 15.273 of 30 thread 2
34 1 thread 2 ticks 1 unlock 1 free
35 1 thread 2 ticks 1 exit
35 1 draw 6.929 of 10 thread 1
36 1 thread 1 ticks 1 exit
36 1 idle
report
thread 1 a quanta 3 ticks 4 share 12.121% due 36.868% value 0% ready waits 3 mean 4 longest 10 made 0 ended 36
thread 2 b quanta 2 ticks 3 share 9.09% due 7.07% value 0% \
ready waits 2 mean 0 longest 0 mutex waits 1 mean 30 longest 30 made 2 ended 35
thread 3 c quanta 3 ticks 26 share 78.787% due 56.06% value 0% ready waits 3 mean 0 longest 0 made 6 ended 32
processor 1 quanta 8 idle 2 ticks 33 unused 27
total turns 26 quanta 8 ticks 33 refused 0 left 0 ended 3 mean 31.666 longest 36
",
);

/// Reused numbers. Two sleepers are killed in their sleep, and each time the next thread has the number: it wakes at
/// its own time. The second's wake comes before the third sleeps, and is refused.
const NUMBERS_AGAIN: (&str, &str) = (
    "lottery 3\nquantum 10\nfor 60\nlimits 2 1 2\nreuse\nscript sleeper\nsleep 20\nendscript\n\
    script spin\ncompute 1000\nendscript\nfundx 1 base a sleeper\nat 3\nkill a\nunfund 1\nrmthr a\nrmtkt 1\n\
    fundx 2 base b sleeper\nfundx 1 base c spin\nfundx 1 base d spin\nat 21\nkill b\nunfund 1\nrmthr b\nrmtkt 1\n\
    fundx 5 base d sleeper\nlsthr\nat 40\nlsthr\n",
    "0 0 funded 1 1
0 1 draw 0.992 of 1 thread 1
1 1 thread 1 ticks 1 sleep
1 1 idle
3 0 done
3 0 done
3 0 done
3 0 done
3 0 funded 1 1
3 0 funded 2 2
3 0 refused 13 Full
3 1 draw 1.921 of 3 thread 1
4 1 thread 1 ticks 1 sleep
4 1 draw 0.363 of 1 thread 2
14 1 thread 2 ticks 10 expire
14 1 draw 0.738 of 1 thread 2
21 0 done
21 0 done
21 0 done
21 0 done
21 0 funded 1 1
21 0 lsthr 2
21 thread 1 d ready value 5 weight 5 quanta 0 ticks 0
21 thread 2 c running 1 used 0 value 1 weight 1 quanta 2 ticks 10
24 2 refused 24 NotAsleep
24 1 thread 2 ticks 10 expire
24 1 draw 1.058 of 6 thread 1
25 1 thread 1 ticks 1 sleep
25 1 draw 0.828 of 1 thread 2
35 1 thread 2 ticks 10 expire
35 1 draw 0.316 of 1 thread 2
40 0 lsthr 2
40 thread 1 d asleep value 0 weight 0 quanta 1 ticks 1
40 thread 2 c running 1 used 0 value 1 weight 1 quanta 4 ticks 30
45 2 wake thread 1
45 1 thread 2 ticks 10 expire
45 1 draw 6.273 of 51 thread 1
46 1 thread 1 ticks 1 exit
46 1 draw 0.316 of 1 thread 2
56 1 thread 2 ticks 10 expire
56 1 draw 0.929 of 1 thread 2
report
thread 1 d quanta 2 ticks 2 share 3.703% due 7.716% value 0% ready waits 2 mean 1.5 longest 3 made 21 ended 46
thread 2 c quanta 6 ticks 50 share 92.592% due 89.197% value 100% ready waits 6 mean 0.5 longest 1 made 3
processor 1 quanta 10 idle 1 ticks 54 unused 2
total turns 37 quanta 10 ticks 54 refused 2 left 0 ended 3 mean 15.333 longest 25
",
);

pub(crate) const TURNS_IN_TIME: &[(&str, &str)] = &[
    IDLE,
    SPINNERS,
    LATER,
    TIES,
    TWO_PROCESSORS,
    CALLS,
    SERVING,
    MUTEXES,
    THIRDS,
    REFUSED,
    STUCK,
    COMPENSATED,
];

/// Inputs of threads that sleep. The outputs are computed by a small model of the rules.
pub(crate) const SLEEPERS_IN_TIME: &[(&str, &str)] = &[
    SLEEPERS,
    LAST_TICK,
    SLEEPING_OWNER,
    NUMBERS_AGAIN,
];

pub(crate) const REFUSED_SLEEPS: &[(&str, &str)] = &[
    (
        "lottery 1\nscript s\nsleep 5\n",
        "refused line 3 51 BadLine\n",
    ),
    (
        "lottery 2\nscript s\nsleep 5\n",
        "refused line 3 51 BadLine\n",
    ),
    (
        "lottery 3\nfor 5\nscript s\nsleep\n",
        "refused line 4 51 BadLine\n",
    ),
    (
        "lottery 3\nfor 5\nscript s\nsleep 0\n",
        "refused line 4 52 BadNumber\n",
    ),
    (
        "lottery 3\nfor 5\nscript s\nsleep 4294967296\n",
        "refused line 4 52 BadNumber\n",
    ),
];
