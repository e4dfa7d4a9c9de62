//! Plays with warnings, and the words of these.
use super::{check_said, words_of};
use crate::tests::same::check_same_at;
use lot_io::Watched;
use lot_simulation::Warnings;
use lot_system::play_bytes;
use std::alloc::Global;
use std::process::Abort;

/// The warnings of the input, which is played to its end.
fn warned(rt: &impl Abort, alloc: Global, input: &str) -> Warnings {
    let mut warnings = Warnings::none(alloc).expect(rt, "memory");
    let mut writer = Watched::new(Vec::new(alloc));
    let is_played = play_bytes(alloc, input.as_bytes(), &mut warnings, &mut writer).is_ok();
    check_same_at(rt, &input, &is_played, &true);
    warnings
}

/// The words of the input's warnings.
fn words_after(rt: &impl Abort, alloc: Global, input: &str) -> Vec<u8> {
    let warnings = warned(rt, alloc, input);
    words_of(alloc, &warnings, input).expect(rt, "words")
}

/// Plays the input, and compares the words of its warnings.
fn check<H: Abort>(rt: &H, alloc: Global, input: &str, expected: &str) {
    let words = words_after(rt, alloc, input);
    check_said(rt, words.as_slice(), expected)
}

/// An input, and the words.
type Row = (&'static str, &'static str);

/// Checks each of these inputs.
fn check_all<H: Abort>(rt: &H, alloc: Global, rows: &[Row]) {
    for (input, expected) in rows {
        check(rt, alloc, input, expected);
    }
}

/// Checks, for each row, a timed input of the commands before its arrow, with a script `spin` and a script `stop`. The
/// words stand behind the arrow.
fn check_commands<H: Abort>(rt: &H, alloc: Global, rows: &[&str]) {
    for row in rows {
        let (commands, expected) = row.split_once(" -> ").unwrap_or((*row, ""));
        let input = format!(in alloc;
            "lottery 3\nfor 9\nscript spin\ncompute 99 endscript\nscript stop\nendscript\n{commands}"
        );
        let input = input.expect(rt, "memory");
        check(rt, alloc, input.as_str(), expected);
    }
}

/// Lines 1 to 6 are the header and the scripts.
const UNKNOWN_NAMES: &[&str] = &[
    "mkcur alice\nmktkt 5 base\nfund 1 alcie\n -> \
    line 9: the command was refused: no currency and no thread has the name 'alcie'; did you mean 'alice'?\n",
    "fundx 1 base mallory spin\nmktkt 5 base\nfund 2 malory\n -> \
    line 9: the command was refused: no currency and no thread has the name 'malory'; did you mean 'mallory'?\n",
    "mkcur group\nmktkt 5 groop\n -> \
    line 8: the command was refused: no currency has the name 'groop'; did you mean 'group'?\n",
    "mktkt 5 bass\n -> line 7: the command was refused: no currency has the name 'bass'; did you mean 'base'?\n",
    "fundx 5 bse a spin\n -> line 7: the command was refused: no currency has the name 'bse'; did you mean 'base'?\n",
    "fundx 1 base worker spin\nkill workers\n -> \
    line 8: the command was refused: no thread has the name 'workers'; did you mean 'worker'?\n",
    "fundx 1 base a spin\nmkthr b spinn\n -> \
    line 8: the command was refused: no script of an earlier line has the name 'spinn'; did you mean 'spin'?\n",
];

/// A currency is no thread, and a thread no currency, so neither is suggested for the other. Base can't be funded.
const NO_NAME_IS_NEAR: &[&str] = &[
    "mkcur alice\nmktkt 5 base\nfund 1 bob\n -> \
    line 9: the command was refused: no currency and no thread has the name 'bob'\n",
    "mkcur alice\nkill alicf\n -> line 8: the command was refused: no thread has the name 'alicf'\n",
    "fundx 1 base alice spin\nrmcur alicf\n -> line 8: the command was refused: no currency has the name 'alicf'\n",
    "mktkt 5 base\nfund 1 bas\n -> line 8: the command was refused: no currency and no thread has the name 'bas'\n",
    "fundx 1 base b spin\nkill a\n -> line 8: the command was refused: no thread has the name 'a'\n",
];

/// Thread `alice` ends at its first tick. The name of a removed thread, or one given by a later line, is no
/// misspelling.
const NAMES_OF_ANOTHER_TIME: &[&str] = &[
    "fundx 1 base alice stop\nmkcur alicf\nat 5\nunfund 1\nrmthr alice\nrmthr alice\n -> \
    line 12: the command was refused: no thread has the name 'alice'\n",
    "mktkt 5 base\nfund 1 alice\nmkcur alice\nmkcur alicf\n -> \
    line 8: the command was refused: no currency and no thread has the name 'alice'\n",
    "mkthr a late\nscript late\nendscript\n -> \
    line 7: the command was refused: no script of an earlier line has the name 'late'\n",
];

const WORDS_THAT_ARE_THE_CAUSE: &[&str] = &[
    "mkcur alice\nmkthr alice spin\n -> \
    line 8: the command was refused: a currency or a thread already has the name 'alice'\n",
    "fundx 5 base Alice spin\n -> \
    line 7: the command was refused: a name is a letter a to z, and then letters a to z, digits, '_' or '-', and not \
    'Alice'\n",
    "rmtkt 7\n -> line 7: the command was refused: no ticket has the number 7\n",
    "mktkt 0 base\n -> line 7: the command was refused: an amount is a number from 1 to 4294967295, and not 0\n",
    "mktkt 1 base\nsettkt 1 4294967296\n -> \
    line 8: the command was refused: an amount is a number from 1 to 4294967295, and not 4294967296\n",
    "mktkt 1 base\nunfund 1\n -> line 8: the command was refused: the ticket funds nothing\n",
];

/// Base's ticket of 1 has 256 units of value, of which a's part is 256 / 4294967296.
const THREADS_THAT_WEIGH_NOTHING: &[&str] = &[
    "mkthr a spin\n -> thread 'a' is ready at the end and weighs nothing: it wins no draw before something funds it\n",
    "mkcur x\nfundx 5 x a spin\n -> \
    thread 'a' is ready at the end and weighs nothing: it wins no draw before something funds its currency 'x'\n",
    "mkcur x\nmkcur y\nmktkt 5 x\nfund 1 y\nfundx 5 y a spin\n -> \
    thread 'a' is ready at the end and weighs nothing: it wins no draw before something funds its currency 'x'\n",
    "mkcur x\nmktkt 1 base\nfund 1 x\nfundx 5 x a spin\nunfund 1\n -> \
    thread 'a' is ready at the end and weighs nothing: it wins no draw before something funds its currency 'x'\n",
    "mkcur x\nmktkt 1 base\nfund 1 x\nfundx 1 x a spin\nfundx 4294967295 x b spin\n -> \
    thread 'a' is ready at the end and weighs nothing: it is funded, but its value rounds to 0\n",
];

/// Ticket 1 of `base` is worth 1, and each thread has half of it.
const ROUNDED: Row = (
    "lottery 1\nscript s\ncompute 5\nendscript\nmkcur x\nmktkt 1 base\nfund 1 x\nfundx 1000 x a s\n\
    fundx 1000 x b s\nschedule 0 0 0 0 0\n",
    "thread 'a' is ready at the end and weighs nothing: it is funded, but its value rounds to 0
thread 'b' is ready at the end and weighs nothing: it is funded, but its value rounds to 0
",
);

/// A command at the end of the run is made, and none after it.
const TIMES_AFTER_THE_END: &[&str] = &[
    "fundx 1 base a spin\nat 9\nmkcur b\nat 10\nmkcur c\n -> \
    line 11: this command was never made: tick 10 is after the end of the run at 9\n",
    "fundx 1 base a spin\nat 5000\nmkcur c\nat 6000\nmkcur d\n -> \
    line 9: this command and those after it, 2 in all, were never made: tick 5000 is after the end of the run at 9\n",
];

const LIMITS: &[Row] = &[
    (
        "lottery 1\nlimits 2 1 1\nmkcur a\nmkcur b\nschedule 0 0\n",
        "line 4: the command was refused: there are as many currencies as CURRENCIES allows in the header's 'limits \
         TICKETS CURRENCIES THREADS', 1\n",
    ),
    (
        "lottery 2\nlimits 2 1 1\nmktkt 1 base\nmktkt 1 base\nmktkt 1 base\nschedule 0 0 0\n",
        "line 5: the command was refused: there are as many tickets as TICKETS allows in the header's 'limits TICKETS \
         CURRENCIES THREADS', 2\n",
    ),
    (
        "lottery 3\nfor 300\nlimits 5 1 1\nscript s\nendscript\nfundx 1 base a s\nfundx 1 base b s\n",
        "line 7: the command was refused: there are as many threads as THREADS allows in the header's 'limits TICKETS \
         CURRENCIES THREADS', 1; removed ones count too, unless the header has 'reuse'\n",
    ),
    (
        "lottery 3\nfor 300\nlimits 1 1 5\nscript s\nendscript\nfundx 0 base a s\nfundx 1 base a s\nfundx 1 base b s\n",
        "line 6: the command was refused: an amount is a number from 1 to 4294967295, and not 0
line 8: the command was refused: there are as many tickets as TICKETS allows in the header's 'limits TICKETS \
         CURRENCIES THREADS', 1; removed ones count too, unless the header has 'reuse'\n",
    ),
    (
        "lottery 3\nfor 300\nreuse\nlimits 5 1 1\nscript s\nendscript\nfundx 1 base a s\nat 9\nunfund 1\nrmthr a\n\
         fundx 1 base b s\nfundx 1 base c s\n",
        "line 12: the command was refused: there are as many threads as THREADS allows in the header's 'limits TICKETS \
         CURRENCIES THREADS', 1\n",
    ),
];

const TICKETS_BY_NAME: &[&str] = &[
    "mktkt 5 base as gift\nrmtkt gift\nrmtkt gift\n -> \
    line 9: the command was refused: no ticket has the name 'gift' now\n",
    "mktkt 0 base as gift\nfund gift base\n -> \
    line 7: the command was refused: an amount is a number from 1 to 4294967295, and not 0\n\
    line 8: the command was refused: no ticket has the name 'gift' now\n",
    "mktkt 5 base as gift\nunfund gift\n -> line 8: the command was refused: the ticket funds nothing\n",
];

/// The second command is refused, so the third is never made.
const STRICT: &str = "lottery 3\nfor 9\nstrict\nmktkt 5 base\nfund 1 alice\nmkcur alice\n";

/// Thread `a` unlocks a mutex that it doesn't own.
const STRICT_TRAP: &str =
    "lottery 3\nfor 9\nstrict\nmutex m\nscript unlocks\nunlock m yield endscript\nfundx 5 base a unlocks\n";

/// The last turn is refused, and the command after it comes after the end.
const STRICT_AND_LATE: &str =
    "lottery 3\nfor 5\nstrict\nscript s\ncompute 900 endscript\nfundx 1 base a s\nat 3\nrmcur base\nat 6\nlstkt\n";

/// After the refusal come a command up to the end of the run and two after it.
const STRICT_AND_BOTH: &str =
    "lottery 3\nfor 9\nstrict\nrmtkt 1\nmkcur a\nat 10\nmkcur b\nmkcur c\n";

const STRICT_INPUTS: &[Row] = &[
    (
        STRICT,
        "the run ended at tick 0 of 9: the input is strict, and turn 2 was refused
line 5: the command was refused: no currency and no thread has the name 'alice'
line 6: this command was never made: the refusal ended the run
",
    ),
    (
        STRICT_TRAP,
        "the run ended at tick 1 of 9: the input is strict, and turn 3 was refused
line 6: 'unlock m' in script 'unlocks' was refused to thread 'a' once: the thread doesn't own the mutex
",
    ),
    (
        STRICT_AND_LATE,
        "line 8: the command was refused: base can't be removed, and nothing can fund it
line 10: this command was never made: tick 6 is after the end of the run at 5
",
    ),
    (
        STRICT_AND_BOTH,
        "the run ended at tick 0 of 9: the input is strict, and turn 1 was refused
line 4: the command was refused: no ticket has the number 1
line 5: this command was never made: the refusal ended the run
line 7: this command and those after it, 2 in all, were never made: tick 10 is after the end of the run at 9
",
    ),
];

/// No thread serves at port `print`, the second. Thread `own` ends with mutex `gate`, the second, and with the client
/// `ask`, whose call at port `mail` it took.
const WAITING: &str =
    "lottery 3\nfor 99\n# port paper\nport mail\nmutex door\nport print\nmutex gate\n\
    script owner\nlock gate receive mail\nendscript\nscript asks\nlock door call mail\nendscript\n\
    script prints\ncall print\nendscript\nscript enters\nyield sleep 20 lock gate\nendscript\n\
    script knocks\nyield sleep 20 lock door\nendscript\nfundx 9 base own owner\nfundx 1 base ask asks\n\
    fundx 1 base sheet prints\nfundx 1 base guest enters\nfundx 1 base late knocks\n";

/// While `a` sleeps with mutex `m`, `b` takes `n` and waits for `m`. So `a` would wait for a thread that waits for it.
const DEADLOCK: &str = "lottery 3\nfor 99\nmutex m\nmutex n\n\
    script sleeps\nlock m sleep 20\nloop 3 lock n end\nunlock n unlock m\nendscript\n\
    script waits\nlock n lock m\nunlock m unlock n\nendscript\nfundx 1 base a sleeps\nat 5\nfundx 1 base b waits\n";

/// Thread `b` calls `a` while it owns mutex `m`, so `a` would wait for its own client.
const DEADLOCK_OF_A_SERVER: &str = "lottery 2\nport p\nmutex m\n\
    script serves\nreceive p\nlock m\nlock m\n# lock m\nset 5\nlock m\nreply\nreply\nendscript\n\
    script calls\nlock m\ncall p\nendscript\nfundx 1 base a serves\nfundx 1 base b calls\n\
    schedule 0 1 1 0 1 1 1 1 1 1 1 1 1 1 1 1\n";

/// Each thread has four traps refused.
const MANY: &str =
    "lottery 3\nfor 99\nport p\nmutex m\nscript all\nreply serve p unlock m\nlock m lock m unlock m\nendscript\n\
    fundx 1 base a all\nat 20\nfundx 1 base b all\nat 40\nfundx 1 base c all\n";

/// The second thread has the number and the name of the first, and another script.
const AGAIN: &str = "lottery 3\nfor 50\nreuse\nmutex m\nscript once\nunlock m\nendscript\n\
    script twice\nunlock m unlock m\nendscript\nfundx 1 base a once\nat 10\nunfund 1\nrmthr a\n\
    fundx 1 base a twice\n";

/// Thread `own` has ended with mutex `m`, for which `guest` waits, while `spin` runs.
const WAITING_BESIDE_A_SPINNER: &str =
    "lottery 3\nfor 300\nquantum 10\nmutex m\nscript o\nlock m endscript\nscript g\nlock m compute 900 endscript\n\
    script s\ncompute 900 endscript\nfundx 9 base own o\nat 3\nfundx 1 base guest g\nfundx 1 base spin s\n";

/// The warnings list eight of the twelve refused traps of `MANY`. For `AGAIN` they can't tell which script thread `a`
/// ran.
const WAITS_AND_REFUSED_TRAPS: &[Row] = &[
    (
        WAITING_BESIDE_A_SPINNER,
        "thread 'guest' waits for good for mutex 'm', whose owner, thread 'own', has ended\n",
    ),
    (
        WAITING,
        "thread 'ask' waits for good for a reply of thread 'own'
thread 'sheet' waits for good for a server at port 'print'
thread 'guest' waits for good for mutex 'gate', whose owner, thread 'own', has ended
thread 'late' waits for good for mutex 'door', which thread 'ask' owns
",
    ),
    (
        DEADLOCK,
        "line 7: 'lock n' in script 'sleeps' was refused to thread 'a' 3 times: waiting would deadlock, since \
         the mutex's owner waits for this thread, directly or through others
line 8: 'unlock n' in script 'sleeps' was refused to thread 'a' once: the thread doesn't own the mutex
",
    ),
    (
        DEADLOCK_OF_A_SERVER,
        "line 6: 'lock m' in script 'serves' (here or in 2 more lines) was refused to thread 'a' 3 times: \
         waiting would deadlock, since the mutex's owner waits for this thread, directly or through others
line 11: 'reply' in script 'serves' (here or in 1 more line) was refused to thread 'a' once: the thread serves no client
",
    ),
    (
        MANY,
        "line 6: 'reply' in script 'all' was refused to thread 'a' once: the thread serves no client
line 6: 'serve p' in script 'all' was refused to thread 'a' once: the thread serves no client
line 6: 'unlock m' in script 'all' (here or in 1 more line) was refused to thread 'a' once: the thread doesn't own \
         the mutex
line 7: 'lock m' in script 'all' was refused to thread 'a' once: the thread owns the mutex already
line 6: 'reply' in script 'all' was refused to thread 'b' once: the thread serves no client
line 6: 'serve p' in script 'all' was refused to thread 'b' once: the thread serves no client
line 6: 'unlock m' in script 'all' (here or in 1 more line) was refused to thread 'b' once: the thread doesn't own \
         the mutex
line 7: 'lock m' in script 'all' was refused to thread 'b' once: the thread owns the mutex already
and 4 more traps that were refused
",
    ),
    (
        AGAIN,
        "'unlock m' was refused to thread 'a' once: the thread doesn't own the mutex
'unlock m' was refused to thread 'a' 2 times: the thread doesn't own the mutex
",
    ),
];

/// Rows of commands.
const COMMANDS: &[&[&str]] = &[
    UNKNOWN_NAMES,
    NO_NAME_IS_NEAR,
    NAMES_OF_ANOTHER_TIME,
    WORDS_THAT_ARE_THE_CAUSE,
    THREADS_THAT_WEIGH_NOTHING,
    TIMES_AFTER_THE_END,
    TICKETS_BY_NAME,
];

/// Rows of whole inputs.
const INPUTS: &[&[Row]] = &[&[ROUNDED], LIMITS, STRICT_INPUTS, WAITS_AND_REFUSED_TRAPS];

#[test]
fn warnings(rt: HostRuntime) {
    for rows in COMMANDS {
        check_commands(&rt, rt.alloc(), rows);
    }
    for rows in INPUTS {
        check_all(&rt, rt.alloc(), rows);
    }
}
