//! The kernel that README shows, embedded.
use lot_kernel::{Command, Event, Kernel, Limits, Name, Reply, Sizes};
use lot_machine::CurrencyRef;
use std::alloc::Global;
use std::process::Abort;

fn first_winner(rt: &impl Abort, alloc: Global) -> Reply {
    let limits = Limits::new(Sizes {
        tickets: 64,
        currencies: 16,
        threads: 16,
        ports: 0,
        mutexes: 0,
        processors: 1,
        scripts: 1,
        quantum: 100,
        unit: 1,
        reuse: false,
        plain_names: false,
        without_compensation: false,
        without_lending: false,
        queued_lend: false,
    });
    let limits = limits.expect(rt, "limits");
    let mut kernel = Kernel::new(alloc, limits).expect(rt, "memory");
    for (name, amount) in [("first", 10), ("second", 5)] {
        let command = Command::MakeFunded {
            amount,
            currency: CurrencyRef::Named(Name::new("base").expect(rt, "a name")),
            name: Name::new(name).expect(rt, "a name"),
            script: 1,
        };
        kernel.event(&Event::Command(command));
    }
    // Number 9 of 15 is the first thread's: it has 0 to 9.
    kernel.event(&Event::Draw(1, 9))
}

#[test]
fn an_embedded_kernel(rt: HostRuntime) {
    let reply = first_winner(&rt, rt.alloc());
    assert!(rt;
        matches!(
            reply,
            Reply::Winner {
                thread: 1,
                number: 9,
                total: 15,
                ..
            }
        )
    );
}
