//! `lot_sim play` reads an input from a file or from standard input and writes the lines and the report of its turns;
//! `lot_sim run` lets workers make its turns, and writes the report and a schedule that reproduces them; `lot_sim
//! explain` also writes the entrants of each won lottery; `lot_sim shares` and `lot_sim chart` write each thread's
//! ticks or draws over time, as a table and as a picture.
#![tactic(auto)]

use lot_command::{Inputs, status, unread_status};
use std::fs::File;
use std::io::StdinLock;
use std::process::ExitCode;
use std::{env, fs, io};

/// The inputs that the system has.
#[derive(Drop)]
struct SystemInputs<'a> {
    rt: &'a HostRuntime,
}

impl<'a> Inputs for SystemInputs<'a> {
    type Standard = StdinLock<'a>;

    type File = File;

    fn standard(self) -> StdinLock<'a> {
        self.rt.reader()
    }

    fn open(self, name: &str) -> io::Result<File> {
        fs::open(self.rt, name)
    }
}

fn main(rt: HostRuntime) -> ExitCode {
    let code = match env::args(&rt) {
        Ok(args) => match args.collect::<Vec<String>>(rt.alloc()) {
            Ok(words) => status(
                &rt,
                rt.alloc(),
                words.as_slice(),
                SystemInputs { rt: &rt },
                io::writer(&rt),
                rt.stderr(),
            ),
            Err(error) => unread_status(&io::Error::from(error), rt.stderr()),
        },
        Err(error) => unread_status(&error, rt.stderr()),
    };
    ExitCode::from(code)
}
