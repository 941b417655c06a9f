//! The program `schc`: the words after its name, the host's files and its standard streams go to the
//! one call that does everything.
#![tactic(auto)]

use sch_cli::{report_words, schc};
use sch_io::{HostDisk, StdOutlet};
use std::process::ExitCode;
use std::rt::Env;
use std::{env, io};

fn main(rt: HostRuntime) -> ExitCode {
    let mut disk = HostDisk::new(&rt);
    let mut out = StdOutlet::new(rt.stdout());
    let mut err = StdOutlet::new(rt.stderr());
    let status = match words(&rt) {
        Ok(words) => schc(rt.alloc(), words.as_slice(), &mut disk, &mut out, &mut err),
        Err(error) => report_words(&error, &mut err),
    };
    ExitCode::from(status)
}

// The words after the program's name.
fn words(rt: &(impl Env + AllocGlobal)) -> io::Result<Vec<String>> {
    let mut all = env::args(rt)?;
    let _name = all.next();
    let mut words = Vec::new(rt.alloc());
    for word in all {
        words.push(word)?;
    }
    Ok(words)
}
