//! The program `shextool`: the machine's files and streams, handed to the top call.
#![tactic(auto)]

use shex_io::{DiskFiles, StdSink};
use shex_tools::run_tool;
use std::env;
use std::io::ErrorKind;
use std::process::ExitCode;

fn main(rt: HostRuntime) -> ExitCode {
    let args = match env::args(&rt) {
        Ok(args) => args,
        Err(error) if error.kind() == ErrorKind::OutOfMemory => return ExitCode::from(8),
        // A word that is no UTF-8 is no word of a command, so the call is refused as one without words is.
        Err(_) => Vec::new(rt.alloc()).into_iter(),
    };
    let Ok(words) = args.skip(1).collect::<Vec<String>>(rt.alloc()) else {
        return ExitCode::from(8);
    };
    let mut files = DiskFiles::new(rt.alloc(), &rt);
    let mut out = StdSink::new(rt.stdout());
    let mut err = StdSink::new(rt.stderr());
    ExitCode::from(run_tool(rt.alloc(), words.as_slice(), &mut files, &mut out, &mut err))
}
