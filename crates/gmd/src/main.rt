//! A Gearman job server. `gmd --help` says what it can be asked for.
#![tactic(auto)]

use gm_options::arguments;
use gm_server::run_words;
use std::fs::File;
use std::os::fd::AsRawFd;
use std::process::ExitCode;

/// Opens the null device in place of each standard stream that is closed, until this is dropped. A connection would get
/// the stream's number otherwise, and a client would read what is written to standard error.
fn replace_closed_streams(rt: &HostRuntime) -> [Option<File>; 3] {
    let mut opened = [None, None, None];
    for place in &mut opened {
        match File::open(rt, "/dev/null") {
            Ok(file) if file.as_raw_fd() <= 2 => *place = Some(file),
            _ => break,
        }
    }
    opened
}

fn main(rt: HostRuntime) -> ExitCode {
    let _streams = replace_closed_streams(&rt);
    match arguments(&rt) {
        Ok(words) => ExitCode::from(run_words(&rt, &words, &mut rt.stdout())),
        Err(error) => {
            let text = error.text();
            // A failure of standard error is ignored.
            let _ = eprintln!(rt; "gmd: {text}");
            ExitCode::from(error.status())
        }
    }
}
