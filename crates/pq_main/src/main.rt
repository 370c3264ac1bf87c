//! The program: its words, standard input, standard output and standard error are handed to the top call.
#![tactic(auto)]

use pq_rewrite::{NoView, StdSink, StdSource, run};
use schema_fb::FlatCodec;
use std::env;
use std::process::ExitCode;

/// The words after the program's name; none where they are not all text, or there is no memory for them.
fn words(rt: &HostRuntime) -> Option<Vec<String>> {
    let mut words = Vec::new(rt.alloc());
    let mut args = env::args(rt).ok()?;
    args.next();
    for arg in args {
        words.push(arg).ok()?;
    }
    Some(words)
}

fn main(rt: HostRuntime) -> ExitCode {
    let mut source = StdSource::new(rt.stdin());
    let mut sink = StdSink::new(rt.stdout());
    let mut notes = StdSink::new(rt.stderr());
    let codec = FlatCodec;
    let mut view = NoView;
    let status = match words(&rt) {
        Some(words) => run(
            rt.alloc(),
            &words,
            &mut source,
            &mut sink,
            &mut notes,
            &codec,
            &mut view,
        ),
        None => {
            // Words that are not text are in no form.
            let bad = [String::new(rt.alloc())];
            run(
                rt.alloc(),
                &bad,
                &mut source,
                &mut sink,
                &mut notes,
                &codec,
                &mut view,
            )
        }
    };
    ExitCode::from(status)
}
