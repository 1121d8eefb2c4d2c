//! The program: standard input is the script, standard output takes the replies, standard error
//! takes the text of a fault, and the exit status says how the run ended.
//!
//! It stands on `world_play`, whose one call does the whole run. This layer makes the real source
//! and sink for it, which count their faults and tell what the reader and the writer beneath them
//! tell. Replies are put one by one, and a buffer of the kit gathers them, so that a reply costs no
//! call of the system. `program` is the whole run over any source, any writer and any sink for the
//! text of a fault; `main` names those of the system.
#![tactic(auto)]

mod arguments;
mod program;
mod std_sink;
mod std_source;
mod steady;
#[cfg(test)]
mod tests;

use std::io;
use std::io::BufWriter;
use std::process::ExitCode;
use std_sink::StdSink;
use std_source::StdSource;
use world_play::Status;

fn main(rt: HostRuntime) -> ExitCode {
    let mut err = StdSink::new(rt.stderr());
    let words = arguments::words(&rt);
    let code = match (words, BufWriter::new(rt.alloc(), io::writer(&rt))) {
        (Ok(words), Ok(out)) => {
            let mut script = StdSource::new(rt.stdin());
            let mut out = StdSink::new(out);
            let words = arguments::behind_name(words.as_slice());
            let finished = program::program(
                &rt,
                rt.alloc(),
                words,
                &mut script,
                &mut out,
                &mut err,
            );
            finished.exit.code
        }
        (Err(status), _) => program::end(rt.alloc(), &status, &mut err).code,
        (Ok(_), Err(_)) => program::end(rt.alloc(), &Status::Memory, &mut err).code,
    };
    ExitCode::from(code)
}
