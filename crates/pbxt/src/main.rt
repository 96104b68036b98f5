//! The program: the words of its command line, standard input, and a store in the folder `pbxt-store` of the folder that it
//! runs in (docs/FORMATS.md). What it does is `pbxt_run`'s contract; its exit status is the status's code. Where the system
//! refused something, a line on standard error says what and why.
#![tactic(auto)]

use px_calls::Status;
use px_model::{Bytes, WordList};
use px_realsite::RealSite;
use px_run::pbxt_run;
use px_source::StdinSource;
use std::alloc::AllocError;
use std::env;
use std::io::{self, ErrorKind};
use std::process::ExitCode;

/// Where the store's files lie.
const FOLDER: &str = "pbxt-store";

fn main(rt: HostRuntime) -> ExitCode {
    let status = match run(&rt) {
        Ok(status) => status,
        Err(_) => Status::OutOfMemory,
    };
    ExitCode::from(status.code())
}

/// Fails only for want of memory, before anything is done.
fn run(rt: &HostRuntime) -> Result<Status, AllocError> {
    let words = words_of(rt)?;
    let mut source = StdinSource::new(rt.clone()?);
    let mut site = RealSite::new(rt.clone()?, FOLDER)?;
    let status = pbxt_run(rt.alloc(), &words, &mut source, &mut site);
    match status {
        Status::DiskFault(_) => tell_refusal(rt, &site),
        Status::SourceFault => tell_stream(rt, "standard input", source.refusal()),
        Status::OutputFault => tell_stream(rt, "standard output", site.tell_refusal()),
        _ => {}
    }
    Ok(status)
}

/// Says which file the system refused, and why. Where that can't be said either, the status has to do.
fn tell_refusal(rt: &HostRuntime, site: &RealSite<HostRuntime>) {
    if let Ok(Some(refusal)) = site.refusal() {
        let _ = eprintln!(rt; "pbxt: {refusal}");
    }
}

/// Says why a stream was refused.
fn tell_stream(rt: &HostRuntime, stream: &str, refusal: Option<io::Error>) {
    if let Some(error) = refusal {
        let _ = eprintln!(rt; "pbxt: {stream}: {error}");
    }
}

/// The words of the command line, without the program's name. Where one is no text, no word: they are no command.
fn words_of(rt: &HostRuntime) -> Result<WordList, AllocError> {
    let mut words = Vec::new(rt.alloc());
    match env::args(rt) {
        Ok(args) => {
            for word in args.skip(1) {
                words.push(Bytes::from_vec(word.into_bytes()))?;
            }
        }
        Err(error) if error.kind() == ErrorKind::OutOfMemory => return Err(AllocError),
        Err(_) => {}
    }
    Ok(WordList::from_vec(words))
}
