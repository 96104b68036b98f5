//! The engine in a program of one's own: `./demo` runs it.
//!
//! A store is made in a folder, and scripts are played on it, each by one call of `pbxt_run`: the words of a command line, an
//! input of lines, and a site, which is where the files lie and where replies are told. That is all that a program needs.
//! The folder is the first argument, `beqtalu-demo` where there is none. It may not have a store yet.
//!
//! - `scenes`: what is played, with a sentence on each.
//! - `conversation`: the input, which shows each line as it is read, so that its reply stands beside it.
#![tactic(auto)]

mod conversation;
mod scenes;

use conversation::Conversation;
use px_calls::Status;
use px_model::{Bytes, WordList};
use px_realsite::RealSite;
use px_run::pbxt_run;
use scenes::{SCENES, Scene};
use std::alloc::{AllocError, Global};
use std::env;
use std::process::ExitCode;

/// Where the store's files lie if no argument says so.
const FOLDER: &str = "beqtalu-demo";

fn main(rt: HostRuntime) -> anyhow::Result<ExitCode> {
    let mut words = env::args(&rt)?;
    let _program = words.next();
    match words.next() {
        Some(folder) => play_all(&rt, folder.as_str()),
        None => play_all(&rt, FOLDER),
    }
}

/// Plays the scenes one after the other, each on the store that the one before it left. The first that isn't done ends it.
fn play_all(rt: &HostRuntime, folder: &str) -> anyhow::Result<ExitCode> {
    for scene in SCENES {
        match play(rt, folder, &scene)? {
            Status::Done => {}
            _ => return Ok(ExitCode::FAILURE),
        }
    }
    Ok(ExitCode::SUCCESS)
}

/// Opens the folder anew, as another process would, and calls the engine once.
fn play(rt: &HostRuntime, folder: &str, scene: &Scene) -> anyhow::Result<Status> {
    println!(rt; "\n{}\n\n$ pbxt {}", scene.about, scene.command)?;
    let words = words_of(rt.alloc(), scene.command)?;
    let mut source = Conversation::new(rt.clone()?, scene.lines.as_bytes());
    let mut site = RealSite::new(rt.clone()?, folder)?;
    Ok(pbxt_run(rt.alloc(), &words, &mut source, &mut site))
}

/// The words of a command line, which spaces part.
fn words_of(alloc: Global, line: &str) -> Result<WordList, AllocError> {
    let mut words = Vec::new(alloc);
    for word in line.split(' ') {
        words.push(Bytes::from_slice(alloc, word.as_bytes())?)?;
    }
    Ok(WordList::from_vec(words))
}
