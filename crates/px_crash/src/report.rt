// The table, and its last line.

use crate::change::Change;
use crate::moments::Progress;
use crate::outcomes::{Outcomes, count_of};
use crate::trial::Trial;
use std::alloc::{AllocError, Global};
use std::process::ExitCode;
use std::str::Lines;

/// The most outcomes that are tried of one script: some seconds' work.
const MOST_OUTCOMES: u64 = 5_000;

/// Stops the run at each moment, tells a line for each, and then how it went.
pub(crate) fn report(rt: &HostRuntime, trial: &Trial) -> anyhow::Result<ExitCode> {
    let count = count_outcomes(rt.alloc(), trial)?;
    if count > MOST_OUTCOMES {
        println!(rt;
            "{count} outcomes are too many to be tried: give a shorter script, or commit more often"
        )?;
        return Ok(ExitCode::FAILURE);
    }
    let mut outcomes = Outcomes::new(rt.alloc());
    println!(rt;
        "{:<39} {:<7} {:<32} {:>8}  commits found",
        "the run, call by call", "stopped", "told last", "outcomes"
    )?;
    tell_calls(rt, trial, &mut outcomes)?;
    let (tried, lost) = (outcomes.tried, outcomes.lost);
    if lost > 0 {
        println!(rt;
            "\n{tried} outcomes were tried: {lost} lost an acknowledged commit, or have other rows."
        )?;
        return Ok(ExitCode::FAILURE);
    }
    println!(rt;
        "\n{tried} outcomes were tried: none lost an acknowledged commit, and each has just the rows after its commits."
    )?;
    Ok(ExitCode::SUCCESS)
}

/// How many outcomes the moments of the run have.
fn count_outcomes(alloc: Global, trial: &Trial) -> Result<u64, AllocError> {
    let mut progress = Progress::new(alloc);
    let mut count = 0u64;
    for change in trial.changes.iter() {
        progress.begin(change)?;
        count = count.saturating_add(count_of(progress.loose()));
        progress.end(change);
        count = count.saturating_add(count_of(progress.loose()));
    }
    Ok(count)
}

/// Each line of the script, with the calls that change something until it is answered.
fn tell_calls(rt: &HostRuntime, trial: &Trial, outcomes: &mut Outcomes) -> anyhow::Result<()> {
    let mut progress = Progress::new(rt.alloc());
    let mut lines = trial.script.lines();
    for (place, change) in trial.changes.iter().enumerate() {
        tell_heading(rt, trial, place, &mut lines)?;
        let before = (place as u64).saturating_mul(2);
        let told = told_before(trial, place);
        tell_call(rt, trial, outcomes, &mut progress, change, before, told)?;
    }
    Ok(())
}

/// The line of the script that comes next, where the change before this one told the reply to the one before.
fn tell_heading(
    rt: &HostRuntime,
    trial: &Trial,
    place: usize,
    lines: &mut Lines<'_>,
) -> anyhow::Result<()> {
    if place == 0 {
        println!(rt; "the opening")?;
        return Ok(());
    }
    let Some(before) = trial.changes.get(place - 1) else {
        return Ok(());
    };
    if before.told().is_some()
        && let Some(line) = lines.next()
    {
        println!(rt; "{line}")?;
    }
    Ok(())
}

/// What was told last before the change at this place.
fn told_before<'a>(trial: &'a Trial<'_>, place: usize) -> &'a str {
    for change in trial.changes.iter().take(place).rev() {
        if let Some(text) = change.told() {
            return text;
        }
    }
    "nothing"
}

/// A line for the moment within a call, and one for the moment after it. `before` is the moment in front of it, and `told` what
/// was told last.
fn tell_call(
    rt: &HostRuntime,
    trial: &Trial,
    outcomes: &mut Outcomes,
    progress: &mut Progress,
    change: &Change,
    before: u64,
    told: &str,
) -> anyhow::Result<()> {
    let (within, after) = match change.told() {
        Some(text) => ("a front of it", text),
        None => (told, told),
    };
    let call = change.text(rt.alloc())?;
    progress.begin(change)?;
    let found = outcomes.try_all(trial, progress, before.saturating_add(1))?;
    println!(rt;
        "  {:<37} {:<7} {within:<32} {found}",
        call.as_str(),
        "within"
    )?;
    progress.end(change);
    let found = outcomes.try_all(trial, progress, before.saturating_add(2))?;
    println!(rt; "  {:<37} {:<7} {after:<32} {found}", "", "after")?;
    Ok(())
}
