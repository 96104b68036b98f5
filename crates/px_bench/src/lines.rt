use crate::timing::tell;
use px_script::{Lines, NextLine, parse_line};
use px_source::StdinSource;
use std::time::CpuClock;

/// The lines of standard input split and parsed.
pub fn run(rt: &HostRuntime) -> anyhow::Result<()> {
    let mut source = StdinSource::new(rt.clone()?);
    let mut lines = Lines::new(rt.alloc());
    let mut count: u64 = 0;
    let mut commands: u64 = 0;
    let start = rt.process_cpu_time()?;
    for _ in 0..u64::MAX {
        if lines.next(&mut source)? != NextLine::Line {
            break;
        }
        count = count.saturating_add(1);
        if parse_line(rt.alloc(), lines.line())?.is_some() {
            commands = commands.saturating_add(1);
        }
    }
    tell(rt, "parse_line", start)?;
    println!(rt; "lines {count}: {commands} commands")?;
    Ok(())
}
