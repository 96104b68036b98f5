use std::io;
use std::time::{CpuClock, Duration};

/// Says on standard error how many microseconds of processor time have passed since `start`.
pub fn tell(rt: &(impl Eprint + CpuClock), name: &str, start: Duration) -> io::Result<()> {
    let took = rt.process_cpu_time()?.saturating_sub(start).as_micros();
    eprintln!(rt; "{name} {took} us")
}
