use crate::timing::tell;
use px_bytes::fnv;
use std::alloc::{AllocError, Global};
use std::time::CpuClock;

/// The sum over that many bytes.
pub fn run(rt: &(impl Print + Eprint + CpuClock + AllocGlobal), size: u32) -> anyhow::Result<()> {
    let bytes = noise(rt.alloc(), size)?;
    let start = rt.process_cpu_time()?;
    let sum = fnv(&bytes);
    tell(rt, "fnv", start)?;
    println!(rt; "fnv {size} bytes: {sum:08x}")?;
    Ok(())
}

/// Bytes without a pattern that a loop could profit from: the high bytes of a linear congruential generator.
fn noise(alloc: Global, size: u32) -> Result<Vec<u8>, AllocError> {
    let mut bytes = Vec::with_capacity(alloc, size as usize)?;
    let mut state = 1u32;
    for _ in 0..size {
        state = state.wrapping_mul(1_664_525).wrapping_add(1_013_904_223);
        bytes.push((state >> 24) as u8)?;
    }
    Ok(bytes)
}
