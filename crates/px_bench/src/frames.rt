use crate::timing::tell;
use px_frame::{HEADER_SIZE, read_frame, write_frame};
use std::alloc::AllocError;
use std::time::CpuClock;

/// As long as that of a change of a row in a store of short length 64.
const PAYLOAD: [u8; 230] = [7; 230];

const FRAME_SIZE: u32 = 246;

const _: () = prove!(FRAME_SIZE as usize == HEADER_SIZE + PAYLOAD.len());

/// As many frames as that many bytes hold.
pub fn run(rt: &(impl Print + Eprint + CpuClock + AllocGlobal), size: u32) -> anyhow::Result<()> {
    let count = size / FRAME_SIZE;
    let mut log = Vec::with_capacity(rt.alloc(), size as usize)?;
    let start = rt.process_cpu_time()?;
    write_all(&mut log, count)?;
    tell(rt, "write_frame", start)?;
    let start = rt.process_cpu_time()?;
    let read = read_all(&log, count);
    tell(rt, "read_frame", start)?;
    println!(rt; "frames {} bytes: {count} written, {read} read", log.len())?;
    Ok(())
}

fn write_all(log: &mut Vec<u8>, count: u32) -> Result<(), AllocError> {
    for number in 0..count {
        write_frame(log, u64::from(number), &PAYLOAD)?;
    }
    Ok(())
}

/// How many frames check, one after the other from the front.
fn read_all(log: &[u8], count: u32) -> u32 {
    let mut rest = log;
    for number in 0..count {
        let Some((_payload, size)) = read_frame(rest, u64::from(number)) else {
            return number;
        };
        rest = &rest[size..];
    }
    count
}
