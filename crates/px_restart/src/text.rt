ghost use Rattle.std.specs.Prelude.{◌≡◌, ◌+◌, ◌≤◌, ◌++◌, length, take};
ghost use Rattle.std.specs.Int.{w32, w64, to_be_bytes};
ghost use Rattle.px_bytes.specs.Sum.{fnv_of};
ghost use Rattle.px_restart.specs.Restart.{CanRestart, restart_text, summed};

use crate::restart::{RESTART_SIZE, Restart};
use px_bytes::fnv;

/// The first four bytes of a restart file: `PXTR`.
pub const MAGIC: u32 = 0x5058_5452;

/// The version of the format.
pub const VERSION: u32 = 1;

/// The bytes in front of the sum, of which it is taken.
const SUMMED_SIZE: usize = 76;

/// The bytes of a restart file. It takes no memory.
pub fn restart_bytes(restart: &Restart) -> [u8; RESTART_SIZE]
    requires { CanRestart restart.now }
    ensures { result ≡ restart_text VERSION restart.now }
{
    let mut bytes = [0u8; RESTART_SIZE];
    put_summed(&mut bytes, VERSION, restart);
    let sum = sum_of_fields(&bytes);
    let _end = put_u32_at(&mut bytes, SUMMED_SIZE, sum);
    bytes
}

fn put_summed(bytes: &mut [u8], version: u32, restart: &Restart)
    requires { length bytes.old ≡ RESTART_SIZE }
    ensures { take SUMMED_SIZE bytes.new ≡ summed version restart.now }
{
    let place = put_u32_at(bytes, 0, MAGIC);
    let place = put_u32_at(bytes, place, version);
    let place = put_u64_at(bytes, place, restart.serial);
    let place = put_u32_at(bytes, place, restart.tables);
    let place = put_u32_at(bytes, place, restart.short);
    let place = put_u64_at(bytes, place, restart.commits);
    let place = put_u64_at(bytes, place, restart.next);
    let place = put_u64_at(bytes, place, restart.low);
    let place = put_u64_at(bytes, place, restart.first);
    let place = put_u64_at(bytes, place, restart.redo);
    let place = put_u64_at(bytes, place, restart.durable);
    let _end = put_u32_at(bytes, place, restart.segment);
}

/// Puts the number behind the first `place` bytes, and gives the place behind it.
fn put_u32_at(bytes: &mut [u8], place: usize, n: u32) -> usize
    requires { place + 4 ≤ length bytes.old }
    ensures end { result ≡ place + 4 }
    ensures front { take result bytes.new ≡ take place bytes.old ++ to_be_bytes w32 n }
{
    put_at(bytes, place, &n.to_be_bytes())
}

fn put_u64_at(bytes: &mut [u8], place: usize, n: u64) -> usize
    requires { place + 8 ≤ length bytes.old }
    ensures end { result ≡ place + 8 }
    ensures front { take result bytes.new ≡ take place bytes.old ++ to_be_bytes w64 n }
{
    put_at(bytes, place, &n.to_be_bytes())
}

fn put_at(bytes: &mut [u8], place: usize, field: &[u8]) -> usize
    requires { place + length field.now ≤ length bytes.old }
    ensures end { result ≡ place + length field.now }
    ensures front { take result bytes.new ≡ take place bytes.old ++ field.now }
{
    let end = place + field.len();
    bytes[place..end].copy_from_slice(field);
    end
}

/// The sum of the bytes in front of the sum.
pub(crate) fn sum_of_fields(bytes: &[u8]) -> u32
    requires { SUMMED_SIZE ≤ length bytes.now }
    ensures { result ≡ fnv_of (take SUMMED_SIZE bytes.now) }
{
    let (fields, _) = bytes.split_at(SUMMED_SIZE);
    fnv(fields)
}
