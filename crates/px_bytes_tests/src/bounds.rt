use px_bytes::{LONGEST_PAYLOAD, NUMBER_LIMIT, SHORTEST_PAYLOAD};
use px_frame::HEADER_SIZE;
use px_model::{LONGEST_SHORT, MOST_TABLES, SHORTEST_SHORT, STORED_NUMBERS_END};
use px_restart::RESTART_SIZE;

/// Contracts name the bounds of the formats: that the names stand for the right numbers, a test must say.
#[test]
fn bounds_of_the_formats(rt: HostRuntime) {
    for (bound, number) in [
        (HEADER_SIZE as u64, 16),
        (SHORTEST_PAYLOAD as u64, 18),
        (LONGEST_PAYLOAD as u64, 8_192),
        (NUMBER_LIMIT, 281_474_976_710_656),
        (RESTART_SIZE as u64, 80),
        (u64::from(MOST_TABLES), 8),
        (u64::from(SHORTEST_SHORT), 16),
        (u64::from(LONGEST_SHORT), 1_024),
        (STORED_NUMBERS_END, 4_611_686_018_427_387_904),
    ] {
        assert_eq!(rt; bound, number);
    }
}
