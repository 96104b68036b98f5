//! The limits of a store, number by number. Each is a constant of the crate that refuses to pass it, and every contract names that
//! constant: here they are pinned to the numbers that a user is told, so that no change of one passes unseen.
//!
//! No code: one law, and the same as a test of the compiled numbers.
#![tactic(auto)]

ghost use Rattle.std.specs.Prelude.{◌≡◌};
ghost use Rattle.px_bytes.specs.declared.limits.TheConstants.{LONGEST_PAYLOAD, NUMBER_LIMIT, SHORTEST_PAYLOAD};
ghost use Rattle.px_model.specs.declared.limits.TheConstants as of;

/// What a session, a transaction, a table and the log may have at most.
pub fn limits_are_these()
    ensures sessions { of.SESSIONS ≡ 16 }
    ensures tables { of.MOST_TABLES ≡ 8 }
    ensures longest_key { of.LONGEST_KEY ≡ 64 }
    ensures longest_body { of.LONGEST_BODY ≡ 65536 }
    ensures shortest_short { of.SHORTEST_SHORT ≡ 16 }
    ensures longest_short { of.LONGEST_SHORT ≡ 1024 }
    ensures writes { of.MOST_WRITES ≡ 10000 }
    ensures tickets { of.MOST_TICKETS ≡ 4 }
    ensures begins { of.MOST_BEGINS ≡ 4294967295 }
    ensures stored_numbers { of.STORED_NUMBERS_END ≡ 4611686018427387904 }
    ensures versions { of.MOST_VARIATIONS ≡ 4294967295 }
    ensures frames { NUMBER_LIMIT ≡ 281474976710656 }
    ensures shortest_payload { SHORTEST_PAYLOAD ≡ 18 }
    ensures longest_payload { LONGEST_PAYLOAD ≡ 8192 }
{}

#[cfg(test)]
mod tests {
    use px_bytes::{LONGEST_PAYLOAD, NUMBER_LIMIT, SHORTEST_PAYLOAD};
    use px_model::{
        LONGEST_BODY, LONGEST_KEY, LONGEST_SHORT, MOST_BEGINS, MOST_TABLES, MOST_TICKETS,
        MOST_VARIATIONS, MOST_WRITES, SESSIONS, SHORTEST_SHORT, STORED_NUMBERS_END,
    };

    #[test]
    fn the_compiled_limits_are_those(rt: HostRuntime) {
        assert!(rt; SESSIONS == 16 && MOST_TABLES == 8);
        assert!(rt; LONGEST_KEY == 64 && LONGEST_BODY == 65_536);
        assert!(rt; SHORTEST_SHORT == 16 && LONGEST_SHORT == 1_024);
        assert!(rt; MOST_WRITES == 10_000 && MOST_TICKETS == 4);
        assert!(rt; MOST_BEGINS == 4_294_967_295 && MOST_VARIATIONS == 4_294_967_295);
        assert!(rt; STORED_NUMBERS_END == 4_611_686_018_427_387_904);
        assert!(rt; NUMBER_LIMIT == 281_474_976_710_656);
        assert!(rt; SHORTEST_PAYLOAD == 18 && LONGEST_PAYLOAD == 8_192);
    }
}
