// The limits of a store, which its calls refuse to pass and its files can't say.

/// How many sessions a store has.
pub const SESSIONS: u8 = 16;

/// The longest key, in bytes; the shortest has one byte.
pub const LONGEST_KEY: usize = 64;

/// The longest body of a row, in bytes.
pub const LONGEST_BODY: u32 = 65_536;

/// How many tables a store may have: their numbers go from 1 to this one.
pub const MOST_TABLES: u32 = 8;

/// The least short length of a store: how many bytes of a row's body stand in its slot at most.
pub const SHORTEST_SHORT: u32 = 16;

/// The greatest short length of a store.
pub const LONGEST_SHORT: u32 = 1024;

/// How many writes a transaction may have.
pub const MOST_WRITES: usize = 10_000;

/// How many rows a transaction may keep by tickets.
pub const MOST_TICKETS: usize = 4;

/// How many transactions may begin between an opening and the next.
pub const MOST_BEGINS: u64 = 4_294_967_295;

/// The stored numbers of transactions are below this one.
pub const STORED_NUMBERS_END: u64 = 4_611_686_018_427_387_904;

/// How many versions a table may have: its slots have numbers from 1 to this one.
pub const MOST_VARIATIONS: u32 = 4_294_967_295;
