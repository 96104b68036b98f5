//! Calls that are drawn, the same for the same seed.

use px_calls::Call;
use px_model::{Bytes, Session};
use std::alloc::Global;
use std::test::Fail;

/// The multiplier and the increment of the generator.
const FACTOR: u64 = 6_364_136_223_846_793_005;

const STEP: u64 = 1_442_695_040_888_963_407;

/// How many sessions call, and how many keys they use.
const CALLERS: u64 = 8;

const KEYS: u64 = 6;

/// A body is shorter than this; the longest doesn't fit.
const BODIES_END: u64 = 66;

/// Numbers drawn one after the other.
#[derive(Drop)]
pub(crate) struct Drawn {
    state: u64,
}

impl Drawn {
    pub(crate) fn of(seed: u64) -> Drawn {
        Drawn { state: seed }
    }

    /// A number below the bound.
    fn below(&mut self, bound: u64) -> u64 {
        self.state = self.state.wrapping_mul(FACTOR).wrapping_add(STEP);
        if bound == 0 {
            return 0;
        }
        (self.state >> 33) % bound
    }

    pub(crate) fn session(&mut self) -> Result<Session, Fail> {
        let index = self.below(CALLERS);
        Ok(Session::of(u8::try_from(index)?).ok_or("no such session")?)
    }

    /// A key of one byte, seldom one that is too short.
    fn key(&mut self, alloc: Global) -> Result<Bytes, Fail> {
        let mut key = Vec::new(alloc);
        if self.below(64) != 0 {
            key.push(u8::try_from(self.below(KEYS))?)?;
        }
        Ok(Bytes::from_vec(key))
    }

    fn body(&mut self, alloc: Global) -> Result<Bytes, Fail> {
        let mut body = Vec::new(alloc);
        for _ in 0..self.below(BODIES_END) {
            body.push(7)?;
        }
        Ok(Bytes::from_vec(body))
    }

    /// Table 1 or 2, seldom one that isn't there.
    fn table(&mut self) -> Result<u32, Fail> {
        match self.below(64) {
            0 => Ok(0),
            1 => Ok(3),
            drawn => Ok(u32::try_from(drawn % 2 + 1)?),
        }
    }

    fn tag(&mut self) -> Result<u32, Fail> {
        Ok(u32::try_from(self.below(3))?)
    }

    pub(crate) fn call(&mut self, alloc: Global) -> Result<Call, Fail> {
        match self.below(20) {
            0..3 => Ok(Call::Begin),
            3..5 => Ok(Call::Commit),
            5 => Ok(Call::Rollback),
            6..8 => Ok(Call::Get {
                table: self.table()?,
                key: self.key(alloc)?,
            }),
            8 => Ok(Call::Hold {
                table: self.table()?,
                key: self.key(alloc)?,
            }),
            9 => Ok(Call::Fetch {
                ticket: u32::try_from(self.below(6))?,
            }),
            10 => Ok(Call::Find {
                table: self.table()?,
                tag: self.tag()?,
            }),
            11 => Ok(Call::Scan {
                table: self.table()?,
            }),
            _ => self.write(alloc),
        }
    }

    fn write(&mut self, alloc: Global) -> Result<Call, Fail> {
        let table = self.table()?;
        let key = self.key(alloc)?;
        match self.below(3) {
            0 => Ok(Call::Insert {
                table,
                key,
                tag: self.tag()?,
                body: self.body(alloc)?,
            }),
            1 => Ok(Call::Update {
                table,
                key,
                tag: self.tag()?,
                body: self.body(alloc)?,
            }),
            _ => Ok(Call::Delete { table, key }),
        }
    }
}
