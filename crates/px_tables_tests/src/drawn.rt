use crate::making::Version;
use px_cells::SlotState;
use std::test::Fail;

/// The multiplier and the increment of the generator.
const FACTOR: u64 = 6_364_136_223_846_793_005;

const STEP: u64 = 1_442_695_040_888_963_407;

/// Numbers drawn one after the other, the same for the same seed.
#[derive(Drop)]
pub(crate) struct Drawn {
    state: u64,
}

impl Drawn {
    pub(crate) fn of(seed: u64) -> Drawn {
        Drawn { state: seed }
    }

    /// A number below the bound, 0 where that is 0.
    pub(crate) fn below(&mut self, bound: u64) -> u64 {
        self.state = self.state.wrapping_mul(FACTOR).wrapping_add(STEP);
        if bound == 0 {
            return 0;
        }
        (self.state >> 33) % bound
    }

    /// What the transaction with that stored number writes: now and then a deletion, else a row with up to 16 bytes.
    pub(crate) fn version(&mut self, xn: u64) -> Result<Version, Fail> {
        if self.below(4) == 0 {
            return Ok(Version {
                xn,
                state: SlotState::Deletion,
                tag: 0,
                size: 0,
                fill: 0,
            });
        }
        Ok(Version {
            xn,
            state: SlotState::Row,
            tag: u32::try_from(self.below(1_000))?,
            size: usize::try_from(self.below(17))?,
            fill: u8::try_from(self.below(256))?,
        })
    }

    /// Some places of a chain of that length: the first, and how many.
    pub(crate) fn places(&mut self, length: usize) -> Result<(u32, u32), Fail> {
        let length = u64::try_from(length)?;
        let from = self.below(length);
        let count = self.below(length.saturating_sub(from));
        Ok((
            u32::try_from(from)?,
            u32::try_from(count)?.saturating_add(1),
        ))
    }
}
