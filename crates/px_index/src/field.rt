ghost use Rattle.std.specs.Prelude.{◌≡◌, IfOk};
ghost use Rattle.px_index.specs.Order.{bytes_of, kind_of, tag_of};

use px_model::Bytes;
use std::alloc::AllocError;

/// What an entry stands under. Keys come before tags; keys are in order of their bytes, and tags of their numbers.
#[derive(Debug, Drop)]
pub enum Field {
    /// A version's key.
    Key(Bytes),
    /// A row's tag.
    Tag(u32),
}

impl Field {
    /// 1 for a key, 2 for a tag.
    pub fn kind(&self) -> u8
        ensures { result ≡ kind_of self.now }
    {
        match self {
            Field::Key(_) => 1,
            Field::Tag(_) => 2,
        }
    }

    /// An equal one; fails only for want of memory.
    pub fn copy(&self) -> Result<Field, AllocError>
        ensures { IfOk result (λ copy. copy ≡ self.now) }
    {
        match self {
            Field::Key(key) => Ok(Field::Key(key.copy()?)),
            Field::Tag(tag) => Ok(Field::Tag(*tag)),
        }
    }

    /// The bytes of a key; a tag has none.
    pub(crate) fn bytes(&self) -> &[u8]
        ensures { result.now ≡ bytes_of self.now }
    {
        match self {
            Field::Key(key) => key.as_slice(),
            Field::Tag(_) => b"".as_slice(),
        }
    }

    /// The number of a tag; a key has 0.
    pub(crate) fn tag(&self) -> u32
        ensures { result ≡ tag_of self.now }
    {
        match self {
            Field::Key(_) => 0,
            Field::Tag(tag) => *tag,
        }
    }
}
