ghost use Rattle.std.specs.Prelude.{◌≡◌, ◌<◌, ◌++◌, length, IfSome, IfNone};
ghost use Rattle.px_restart.specs.Restart.{fields_text, FieldsFit};

use crate::restart::{RESTART_SIZE, Restart};
use crate::text::{MAGIC, VERSION, sum_of_fields};
use px_bytes::Fields;

/// The bytes of the fields between version and sum.
const FIELDS_SIZE: usize = 68;

/// The fields of a restart file as they stand there, whatever they are.
#[derive(Clone, Copy)]
pub(crate) struct File {
    magic: u32,
    version: u32,
    pub(crate) restart: Restart,
    sum: u32,
}

impl File {
    ghost use Rattle.std.specs.Prelude.{◌≤◌, ◌↔◌, IsTrue};
    ghost use Rattle.px_restart.specs.File.{IsFile, Checks};

    pub(crate) fn read(bytes: &[u8]) -> Option<File>
        ensures none { IfNone result (length bytes.now < RESTART_SIZE) }
        ensures front { IfSome result (IsFile bytes.now) }
    {
        let mut fields = Fields::new(bytes);
        let magic = fields.take_u32()?;
        let version = fields.take_u32()?;
        let restart = take_restart(&mut fields)?;
        let sum = fields.take_u32()?;
        Some(File {
            magic,
            version,
            restart,
            sum,
        })
    }

    /// Whether the bytes, which begin with these fields, are a restart file.
    pub(crate) fn checks(self, bytes: &[u8]) -> bool
        requires { RESTART_SIZE ≤ length bytes.now }
        ensures { IsTrue result ↔ Checks bytes.now self }
    {
        self.magic == MAGIC
            && self.version == VERSION
            && self.restart.is_in_bounds()
            && self.sum == sum_of_fields(bytes)
    }
}

/// The fields behind the version. Without all of them some may be taken.
fn take_restart(fields: &mut Fields<'_>) -> Option<Restart>
    ensures none { IfNone result (length fields.old < FIELDS_SIZE) }
    ensures taken { IfSome result (λ restart. fields.old ≡ fields_text restart ++ fields.new) }
    ensures fit { IfSome result FieldsFit }
{
    let serial = fields.take_u64()?;
    let tables = fields.take_u32()?;
    let short = fields.take_u32()?;
    let commits = fields.take_u64()?;
    let next = fields.take_u64()?;
    let low = fields.take_u64()?;
    let first = fields.take_u64()?;
    let redo = fields.take_u64()?;
    let durable = fields.take_u64()?;
    let segment = fields.take_u32()?;
    Some(Restart {
        serial,
        tables,
        short,
        commits,
        next,
        low,
        first,
        redo,
        durable,
        segment,
    })
}
