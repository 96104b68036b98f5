ghost use Rattle.std.specs.Prelude.{◌≡◌, IfOk};
ghost use Rattle.px_laid.specs.Places.{none_laid, places};
ghost use Rattle.px_opened.specs.Opened.{changes_over};

use px_change::Change;
use px_laid::Laid;
use std::alloc::{AllocError, Global};

/// The cells of all changes, each over those before it, where no cells lie below them. It fails only for want of memory.
pub fn lay_all<'a>(alloc: Global, changes: &'a [Change]) -> Result<Laid<'a>, AllocError>
    ensures { IfOk result (λ laid. places laid ≡ changes_over none_laid changes.now) }
{
    let mut laid = Laid::new(alloc);
    for change in changes {
        laid = laid.lay(change)?;
    }
    Ok(laid)
}
