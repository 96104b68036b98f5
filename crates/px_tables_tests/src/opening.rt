use crate::making::{SHORT, ShortTable, TABLE};
use px_change::Change;
use px_laid::{Laid, TableCells};
use px_survey::survey;
use px_tables::Table;
use std::alloc::{AllocError, Global};
use std::test::Fail;

/// The cells of all changes, each over those before it.
pub(crate) fn laid(alloc: Global, log: &[Change]) -> Result<Laid<'_>, AllocError> {
    let mut laid = Laid::new(alloc);
    for change in log {
        laid = laid.lay(change)?;
    }
    Ok(laid)
}

/// The table that the laid cells say, as an opening makes it.
pub(crate) fn opened(alloc: Global, laid: &Laid<'_>) -> Result<ShortTable, Fail> {
    let TableCells {
        header,
        pointers,
        slots,
    } = laid.table(alloc, TABLE, SHORT)?;
    match survey(alloc, &header, &pointers, &slots)? {
        Some(flaw) => Err(Fail::new(format_args!("flawed: {flaw:?}"))),
        None => {
            let table = Table::of_cells(alloc, TABLE, SHORT, header, pointers, slots)?;
            Ok(ShortTable { table })
        }
    }
}
