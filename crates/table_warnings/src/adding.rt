//! Warnings that are added to others.
ghost use Rattle.std.specs.Prelude.{◌≡◌, ◌++◌, OnOk};
ghost use Rattle.table_warnings.specs.Warned.{warned, warned_if};

use crate::warning::Warning;
use std::alloc::AllocError;

/// Adds a warning where it is one.
pub(crate) fn warn_if(
    is_odd: bool,
    warning: Warning,
    warnings: &mut Vec<Warning>,
) -> Result<(), AllocError>
    ensures { OnOk result (warnings.new.items ≡ warnings.old.items ++ warned_if is_odd warning) }
{
    if is_odd {
        warnings.push(warning)?;
    }
    Ok(())
}

/// Adds the warning of an entry, where it has one.
pub(crate) fn add_warning(
    warning: Option<Warning>,
    warnings: &mut Vec<Warning>,
) -> Result<(), AllocError>
    ensures { OnOk result (warnings.new.items ≡ warnings.old.items ++ warned warning) }
{
    match warning {
        Some(warning) => {
            warnings.push(warning)?;
            Ok(())
        }
        None => Ok(()),
    }
}
