// The columns of a block, had by several.
ghost use Rattle.std.specs.Prelude.{◌≡◌, IfOk, IfErr, IfSome};

use crate::ColumnsRead;
use std::alloc::Global;
use std::marker::Model;
use std::sync::Arc;

/// A block's columns as they were read, which the read has and whoever solves them meanwhile. No more is put in.
#[derive(Drop)]
pub struct SharedColumns {
    columns: Arc<ColumnsRead>,
}

impl Model for SharedColumns {
    ghost use Rattle.std.specs.Arc.{arc_value};
    ghost use Rattle.core_client.specs.declared.columns_read.ColumnsRead.{ColumnsRead};

    ghost Value = { ColumnsRead };

    ghost view = { λ shared. arc_value shared.columns };
}

impl SharedColumns {
    /// Where memory is exhausted, the columns come back.
    pub(crate) fn new(alloc: Global, columns: ColumnsRead) -> Result<SharedColumns, ColumnsRead>
        ensures ok { IfOk result (λ shared. shared ≡ columns) }
        ensures err { IfErr result (λ back. back ≡ columns) }
    {
        match Arc::new(alloc, columns) {
            Ok(columns) => Ok(SharedColumns { columns }),
            Err(refused) => Err(refused.value),
        }
    }

    /// The same for one more; nothing where too many have them.
    pub(crate) fn share(&self) -> Option<SharedColumns>
        ensures { IfSome result (λ shared. shared ≡ self.now) }
    {
        match Arc::try_clone(&self.columns) {
            Ok(columns) => Some(SharedColumns { columns }),
            Err(_) => None,
        }
    }

    pub fn columns(&self) -> &ColumnsRead
        ensures { result.now ≡ self.now }
    {
        &self.columns
    }
}
