// The columns of a block that is read.
ghost use Rattle.std.specs.Prelude.{◌≡◌, ℕ, ◌<◌, ◌≤◌, ◌^◌, IfSome, false, length};
ghost use Rattle.bank_trait.specs.Disk.{Unchanged};
ghost use Rattle.row_layout.specs.Layout.{IsColumn};
ghost use Rattle.core_state.specs.Committing.{point_of};
ghost use Rattle.core_client.specs.Got.{HasReadColumn, has_lost};
ghost use Rattle.core_state.specs.Outs.{OnlyFailedGoOut};
ghost use Rattle.core_state.specs.PoolBank.{HasPool};
ghost use Rattle.core_client.specs.Pool.{IsInPool};
ghost use Rattle.core_client.specs.Reading.{spot_of};
ghost use Rattle.core_client.specs.Shared.{IsOwn, columns_had};

use crate::{ColumnsRead, SharedColumns};
use bank_trait::Bank;
use reflow_mark::Reflow;
use row_layout::Layout;
use std::alloc::Global;
use std::mem::replace;
use uberblock_ring::DeviceSet;

/// The columns of a block that is read: its own, or once all were read and others asked for them those that they have
/// too.
#[derive(Drop)]
pub(crate) enum Columns {
    Own(ColumnsRead),
    Shared(SharedColumns),
}

impl Columns {
    pub(crate) fn as_read(&self) -> &ColumnsRead
        ensures { result.now ≡ columns_had self.now }
    {
        match self {
            Columns::Own(read) => read,
            Columns::Shared(shared) => shared.columns(),
        }
    }

    /// Reads a column where its row stands, into its place, while they are the read's own.
    pub(crate) fn read<B: Bank>(
        &mut self,
        bank: &mut B,
        layout: &Layout,
        reflow: &Reflow,
        row: u32,
        column: u32,
        out: &mut DeviceSet,
    )
        requires own { IsOwn self.old }
        requires masks { length (columns_had self.old).lost.items ≡ (columns_had self.old).rows.rows }
        requires row { row < (columns_had self.old).rows.rows }
        requires column { column < (columns_had self.old).rows.cols }
        requires narrow { (columns_had self.old).rows.cols ≤ 64 }
        requires unread { has_lost (columns_had self.old) row column ≡ false }
        requires pool { IsInPool layout.now reflow.now }
        requires bank { HasPool reflow.now out.old (B.disk bank.old) }
        requires there { IsColumn layout.now row column }
        ensures own { IsOwn self.new }
        ensures step { HasReadColumn (spot_of layout.now reflow.now row column) row column (columns_had self.old)
            (point_of out.old (B.disk bank.old)) (columns_had self.new) (point_of out.new (B.disk bank.new)) }
        ensures unchanged { Unchanged (B.disk bank.old) (B.disk bank.new) }
        ensures out { OnlyFailedGoOut (point_of out.old (B.disk bank.old))
            (point_of out.new (B.disk bank.new)) }
        ensures below { (devices : ℕ) → reflow.now.to ≤ devices → out.old < 2 ^ devices → out.new < 2 ^ devices }
    {
        match self {
            Columns::Own(read) => read.read(bank, layout, reflow, row, column, out),
            Columns::Shared(_) => unreachable!(),
        }
    }

    /// Lets others have them too, where there is memory for that.
    pub(crate) fn share(&mut self, alloc: Global) -> Option<SharedColumns>
        ensures same { columns_had self.new ≡ columns_had self.old }
        ensures value { IfSome result (λ shared. shared ≡ columns_had self.old) }
    {
        let columns = replace(self, Columns::Own(ColumnsRead::none(alloc)));
        *self = columns.shared(alloc);
        match self {
            Columns::Own(_) => None,
            Columns::Shared(shared) => shared.share(),
        }
    }

    fn shared(self, alloc: Global) -> Columns
        ensures { columns_had result ≡ columns_had self }
    {
        let Columns::Own(read) = self else {
            return self;
        };
        match SharedColumns::new(alloc, read) {
            Ok(shared) => Columns::Shared(shared),
            Err(read) => Columns::Own(read),
        }
    }
}
