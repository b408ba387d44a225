ghost use Rattle.std.specs.Prelude.{◌≡◌, true};
ghost use Rattle.wait_model.specs.Fits.{are_proper};
ghost use Rattle.wait_model.specs.Writes.{first_by, without_first, has_ticket};
ghost use Rattle.revoke_core.specs.Losses.{lost_writes, lost_entries, lost_settled};
ghost use Rattle.revoke_core.specs.Steps.{passes, settled_if, failed_of, given_back_if};
ghost use Rattle.revoke_calls.specs.declared.entries.Fate.TheVariants.{Left};

use crate::places::{By, take_write};
use lease_table::LeaseTable;
use revoke_calls::{Fate, fate_of, settle_owned};
use wait_model::{Settled, WaitJob, Write};

/// What a call was about is lost.
pub(crate) fn lose_job(
    writes: &mut Vec<Write>,
    call: u64,
    job: Option<WaitJob>,
    table: &mut LeaseTable,
) -> Settled
    requires { are_proper writes.old.items ≡ true }
    ensures writes { writes.new.items ≡ lost_writes call job writes.old.items }
    ensures entries { table.new.entries ≡ lost_entries call job writes.old.items table.old.entries }
    ensures settled { result ≡ lost_settled call job writes.old.items }
{
    match job {
        None => Settled::Nothing,
        Some(WaitJob::Rescind { key, create }) => {
            table.rescind_lost(&key, create);
            Settled::Nothing
        }
        Some(WaitJob::Revoke { .. }) => lose_write(writes, By::Asks(call), table),
        Some(WaitJob::Write) => lose_write(writes, By::Sends(call), table),
    }
}

/// The write that is looked for ends, and its entries leave.
fn lose_write(writes: &mut Vec<Write>, by: By, table: &mut LeaseTable) -> Settled
    requires { are_proper writes.old.items ≡ true }
    ensures writes { writes.new.items ≡ without_first (passes by) writes.old.items }
    ensures entries { table.new.entries ≡ settled_if Left (first_by (passes by) writes.old.items) table.old.entries }
    ensures settled { result ≡ failed_of (first_by (passes by) writes.old.items) }
{
    match take_write(writes, by) {
        None => Settled::Nothing,
        Some(write) => {
            settle_owned(&write, Fate::Left, table);
            Settled::Failed(write.ticket)
        }
    }
}

/// The write of this ticket is forgotten.
pub(crate) fn forget_write(writes: &mut Vec<Write>, ticket: u64, table: &mut LeaseTable)
    requires { are_proper writes.old.items ≡ true }
    ensures writes { writes.new.items ≡ without_first (has_ticket ticket) writes.old.items }
    ensures entries { table.new.entries ≡ given_back_if (first_by (has_ticket ticket) writes.old.items) table.old.entries }
{
    match take_write(writes, By::Ticket(ticket)) {
        None => {}
        Some(write) => settle_owned(&write, fate_of(&write.stage), table),
    }
}
