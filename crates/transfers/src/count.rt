// The table of counts, nine rows by source and nine columns by destination, passed along by value.
ghost use Rattle.std.specs.Prelude.{◌≡◌, [], map, ◌≤◌, length};
ghost use Rattle.placement.specs.WellFormed.{Each};
ghost use Rattle.transfer_schedule.specs.Counts.{count_table};
ghost use Rattle.transfer_schedule.specs.Transfers.{transfer_in};
ghost use Rattle.transfer_schedule.specs.Fits.{TransferFits, most_transfers};

// Counts the transfers of some entries in a table of zeros, which comes and goes by value.
pub(crate) fn count_transfers(table: [[u32; 9]; 9], entries: &[u64]) -> [[u32; 9]; 9]
    requires { (table ≡ count_table []) × Each TransferFits (map transfer_in entries.now)
        × (length entries.now ≤ most_transfers) }
    ensures { result ≡ count_table (map transfer_in entries.now) }
{
    let mut counts = table;
    for entry in entries {
        let above = *entry / 65536;
        let source = (above % 256) as usize;
        let destination = (above / 256 % 256) as usize;
        counts[source][destination] += 1;
    }
    counts
}
