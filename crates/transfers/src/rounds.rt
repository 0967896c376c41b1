// Rounds: a table says in which rounds each end is busy, and another how many from the first on are
// known to be.
ghost use Rattle.std.specs.Prelude.{◌≡◌, [], ◌+◌, ◌-◌, ◌*◌, ◌≤◌, ◌<◌, ◌&&◌, eqb, get_or, set};
ghost use Rattle.transfer_schedule.specs.Counts.{ends};
ghost use Rattle.transfers.specs.Keys.{row_length, BusyTable, FullTable, next_full, EarliestFor, RoundTaken};

// The places of a row, one for each round.
const ROW: usize = 256;

// The rounds of each end while transfers are placed: where it is busy, and how many from the first
// on are known to be.
#[derive(Drop)]
pub(crate) struct Rounds {
    busy: [u8; 2304],
    full: [u64; 9],
    placed: usize,
    ghost full_table: { FullTable busy full placed },
}

// Whether two places of the table say that their ends are free.
fn both_free(source: u8, destination: u8) -> bool
    ensures { result ≡ (eqb source 0 && eqb destination 0) }
{
    source == 0 && destination == 0
}

// How many rounds from the first on are known to be busy once this one is: one more where it is the
// next one.
fn next_full(full: u64, round: u64) -> u64
    requires { 1 ≤ round }
    ensures { result ≡ next_full full round }
{
    if full == round - 1 {
        return round;
    }
    full
}

impl Rounds {
    // No transfer is placed, and no end is busy.
    pub(crate) fn new() -> Rounds
        ensures busy { BusyTable result.busy [] }
        ensures placed { result.placed ≡ 0 }
    {
        Rounds {
            busy: [0; 2304],
            full: [0; 9],
            placed: 0,
        }
    }

    // The earliest round in which both ends are free, at most the one behind as many as transfers
    // are placed. Rounds known to be busy are passed.
    fn earliest(&self, source: usize, destination: usize) -> usize
        requires ends { (source < ends) × (destination < ends) }
        requires placed { self.now.placed ≤ row_length }
        ensures earliest_for { EarliestFor self.now.busy source destination self.now.placed result }
        ensures bounds { (1 ≤ result) × (result ≤ self.now.placed + 1) }
    {
        let from = self.full[source].max(self.full[destination]);
        // The round is the answer and the place in both rows: two zipped rows would be counted too.
        for r in from as usize..self.placed {
            if both_free(
                self.busy[source * ROW + r],
                self.busy[destination * ROW + r],
            ) {
                return r + 1;
            }
        }
        self.placed + 1
    }

    // Makes an end busy in a round, and counts the round as known to be busy where it is the next
    // one.
    fn make_busy(&mut self, end: usize, round: usize)
        requires { (end < ends) × (1 ≤ round) × (round ≤ self.old.placed)
            × (self.old.placed ≤ row_length) }
        ensures busy { self.new.busy ≡ set self.old.busy («end» * row_length + («round» - 1)) 1 }
        ensures full { self.new.full
            ≡ set self.old.full «end» (next_full (get_or self.old.full «end» 0) «round») }
        ensures placed { self.new.placed ≡ self.old.placed }
    {
        self.busy[end * ROW + (round - 1)] = 1;
        self.full[end] = next_full(self.full[end], round as u64);
    }

    // Takes the earliest round for one transfer more: both ends are busy in it from then on.
    pub(crate) fn take(&mut self, source: usize, destination: usize) -> usize
        requires ends { (source < ends) × (destination < ends) }
        requires placed { self.old.placed < row_length }
        ensures round_taken { RoundTaken source destination self.old.placed self.old.busy self.new.busy result }
        ensures placed { self.new.placed ≡ self.old.placed + 1 }
        ensures upper_bound { result ≤ self.old.placed + 1 }
    {
        let round = self.earliest(source, destination);
        self.placed += 1;
        self.make_busy(source, round);
        self.make_busy(destination, round);
        round
    }
}
