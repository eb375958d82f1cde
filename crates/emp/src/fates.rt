// What became of each submission, told at the end, and how many became what.
// Rests on the ledger.
use crate::ledger::{Entry, Fate, Ledger, ROOM};
use wording::{Row, Status, Teller, Told};

// Each that the ledger holds, a line each.
pub fn list_fates(teller: &Teller<'_, impl Print + Eprint>, ledger: &Ledger) -> Told {
    for (k, entry) in ledger.entries().iter().enumerate() {
        tell_fate(teller, k, *entry)?;
    }
    Ok(Status::Done)
}

fn tell_fate(teller: &Teller<'_, impl Print + Eprint>, k: usize, entry: Entry) -> Told {
    let times = u64::from(entry.fate.times());
    teller.tell(
        Status::Done,
        Row::Submission,
        &[
            k.wrapping_add(1) as u64,
            u64::from(entry.commid),
            choice_of(entry.fate),
            times,
            times,
            times,
        ],
        b"",
    )
}

// The template's choice. An enum of the choices is no plainer: it is the fates once more, and each number stands once, in the arm that gives it.
fn choice_of(fate: Fate) -> u64 {
    match fate {
        Fate::Waiting => 0,
        Fate::InFlight { .. } => 1,
        Fate::Acknowledged { .. } => 2,
        Fate::Failed { .. } => 3,
    }
}

// Of those that have not ended so many wait, and so many are in flight. Whether something went amiss is the status.
pub fn tell_totals(
    teller: &Teller<'_, impl Print + Eprint>,
    ledger: &Ledger,
    waiting: usize,
    in_flight: u64,
    status: Status,
) -> Told {
    teller.tell(
        status,
        Row::Totals,
        &[
            ledger.accepted as u64,
            waiting as u64,
            in_flight,
            ledger.acknowledged as u64,
            ledger.ended.wrapping_sub(ledger.acknowledged) as u64,
            u64::from(ROOM < ledger.accepted),
            ROOM as u64,
        ],
        b"",
    )
}
