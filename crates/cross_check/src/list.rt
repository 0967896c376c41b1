// The bytes of a case's list.
use crate::case::Case;
use crate::draw::{draw, from_to, shuffled};
use crate::fault::Fault;
use crate::full::Full;
use arrayvec::ArrayVec;

// The bytes of a list: at most 1,029 records and 7 odd bytes.
pub(crate) type List = ArrayVec<u8, 8_239>;

// The film number of record i before faults, no two alike below 1,100: upwards from a start,
// downwards from 49,999, or shuffled.
fn own_film(number: u64, i: u32) -> u32 {
    let upwards = from_to(number, 13, 1, 48_900).wrapping_add(i);
    match draw(number, 12, 4) {
        0 => upwards,
        1 => 49_999u32.wrapping_sub(i),
        _ => shuffled(upwards),
    }
}

// One of two film numbers that are out of place.
fn either(number: u64, one: u32, other: u32) -> u32 {
    if draw(number, 14, 2) == 0 { one } else { other }
}

// The film number of record i with a fault, if this is one of a film: film 0, a film above 65,535
// (the first, or one that is film 5 in 16 bits), an earlier one, or a service clip (the first, or
// the last).
fn with_fault(film: u32, number: u64, i: u32, fault: Option<Fault>) -> u32 {
    match fault {
        Some(Fault::FilmZero) => 0,
        Some(Fault::FilmTooLarge) => either(number, 65_536, 65_541),
        Some(Fault::FilmRepeated) => own_film(number, draw(number, 15, i)),
        Some(Fault::ServiceClip) => either(number, 50_000, 65_535),
        _ => film,
    }
}

// Whether record i is the one that can have faults.
fn is_faulty(case: &Case, i: u32) -> bool {
    draw(case.number, 8, case.records) == i
}

// The film number of record i.
fn film_of(case: &Case, i: u32) -> u32 {
    let own = own_film(case.number, i);
    if !is_faulty(case, i) {
        return own;
    }
    let faults = case.faults.iter();
    faults.fold(own, |film, fault| with_fault(film, case.number, i, *fault))
}

// Whether the demand of record i is turned to 0: of 16 cases one turns all, three turn one in 2,
// two turn one in 4.
fn is_unwanted(number: u64, i: u32) -> bool {
    let record = draw(number, 4_000 + u64::from(i), 4);
    match draw(number, 16, 16) {
        0 => true,
        1..=3 => record < 2,
        4 | 5 => record == 0,
        _ => false,
    }
}

// The demand of record i before faults.
fn own_demand(case: &Case, i: u32) -> u32 {
    if is_unwanted(case.number, i) {
        return 0;
    }
    let drawn = from_to(case.number, 100 + u64::from(i), case.low, case.high);
    let folds = draw(case.number, 2_000 + u64::from(i), case.folds);
    drawn
        .wrapping_mul(case.factor)
        .wrapping_add(case.load.wrapping_mul(folds))
}

// The demand of record i, which a fault makes too large.
fn demand_of(case: &Case, i: u32) -> u32 {
    if is_faulty(case, i) && case.faults.contains(&Some(Fault::DemandTooLarge)) {
        return 1_000_001;
    }
    own_demand(case, i)
}

// The bytes of a case: its records, and the bytes behind them.
pub(crate) fn list_of(case: &Case) -> Result<List, Full> {
    let mut list = List::new();
    for i in 0..case.records {
        list.try_extend_from_slice(&film_of(case, i).to_le_bytes())?;
        list.try_extend_from_slice(&demand_of(case, i).to_le_bytes())?;
    }
    list.try_extend_from_slice(&[0; 7][..case.odd_bytes.min(7)])?;
    Ok(list)
}
