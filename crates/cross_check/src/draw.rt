// Numbers that look drawn by lot, each a function of a case's number and a place.

// One round of mixing: three shifts, and a sum that wraps.
fn mix(number: u64) -> u64 {
    let once = number ^ (number << 13);
    let twice = once ^ (once >> 7);
    (twice ^ (twice << 17)).wrapping_add(11_400_714_819_323_198_485)
}

// A number below `most`, or 0 where `most` is 0: for a case and a place of the case below 65,536.
pub(crate) fn draw(case: u64, place: u64, most: u32) -> u32 {
    if most == 0 {
        return 0;
    }
    let mixed = mix(mix(mix(mix((case << 16) | place))));
    ((mixed >> 20) % u64::from(most)) as u32
}

// A number from `low` to `high`.
pub(crate) fn from_to(case: u64, place: u64, low: u32, high: u32) -> u32 {
    if low < high {
        low.wrapping_add(draw(case, place, (high - low).wrapping_add(1)))
    } else {
        low
    }
}

// A permutation of the numbers of 15 bits that keeps 0. A larger number stays.
pub(crate) fn shuffled(number: u32) -> u32 {
    if number > 32_767 {
        return number;
    }
    let once = (number ^ (number << 7)) & 32_767;
    let twice = once ^ (once >> 9);
    (twice ^ (twice << 8)) & 32_767
}
