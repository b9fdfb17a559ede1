//! Numbers that lines tell.

use crate::fault::Fault;
use std::alloc::Global;
use vt_outside::List;

pub(crate) fn count_of(text: &str) -> Result<usize, Fault> {
    text.parse::<usize>().map_err(|_| Fault::BadValue)
}

pub(crate) fn number_of(text: &str) -> Result<u32, Fault> {
    text.parse::<u32>().map_err(|_| Fault::BadValue)
}

/// The numbers for which a case is run: so many, from the first one on, with the same step from each to the next.
#[derive(Clone, Copy)]
pub(crate) struct Numbers {
    first: u32,
    step: u32,
    pub(crate) count: u32,
}

impl Numbers {
    /// The number at a place, counted from 0.
    pub(crate) fn number(self, place: u32) -> u32 {
        self.first.saturating_add(place.saturating_mul(self.step))
    }
}

/// The numbers that a first one, a last one and a step tell. The last one is among them where the steps come to it.
pub(crate) fn each_of(text: &str) -> Result<Numbers, Fault> {
    let (first, text) = text.split_once(' ').ok_or(Fault::BadValue)?;
    let (last, step) = text.split_once(' ').ok_or(Fault::BadValue)?;
    let first = number_of(first)?;
    let step = number_of(step)?;
    let length = number_of(last)?.checked_sub(first).ok_or(Fault::BadValue)?;
    let steps = length.checked_div(step).ok_or(Fault::BadValue)?;
    Ok(Numbers {
        first,
        step,
        count: steps.saturating_add(1),
    })
}

pub(crate) fn numbers_of(alloc: Global, line: &str) -> Result<List<u32>, Fault> {
    let mut numbers = List::new(alloc);
    for number in line.split(' ') {
        numbers.push(number_of(number)?)?;
    }
    Ok(numbers)
}

// Two hexadecimal digits.
pub(crate) fn byte_of(text: &str) -> Result<u8, Fault> {
    if text.len() != 2 {
        return Err(Fault::BadValue);
    }
    u8::try_from(address_of(text)?).map_err(|_| Fault::BadValue)
}

// Hexadecimal digits of an address or a hash, at least one.
pub(crate) fn address_of(text: &str) -> Result<u64, Fault> {
    if text.is_empty() || text.len() > 16 {
        return Err(Fault::BadValue);
    }
    let mut address = 0u64;
    for digit in text.as_bytes() {
        address = (address << 4) | u64::from(value_of(*digit)?);
    }
    Ok(address)
}

fn value_of(digit: u8) -> Result<u8, Fault> {
    match digit {
        b'0'..=b'9' => Ok(digit - b'0'),
        b'a'..=b'f' => Ok(digit - b'a' + 10),
        _ => Err(Fault::BadValue),
    }
}
