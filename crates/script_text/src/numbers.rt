//! Numbers of a line, and rows of them: `1..16`, `0,2..58`, `9,8..0`.

use crate::fault::Fault;
use std::alloc::Global;
use std::str::FromStr;

/// The most numbers of a row.
const MOST_NUMBERS: usize = 65_536;

/// The number that a word is.
pub fn number_in<N: FromStr>(word: &str) -> Result<N, Fault>
where
    <N as FromStr>::Err: Drop,
{
    match word.trim().parse::<N>() {
        Ok(number) => Ok(number),
        Err(_) => Err(Fault::Form("no number, or one out of its range")),
    }
}

/// Where a row begins, what its second number is, and where it ends at the latest.
fn ends_of(row: &str) -> Result<(i64, i64, i64), Fault> {
    let Some((front, last)) = row.split_once("..") else {
        return Err(Fault::Form("no row of numbers"));
    };
    let last = number_in(last)?;
    match front.split_once(',') {
        Some((first, second)) => Ok((number_in(first)?, number_in(second)?, last)),
        None => {
            let first: i64 = number_in(front)?;
            Ok((first, first.saturating_add(1), last))
        }
    }
}

/// The numbers of a row.
pub fn row_in(alloc: Global, row: &str) -> Result<Vec<i64>, Fault> {
    let (first, second, last) = ends_of(row)?;
    let rises = first < second;
    let step = second.saturating_sub(first);
    let mut numbers = Vec::new(alloc);
    let mut number = first;
    for _ in 0..MOST_NUMBERS {
        if if rises { last < number } else { number < last } {
            break;
        }
        numbers.push(number)?;
        number = number.saturating_add(step);
    }
    Ok(numbers)
}
