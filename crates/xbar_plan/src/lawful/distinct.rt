//! Checks that numbers are distinct. There may be thousands of them, so each is marked in a table.

ghost use Rattle.std.specs.Prelude.{◌≡◌, IfOk, IfSome, is_none, nat_eq, position};
ghost use Rattle.xbar_plan.specs.declared.fault.PlanFault.TheVariants as PlanFault;
ghost use Rattle.xbar_plan.specs.Lawful.{are_distinct, are_numbers_distinct as are_stations_apart, are_codes_distinct as are_codes_apart};
ghost use Rattle.xbar_plan.specs.TableFault.{IsCheck, IsRepeatIn};
ghost use Rattle.xbar_plan.specs.TableSlices.{tables_of};

use crate::numbers::{route_codes, station_numbers, unmarked};
use crate::table_fault::{Repeat, TableFault};
use crate::table_slices::TableSlices;
use std::alloc::{AllocError, Global};

/// The number of values of a `u16`.
const NUMBERS: usize = 65536;

/// The index of the first occurrence of a number.
fn first_of(numbers: &[u16], number: u16) -> Option<usize>
    ensures { result ≡ position (λ n. nat_eq n number) numbers.now }
{
    numbers.iter().position(|other| *other == number)
}

/// The first number that occurs earlier, and its first occurrence.
pub fn first_repeat(alloc: Global, numbers: &[u16]) -> Result<Option<Repeat>, AllocError>
    ensures distinct { IfOk result (λ found. is_none found ≡ are_distinct nat_eq numbers.now) }
    ensures repeat { IfOk result (λ found. IfSome found (IsRepeatIn numbers.now)) }
{
    let mut seen = unmarked(alloc, NUMBERS)?;
    for item in 0..numbers.len() {
        let number = numbers[item];
        let index = usize::from(number);
        if seen[index] {
            let earlier = first_of(&numbers[..item], number).unwrap();
            return Ok(Some(Repeat { item, earlier }));
        }
        seen[index] = true;
    }
    Ok(None)
}

/// Checks that no two stations have the same directory number.
pub fn check_numbers(alloc: Global, tables: &TableSlices) -> Result<(), TableFault>
    ensures { IsCheck (tables_of tables.now) (are_stations_apart tables.now.stations.now)
        PlanFault.NumberTwice result }
{
    let numbers = station_numbers(alloc, tables.stations)?;
    match first_repeat(alloc, &numbers)? {
        Some(repeat) => Err(TableFault::NumberTwice(repeat)),
        None => Ok(()),
    }
}

/// Checks that no two routes have the same code.
pub fn check_codes(alloc: Global, tables: &TableSlices) -> Result<(), TableFault>
    ensures { IsCheck (tables_of tables.now) (are_codes_apart tables.now.routes.now)
        PlanFault.CodeTwice result }
{
    let codes = route_codes(alloc, tables.routes)?;
    match first_repeat(alloc, &codes)? {
        Some(repeat) => Err(TableFault::CodeTwice(repeat)),
        None => Ok(()),
    }
}
