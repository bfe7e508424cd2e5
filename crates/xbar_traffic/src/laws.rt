//! Laws of traffic as it is read, for the crates above. Each function does nothing: its contract
//! is the law.

ghost use Rattle.std.specs.Prelude.{◌≡◌, ◌≤◌, ◌+◌, ℕ, List, Option, All, length};
ghost use Rattle.xbar_traffic.specs.Row.{IsRow, mode_of};
ghost use Rattle.xbar_traffic.specs.Traffic.{IsTrafficOf};
ghost use Rattle.xbar_traffic.specs.declared.fault.RowFault.{RowFault};
ghost use Rattle.xbar_traffic.specs.declared.row.Mode.{Mode};
ghost use Rattle.xbar_traffic.specs.declared.row.Row.{Row};

/// The records and the mode determine the rows and the fault.
pub fn records_are_one_traffic()
    ensures rows { (mode : Mode) (records : List (List (List ℕ))) (rows rows' : List Row)
        (fault fault' : Option RowFault) → IsTrafficOf mode records rows fault →
        IsTrafficOf mode records rows' fault' → rows ≡ rows' }
    ensures fault { (mode : Mode) (records : List (List (List ℕ))) (rows rows' : List Row)
        (fault fault' : Option RowFault) → IsTrafficOf mode records rows fault →
        IsTrafficOf mode records rows' fault' → fault ≡ fault' }
{}

/// All rows are in range: their numbers, jobs, lines and digits.
pub fn rows_are_in_range()
    ensures { (mode : Mode) (records : List (List (List ℕ))) (rows : List Row)
        (fault : Option RowFault) → IsTrafficOf mode records rows fault → All IsRow rows }
{}

/// All rows belong to the mode for which they were read.
pub fn rows_are_of_their_mode()
    ensures { (mode : Mode) (records : List (List (List ℕ))) (rows : List Row)
        (fault : Option RowFault) → IsTrafficOf mode records rows fault →
        All (λ row. mode_of row ≡ mode) rows }
{}
