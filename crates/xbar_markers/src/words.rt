use std::marker::Brand;

/// Names the shared words of a run, which its notes are of. `run_desks` picks them.
pub trait Words {
    ghost use Rattle.atomic_table.specs.Seated.{TableId};

    ghost table: { TableId };
}

impl Words for Brand {
    ghost use Rattle.xbar_markers.specs.Notes.{no_table};

    ghost table = { no_table };
}
