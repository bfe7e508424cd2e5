//! Laws of the text that describes a walk. Each function does nothing: its contract is the law.

ghost use Rattle.std.specs.Prelude.{◌≡◌, ◌++◌, ℕ, All, List, false, flat_map, map, replicate, true};
ghost use Rattle.xbar_moves.specs.Runs as runs;
ghost use Rattle.xbar_moves.specs.Runs.{run_from};
ghost use Rattle.xbar_walk.specs.Items.{IsRun, Item, Tests, item_lines, runs_of, walk_text_of};
ghost use Rattle.xbar_walk.specs.Rows.{are_joined, is_short, tests_text};
ghost use Rattle.xbar_walk.specs.Runs.{last_number, made_by, made_items, made_lines, made_objects, walk_of_run};
ghost use Rattle.xbar_walk.specs.Walks.{Walk, walk_of_steps};
ghost use Rattle.xbar_walk.specs.declared.detail.Detail.{Detail};
ghost use Rattle.xbar_walk.specs.declared.detail.Detail.TheVariants.{Each, JsonLines};
ghost use Rattle.xbar_walk.specs.declared.rows.Tested.{Tested};

/// Whatever markers are to step, in whatever order: one item describes each step that is made, in
/// order, with the next number and the marker. With `Detail::Each` each item is a line, followed
/// by the trouble cards if it is a turn; with `Detail::JsonLines` it is a line with the step's
/// object. The office is the one after these steps. `count` steps of one marker are the same as a
/// run that names the marker `count` times.
pub fn each_step_has_its_line()
    ensures office { (ks : List ℕ) (w : Walk) → (walk_of_run ks w).office ≡ record w.office {
      exchange = run_from w.office.plan w.office.exchange (map runs.Steps ks);
    } }
    ensures items { (ks : List ℕ) (w : Walk) → (walk_of_run ks w).items
        ≡ w.items ++ made_items w.detail w.number (made_by w.office.plan ks w.office.exchange) }
    ensures text { (ks : List ℕ) (w : Walk) → w.detail ≡ Each →
        walk_text_of Each (walk_of_run ks w).items
        ≡ walk_text_of Each w.items
        ++ made_lines w.number (made_by w.office.plan ks w.office.exchange) }
    ensures json { (ks : List ℕ) (w : Walk) → w.detail ≡ JsonLines →
        walk_text_of JsonLines (walk_of_run ks w).items
        ≡ walk_text_of JsonLines w.items
        ++ made_objects w.number (made_by w.office.plan ks w.office.exchange) }
    ensures number { (ks : List ℕ) (w : Walk) → (walk_of_run ks w).number
        ≡ last_number w.number (made_by w.office.plan ks w.office.exchange) }
    ensures detail { (ks : List ℕ) (w : Walk) → (walk_of_run ks w).detail ≡ w.detail }
    ensures one { (k count : ℕ) (w : Walk) → walk_of_steps k count w ≡ walk_of_run
        (replicate count k) w }
{}

/// Whatever the items: their runs, one after another, are exactly the items, in order. Each run is
/// one item, or tests of a row by one marker, each of the next switch. The tests of a run share
/// one line. With a detail other than `Detail::Short` each item has its own text.
pub fn runs_are_the_items()
    ensures all { (detail : Detail) (items : List Item)
        → flat_map (λ run. run) (runs_of detail items) ≡ items }
    ensures runs { (detail : Detail) (items : List Item)
        → All (IsRun detail) (runs_of detail items) }
    ensures row { (detail : Detail) (tests : List Tested) → are_joined detail tests ≡ true
        → walk_text_of detail (map Tests tests) ≡ tests_text tests }
    ensures each { (detail : Detail) (items : List Item) → is_short detail ≡ false
        → walk_text_of detail items ≡ flat_map item_lines items }
{}
