//! Laws of the page. Each function does nothing: its contract is the law.

ghost use Rattle.std.specs.Prelude.{◌≡◌, ℕ, ◌+◌, List, Some, filter, flat_map, length, slice_get, take};
ghost use Rattle.xbar_equip.specs.declared.path.Path.{Path as ThePath};
ghost use Rattle.xbar_office.specs.Legal.{after};
ghost use Rattle.xbar_office.specs.declared.reply.Record.{Record as TheRecord};
ghost use Rattle.xbar_office_drawing.specs.Drawn.{is_evidence};
ghost use Rattle.xbar_office_drawing.specs.PathInOffice.{path_dots};
ghost use Rattle.xbar_page.specs.Picture.{picture_figures};
ghost use Rattle.xbar_page.specs.Sections.{Section, sections};
ghost use Rattle.xbar_page.specs.Stays.{has_path, sets_of, standing, stays as stays_of};
ghost use Rattle.xbar_page.specs.declared.stays.Stay.{Stay as TheStay};
ghost use Rattle.xbar_plan.specs.Tables.{Tables};

/// The page has exactly one section for each record, in their order. Each shows the office after
/// its turn, that is, after the records up to and including its own.
pub fn each_turn_has_its_section()
    ensures count { (plan : Tables) (records : List TheRecord) →
        length (sections plan records) ≡ length records }
    ensures shown { (plan : Tables) (records : List TheRecord) (place : ℕ) (section : Section) →
        slice_get (sections plan records) place ≡ Some section →
        (slice_get records place ≡ Some section.owner) ×
        (section.paths ≡ after plan (take (place + 1) records)) }
{}

/// The paths that stand after a turn, by the turns that set up and take out the paths of the
/// picture, are exactly those of the turn's section.
pub fn paths_stand_as_long_as_the_office_has_them()
    ensures { (plan : Tables) (records : List TheRecord) (place : ℕ) (section : Section) →
        slice_get (sections plan records) place ≡ Some section → (path : ThePath) →
        has_path path (standing place (stays_of (sets_of (sections plan records)))) ≡
        has_path path section.paths }
{}

/// The dots of the picture are the four of each stay of a path, each in its switch and at its
/// field, once.
pub fn each_stay_is_drawn_once()
    ensures { (plan : Tables) (stays : List TheStay) →
        filter is_evidence (picture_figures plan stays) ≡
        flat_map (λ stay. path_dots plan stay.path) stays }
{}
