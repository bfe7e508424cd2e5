//! Laws of the text. Each function does nothing: its contract is the law.

ghost use Rattle.std.specs.Prelude.{◌≡◌, ◌+◌, ◌∷◌, List, codes, filter, flat_map, length, map, take};
ghost use Rattle.xbar_equip.specs.declared.path.Path.{Path as ThePath};
ghost use Rattle.xbar_office.specs.declared.reply.Record.{Record as TheRecord};
ghost use Rattle.xbar_plan.specs.Lawful.{IsLawful};
ghost use Rattle.xbar_plan.specs.Tables.{Tables};
ghost use Rattle.xbar_office_text.specs.Cards.{title_row};
ghost use Rattle.xbar_office_text.specs.Glance.{glance_line};
ghost use Rattle.xbar_office_text.specs.Text.{office_text};
ghost use Rattle.xbar_equip.specs.TextLines.{lines};
ghost use Rattle.xbar_office_text.specs.Titles.{is_title};

/// Under a lawful plan, if there are paths, the first lines of the text are a heading and one line
/// for each path of the set, in its order.
pub fn each_path_has_one_line()
    ensures { (plan : Tables) (path : ThePath) (paths : List ThePath) (records : List TheRecord) →
        IsLawful plan → take (2 + length paths) (lines (office_text plan (path ∷ paths) records)) ≡
        codes "PATHS AT A GLANCE\n" ∷ map (glance_line plan) (path ∷ paths) }
{}

/// Under a lawful plan each card is drawn once: the titles among the lines of the text are those
/// of all cards, in the order of the records and of their trials.
pub fn each_card_is_drawn_once()
    ensures { (plan : Tables) (paths : List ThePath) (records : List TheRecord) → IsLawful plan →
        filter is_title (lines (office_text plan paths records)) ≡
        map title_row (flat_map (λ owner. owner.reply.cards) records) }
{}
