//! Laws of the drawing. Each function does nothing: its contract is the law.

ghost use Rattle.std.specs.Prelude.{◌≡◌, ◌++◌, [], ◌∷◌, List, filter, flat_map, map};
ghost use Rattle.xbar_equip.specs.declared.path.Path.{Path as ThePath};
ghost use Rattle.xbar_office_drawing.specs.CardFace.{card_face, card_words};
ghost use Rattle.xbar_office_drawing.specs.Drawing.{drawing_parts, path_alone};
ghost use Rattle.xbar_office_drawing.specs.Drawn.{figures_in, is_evidence, path_evidence};
ghost use Rattle.xbar_office_drawing.specs.Office.{office};
ghost use Rattle.xbar_office_drawing.specs.PathInOffice.{path_dots};
ghost use Rattle.xbar_office_drawing.specs.Shapes.{shape_figures};
ghost use Rattle.xbar_office_drawing.specs.Switches.{path_card};
ghost use Rattle.xbar_office_drawing.specs.declared.owned_card.OwnedCard.{OwnedCard as TheCard};
ghost use Rattle.xbar_plan.specs.Tables.{Tables};

/// The closed crosspoints that are drawn are exactly those of the paths, each once in the picture
/// of the office and once on the card of its path, and each trouble card is drawn once. For the
/// dots, and the texts of words, fields and cards, among all figures of a drawing are first the
/// four dots of each path in the office, each in its switch and at its field; then those of the
/// four crosspoints of each path on its card, each in its switch, at its field and its value; and
/// then those of the cards. What is copied has none.
pub fn each_crosspoint_and_each_card_is_drawn_once()
    ensures drawn { (plan : Tables) (paths : List ThePath) (cards : List TheCard) →
        filter is_evidence (figures_in (drawing_parts plan paths cards)) ≡
        flat_map (path_dots plan) paths ++ flat_map path_evidence paths ++ map card_words cards }
    ensures copied { filter is_evidence shape_figures ≡ [] }
{}

/// The same for what a page shows one by one: the office without its paths has no crosspoint, a
/// path in it has its four dots, and the card of a path and a trouble card have what they have in
/// a drawing.
pub fn each_part_of_a_page_is_drawn_once()
    ensures office { (plan : Tables) → filter is_evidence (office plan) ≡ [] }
    ensures path { (plan : Tables) (path : ThePath) →
        filter is_evidence (path_alone plan path) ≡ path_dots plan path }
    ensures switches { (plan : Tables) (path : ThePath) →
        filter is_evidence (path_card plan path) ≡ path_evidence path }
    ensures card { (card : TheCard) →
        filter is_evidence (card_face card) ≡ card_words card ∷ [] }
{}
