/// What the engine does with an input, in an office with a plan and markers.
#[derive(Clone, Copy, Debug, PartialEq, Eq)]
pub enum Task {
    /// Replays rows of traffic, and writes their records.
    Replay,
    /// Replays rows of traffic, and describes each step of each marker.
    Walk(WalkForm),
    /// Does rows of traffic, and shows the office as it then stands.
    Look(LookForm),
    /// Audits records.
    Audit,
    /// Draws the office after records.
    Draw(DrawForm),
}

/// All tasks, each at its number.
pub const TASKS: [Task; 11] = [
    Task::Replay,
    Task::Walk(WalkForm::Each),
    Task::Walk(WalkForm::Short),
    Task::Walk(WalkForm::Json),
    Task::Audit,
    Task::Draw(DrawForm::Text),
    Task::Draw(DrawForm::Svg),
    Task::Draw(DrawForm::Page),
    Task::Look(LookForm::Words),
    Task::Look(LookForm::Json),
    Task::Look(LookForm::Svg),
];

impl Task {
    ghost use Rattle.std.specs.Prelude.{◌≡◌, slice_get};
    ghost use Rattle.crossbar5_task.specs.Tasks.{is_on_rows, tasks};

    /// The task of this number, if there is one.
    pub fn of_number(number: u32) -> Option<Task>
        ensures { result ≡ slice_get tasks number }
    {
        TASKS.get(number as usize).copied()
    }

    /// Its name in tables, and with other letters and spaces in the library's declarations.
    pub fn name(self) -> &'static str {
        match self {
            Task::Replay => "replay",
            Task::Walk(WalkForm::Each) => "walk",
            Task::Walk(WalkForm::Short) => "walk in short",
            Task::Walk(WalkForm::Json) => "walk as JSON",
            Task::Audit => "audit",
            Task::Draw(DrawForm::Text) => "draw as text",
            Task::Draw(DrawForm::Svg) => "draw",
            Task::Draw(DrawForm::Page) => "page",
            Task::Look(LookForm::Words) => "look",
            Task::Look(LookForm::Json) => "look as JSON",
            Task::Look(LookForm::Svg) => "look in SVG",
        }
    }

    /// Whether its input is rows of traffic, which markers do. Otherwise it is records.
    pub fn is_on_rows(self) -> bool
        ensures { result ≡ is_on_rows self }
    {
        match self {
            Task::Replay | Task::Walk(_) | Task::Look(_) => true,
            Task::Audit | Task::Draw(_) => false,
        }
    }
}

/// How a walk is written.
#[derive(Clone, Copy, Debug, PartialEq, Eq)]
pub enum WalkForm {
    /// In words, with a line for each step.
    Each,
    /// In words, with the tests of a row of switches in one line.
    Short,
    /// As JSON objects, one for each event, each on a line of its own.
    Json,
}

/// How an office that hasn't settled is shown.
#[derive(Clone, Copy, Debug, PartialEq, Eq)]
pub enum LookForm {
    /// In words.
    Words,
    /// As one JSON object, with the events of the last row.
    Json,
    /// As one drawing in SVG.
    Svg,
}

/// How the office after records is drawn.
#[derive(Clone, Copy, Debug, PartialEq, Eq)]
pub enum DrawForm {
    /// As text for a terminal of 80 columns.
    Text,
    /// As one drawing in SVG.
    Svg,
    /// As one HTML page, turn by turn.
    Page,
}
