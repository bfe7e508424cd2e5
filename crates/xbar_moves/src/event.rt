use xbar_equip::Conn;
use xbar_jobs::Answer;
use xbar_office::Record;

/// The outcome of a marker's step.
#[derive(Debug, Drop, PartialEq, Eq)]
pub enum Event {
    /// The marker is idle and made no step.
    Idle,
    /// A step was made with none of the other outcomes, for example a test, the turn or an effect.
    Moved,
    /// The connector that the marker requested or tried to seize is held.
    Refused {
        conn: Conn,
        /// The number of the marker that holds it.
        holder: u32,
    },
    /// The connector that the marker requested or tried to seize is free, but this marker has
    /// requested it too and has priority.
    Preferred(u32),
    /// The last connector of a job past its turn was freed, and the marker is idle. This is the
    /// job's record.
    Finished(Record),
}

impl Event {
    ghost use Rattle.std.specs.Prelude.{◌≡◌, ℕ, false};
    ghost use Rattle.turns.specs.Attempt.{act, asked_in};
    ghost use Rattle.turns.specs.Runs.{is_finished};
    ghost use Rattle.xbar_jobs.specs.Attempt.{Attempt};
    ghost use Rattle.xbar_moves.specs.Moves.{event_of, refused_by};

    /// The outcome of a step that found the connector that it asked for held by `holder`. `Moved`
    /// if it asked for none.
    fn of_refusal(asked: Option<Conn>, holder: u32) -> Self
        ensures { result ≡ refused_by holder asked }
    {
        match asked {
            Some(conn) => Event::Refused { conn, holder },
            None => Event::Moved,
        }
    }

    /// The outcome of a step by its answer, unless it was the last of its job. `asked` is the
    /// connector that it requested or tried to seize, if any.
    pub fn of_answer(asked: Option<Conn>, answer: Answer) -> Self
        ensures { (k number : ℕ) (a after : Attempt) → asked ≡ asked_in a.phase
            → (answer ≡ Answer.Done → is_finished (act after) ≡ false)
            → result ≡ event_of k number a after answer }
    {
        match answer {
            Answer::Held(holder) => Event::of_refusal(asked, holder),
            Answer::Preferred(other) => Event::Preferred(other),
            Answer::Asked(_)
            | Answer::Seized
            | Answer::Again(_)
            | Answer::Value(_)
            | Answer::Turn(_)
            | Answer::Done => Event::Moved,
        }
    }
}

/// The outcome of asking a marker to give back what it holds.
#[derive(Clone, Copy, Debug, PartialEq, Eq)]
pub enum Given {
    /// The marker holds nothing any more, and is at the beginning of its job.
    Given,
    /// The marker is past its turn, and keeps what it holds until its job is done.
    PastTurn,
    /// The marker has no job, or nothing is left of it.
    Idle,
}

impl Given {
    ghost use Rattle.std.specs.Prelude.{◌≡◌};
    ghost use Rattle.xbar_moves.specs.Moves.{given_if};

    /// The outcome for a marker that is idle or not, and past its turn or not.
    pub fn of(is_idle: bool, is_past_turn: bool) -> Self
        ensures { result ≡ given_if is_idle is_past_turn }
    {
        if is_idle {
            Given::Idle
        } else if is_past_turn {
            Given::PastTurn
        } else {
            Given::Given
        }
    }
}
