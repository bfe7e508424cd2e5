//! Trials: the first on one member of a trunk group, the second on the next idle one. Each tries to
//! join the parties of a job to its member.

ghost use Rattle.std.specs.Prelude.{◌≡◌, ◌<◌, find, ◌≤◌, length};
ghost use Rattle.xbar_plan.specs.Tables.{is_faulty};
ghost use Rattle.xbar_office.specs.Trial.{called_leg as called_leg_of, with_called as with_called_of, matched as matched_of, links, called_links, end_of_chosen as end_of_chosen_by, trial as trial_of};
ghost use Rattle.xbar_office.specs.TwoTrials.{second_decides as second_decides_of, two_trials as two_trials_of};

use crate::cards::Cards;
use crate::members::next_idle;
use crate::reply::Card;
use crate::sets::find_path;
use xbar_equip::{Len, Link, Path, Ten};
use xbar_plan::{Member, Plan};

/// The lines to be joined to a member of a trunk group.
#[derive(Clone, Copy, Debug, PartialEq, Eq)]
pub struct Parties {
    pub calling: Len,
    /// The called line, only in a call inside the office.
    pub called: Option<Len>,
}

/// A line and the trunk place that it is to be joined to.
#[derive(Clone, Copy, Debug, PartialEq, Eq)]
pub struct Leg {
    pub line: Len,
    pub place: Ten,
}

/// The paths of a call: the calling line's, and in a call inside the office the called line's.
#[derive(Clone, Copy, Debug, PartialEq, Eq)]
pub struct CallPaths {
    pub calling: Path,
    pub called: Option<Path>,
}

impl CallPaths {
    ghost use Rattle.xbar_office.specs.AddedPaths.{call_count};

    /// The number of paths: 1, or 2 inside the office.
    pub fn count(&self) -> usize
        ensures { result ≡ call_count self.now }
    {
        match self.called {
            None => 1,
            Some(_) => 2,
        }
    }
}

/// How a trial ends.
#[derive(Clone, Copy, Debug, PartialEq, Eq)]
pub enum TrialEnd {
    /// These paths were chosen, and none of their links is out of order.
    Chosen(CallPaths),
    /// The first link of the chosen paths that is out of order.
    Faulty(Link),
    /// One of the paths found no idle channel.
    NoChannel,
}

/// The called line and the member's second place, if there are both.
fn called_leg(parties: &Parties, member: &Member) -> Option<Leg>
    ensures { result ≡ called_leg_of parties.now member.now }
{
    match (parties.called, member.second) {
        (Some(line), Some(place)) => Some(Leg { line, place }),
        _ => None,
    }
}

/// The calling path with a path for the leg, if there is a leg. `None` if the leg has no idle
/// channel.
fn with_called(paths: &[Path], start: u8, leg: Option<Leg>, calling: &Path) -> Option<CallPaths>
    requires { start < 10 }
    ensures { result ≡ with_called_of paths.now start leg calling.now }
{
    match leg {
        None => Some(CallPaths {
            calling: *calling,
            called: None,
        }),
        Some(leg) => {
            let called = find_path(paths, &Some(*calling), leg.line, leg.place, start)?;
            Some(CallPaths {
                calling: *calling,
                called: Some(called),
            })
        }
    }
}

/// The paths that join the parties to the member. `None` if one of them has no idle channel.
fn matched(paths: &[Path], start: u8, parties: &Parties, member: &Member) -> Option<CallPaths>
    requires { start < 10 }
    ensures { result ≡ matched_of paths.now start parties.now member.now }
{
    let calling = find_path(paths, &None, parties.calling, member.first, start)?;
    with_called(paths, start, called_leg(parties, member), &calling)
}

/// The first link of the path that is out of order.
fn first_faulty(plan: &Plan, path: &Path) -> Option<Link>
    ensures { result ≡ find (is_faulty plan.now) (links path.now) }
{
    if plan.faulty(path.line_link()) {
        return Some(path.line_link());
    }
    if plan.faulty(path.junctor()) {
        return Some(path.junctor());
    }
    if plan.faulty(path.trunk_link()) {
        return Some(path.trunk_link());
    }
    None
}

/// The first link of the called path, if there is one, that is out of order.
fn first_faulty_called(plan: &Plan, called: &Option<Path>) -> Option<Link>
    ensures { result ≡ find (is_faulty plan.now) (called_links called.now) }
{
    match called {
        None => None,
        Some(path) => first_faulty(plan, path),
    }
}

/// The end of a trial that chose these paths.
fn end_of_chosen(plan: &Plan, call: &CallPaths) -> TrialEnd
    ensures { result ≡ end_of_chosen_by plan.now call.now }
{
    if let Some(link) = first_faulty(plan, &call.calling) {
        return TrialEnd::Faulty(link);
    }
    match first_faulty_called(plan, &call.called) {
        Some(link) => TrialEnd::Faulty(link),
        None => TrialEnd::Chosen(*call),
    }
}

impl TrialEnd {
    ghost use Rattle.xbar_office.specs.Trial.{end_of};

    /// The end of a trial that found these paths, or `None` if it found no channel.
    pub fn of(plan: &Plan, found: Option<CallPaths>) -> Self
        ensures { result ≡ end_of plan.now found }
    {
        match found {
            None => TrialEnd::NoChannel,
            Some(call) => end_of_chosen(plan, &call),
        }
    }
}

/// Makes a trial on a member, with the channel test from `start` on.
pub fn trial(plan: &Plan, paths: &[Path], start: u8, parties: &Parties, member: &Member) -> TrialEnd
    requires { start < 10 }
    ensures { result ≡ trial_of plan.now paths.now start parties.now member.now }
{
    TrialEnd::of(plan, matched(paths, start, parties, member))
}

/// What a successful trial chose.
#[derive(Clone, Copy, Debug, PartialEq, Eq)]
pub struct Choice {
    /// The number of the trial, 1 or 2.
    pub trial: u8,
    /// The index of the member in its group, counted from 0.
    pub index: u8,
    pub paths: CallPaths,
}

/// The outcome of two trials, with a card for each that met a faulty link.
#[derive(Debug, Drop)]
pub struct Trials {
    /// `None` if both trials failed.
    pub choice: Option<Choice>,
    pub cards: Cards,
}

impl Trials {
    ghost use Rattle.std.specs.Prelude.{[], length, ◌≤◌, Some};
    ghost use Rattle.xbar_office.specs.Done.{chosen_paths};

    /// The chosen paths, if any.
    pub fn paths(&self) -> Option<CallPaths>
        ensures { result ≡ chosen_paths self.now.choice }
    {
        match &self.choice {
            Some(choice) => Some(choice.paths),
            None => None,
        }
    }

    /// The outcome if the first trial chose these paths. There is then no second one.
    pub fn first(index: u8, paths: &CallPaths) -> Self
        ensures { result ≡ record {
          choice = Some
              (record { trial = 1; index = index; paths = paths.now });
          cards = [];
        } }
    {
        let choice = Choice {
            trial: 1,
            index,
            paths: *paths,
        };
        Trials {
            choice: Some(choice),
            cards: Cards::new(),
        }
    }

    /// The outcome if the first trial failed, with this card or with none, and the second, on the
    /// member at `index`, ended with `end`.
    pub fn second(mut cards: Cards, index: u8, end: TrialEnd) -> Self
        requires { length cards ≤ 1 }
        ensures { result ≡ second_decides_of cards index end }
    {
        match end {
            TrialEnd::Chosen(paths) => {
                let choice = Some(Choice {
                    trial: 2,
                    index,
                    paths,
                });
                return Trials { choice, cards };
            }
            TrialEnd::Faulty(link) => cards.push(Card { trial: 2, link }),
            TrialEnd::NoChannel => {}
        }
        Trials {
            choice: None,
            cards,
        }
    }
}

/// Makes the first trial on member `first`, with the channels from 0 on. If it fails, makes the
/// second on the next idle member, or on the same one if there is none, with the channels from 5
/// on.
pub fn two_trials(
    plan: &Plan,
    paths: &[Path],
    parties: &Parties,
    members: &[Member],
    first: usize,
) -> Trials
    requires index { first < length members.now }
    requires size { length members.now ≤ 40 }
    ensures { result ≡ two_trials_of plan.now paths.now parties.now members.now first }
{
    let cards = match trial(plan, paths, 0, parties, &members[first]) {
        TrialEnd::Chosen(call) => return Trials::first(first as u8, &call),
        TrialEnd::Faulty(link) => Cards::one(Card { trial: 1, link }),
        TrialEnd::NoChannel => Cards::new(),
    };
    let next = next_idle(paths, members, first);
    Trials::second(
        cards,
        next as u8,
        trial(plan, paths, 5, parties, &members[next]),
    )
}
