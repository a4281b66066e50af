// The search for a combination of classes that no live line claims.
ghost use Rattle.std.specs.Prelude.{◌≡◌, map, MatchOption};
ghost use Rattle.gaps.specs.Gaps.{kept, users_of, users_with, first_gap, NoGap, FirstGap};

use classes::{Classes, Role};
use lines::{ClassSet, Counts, LineState, LineTable};

// The state if it is a live line that has the class, else free. The role picks the set: with a closure the contract would
// have to say what that answers for every line, where it now names the role.
fn kept(state: LineState, role: Role, class: u8) -> LineState
    ensures { result ≡ kept role class state }
{
    match state {
        LineState::Live(line) if line.set(role).has(class) => state,
        _ => LineState::Free,
    }
}

// The users of a live line that has the location class.
fn users_of(state: &LineState, location: u8) -> ClassSet
    ensures { result ≡ users_of location state.now }
{
    match state {
        LineState::Live(line) if line.locations.has(location) => line.users,
        _ => ClassSet::EMPTY,
    }
}

// The users of all live lines that have the location class.
fn users_at(states: &[LineState], location: u8) -> ClassSet
    ensures { result ≡ users_with location (record { 0 = 0 }) states.now }
{
    states.iter().fold(
        ClassSet::EMPTY,
        |users, state| users.union(users_of(state, location)),
    )
}

// The table with the live lines that have the class, and every other number free.
// The array's `map` misses the speed bar here: with it the search takes half as long again.
fn narrowed(table: &LineTable, role: Role, class: u8) -> LineTable
    ensures { result.states ≡ map (kept role class) table.now.states }
{
    let mut narrow = *table;
    let states: &mut [LineState] = &mut narrow.states;
    for state in states.iter_mut() {
        *state = kept(*state, role, class);
    }
    narrow
}

// The first combination that no live line claims, counting the user class fastest and the vehicle class slowest. At each
// level only the lines that still match are looked at, so that the innermost work is the test of a bit.
// Each loop counts the classes passed. One over `1..=n` was tried: it ends in two ways, and each level's proof splits by all
// within it.
#[tactic(auto, using(crate::proofs::Meaning::gap_meaning, crate::proofs::Remaining::into_vehicle, crate::proofs::Remaining::into_time, crate::proofs::Remaining::into_location))]
pub fn first_gap(table: &LineTable, counts: &Counts) -> Option<Classes>
    ensures value { result ≡ first_gap counts.now table.now.states }
    ensures meaning { MatchOption result (NoGap counts.now table.now.states) (FirstGap counts.now table.now.states) }
{
    let mut gap = None;
    'search: for vehicles_passed in 0..counts.vehicles {
        let vehicle = vehicles_passed + 1;
        let of_vehicle = narrowed(table, Role::Vehicle, vehicle);
        for times_passed in 0..counts.times {
            let time = times_passed + 1;
            let of_time = narrowed(&of_vehicle, Role::Time, time);
            for locations_passed in 0..counts.locations {
                let location = locations_passed + 1;
                let users = users_at(&of_time.states, location);
                for users_passed in 0..counts.users {
                    let user = users_passed + 1;
                    if !users.has(user) {
                        gap = Some(Classes {
                            vehicle,
                            time,
                            location,
                            user,
                        });
                        break 'search;
                    }
                }
            }
        }
    }
    gap
}
