//! Lists of calls, made on a floor from the first on, and the law for them.
ghost use Rattle.std.specs.Prelude.{◌≡◌, List, [], ◌++◌, length, map, reverse, take, drop, min};
ghost use Rattle.floor.specs.State.{measure_of, price_of, tables_of};
ghost use Rattle.floor.specs.Tables.{no_tables};
ghost use Rattle.history.specs.Events.{events_of, tables_after};
ghost use Rattle.history.specs.Histories.{call_of};
ghost use Rattle.history.specs.Lawful.{Lawful};
ghost use Rattle.history.specs.Slack.{NoSlack};
ghost use Rattle.history.specs.Worked.{WorkedOut};

use crate::call::{Call, Event};
use floor::Floor;
use measure::Measure;

/// An empty floor with a measure. It has the empty history.
#[tactic(auto, using(crate::proofs::Lawful::lawful_empty))]
pub fn begin<M: Measure>(measure: M) -> Floor<M>
    ensures empty { tables_of result ≡ no_tables }
    ensures same { measure_of result ≡ measure }
    ensures law { Lawful [] result }
{
    Floor::new(measure)
}

/// Makes calls on a floor, from the first on, and fills in their events: as many as there are both
/// calls and room for events. Events past these stay.
///
/// Whatever history the floor has, it then has that history with these events; where it has the
/// empty one, it has these events alone. Beside this law the contract gives the very events, and the
/// very rows and seats that the floor holds then.
#[tactic(auto, using(crate::proofs::Told::one_more))]
pub fn make_all<M: Measure>(floor: &mut Floor<M>, calls: &[Call], events: &mut [Event])
    ensures law { let n = min (length calls.now) (length events.old) in
        (history : List Event) → Lawful history floor.old
        → Lawful (reverse (take n events.new) ++ history) floor.new }
    ensures alone { let n = min (length calls.now) (length events.old) in
        Lawful [] floor.old → Lawful (reverse (take n events.new)) floor.new }
    ensures calls { let n = min (length calls.now) (length events.old) in
        map call_of (take n events.new) ≡ take n calls.now }
    ensures rest { let n = min (length calls.now) (length events.old) in
        drop n events.new ≡ drop n events.old }
    ensures events { let n = min (length calls.now) (length events.old) in
        take n events.new
        ≡ events_of (price_of floor.old) (tables_of floor.old) (take n calls.now) }
    ensures tables { let n = min (length calls.now) (length events.old) in
        tables_of floor.new
        ≡ tables_after (price_of floor.old) (tables_of floor.old) (take n calls.now) }
    ensures same { measure_of floor.new ≡ measure_of floor.old }
{
    let n = calls.len().min(events.len());
    for k in 0..n {
        events[k] = calls[k].make(floor);
    }
}

/// Makes calls on an empty floor with a measure, as `make_all` does. Answers the floor.
///
/// Its history is these events, and so they obey the law. The last two clauses say what the law is:
/// it leaves no slack, and by the definitions that it and the floor's calls are stated in, twelve
/// settings worked by hand come out as worked.
#[tactic(auto, using(crate::proofs::Unique::no_slack, crate::proofs::Worked::worked_out))]
pub fn carry_out<M: Measure>(measure: M, calls: &[Call], events: &mut [Event]) -> Floor<M>
    ensures law { let n = min (length calls.now) (length events.old) in
        Lawful (reverse (take n events.new)) result }
    ensures calls { let n = min (length calls.now) (length events.old) in
        map call_of (take n events.new) ≡ take n calls.now }
    ensures rest { let n = min (length calls.now) (length events.old) in
        drop n events.new ≡ drop n events.old }
    ensures events { let n = min (length calls.now) (length events.old) in
        take n events.new ≡ events_of (M.price measure) no_tables (take n calls.now) }
    ensures tables { let n = min (length calls.now) (length events.old) in
        tables_of result ≡ tables_after (M.price measure) no_tables (take n calls.now) }
    ensures same { measure_of result ≡ measure }
    ensures no_slack { NoSlack }
    ensures worked { WorkedOut }
{
    let mut floor = begin(measure);
    make_all(&mut floor, calls, events);
    floor
}

/// Does nothing. Two floors whose measures give one price, and that both have one history, hold the
/// same rows and seats: so nothing hides in a floor of which no event tells.
#[tactic(auto, using(crate::proofs::Lawful::one_floor))]
pub fn one_floor<M: Measure, N: Measure>(a: &Floor<M>, b: &Floor<N>)
    ensures { (history : List Event) → price_of a.now ≡ price_of b.now → Lawful history a.now
        → Lawful history b.now → tables_of a.now ≡ tables_of b.now }
{}
