// Carrying out one record on the floor.
ghost use Rattle.std.specs.Prelude.{◌≡◌, List, ◌∷◌};
ghost use Rattle.history.specs.Events.{event_of, tables_then};
ghost use Rattle.history.specs.Lawful.{Lawful};
ghost use Rattle.history.specs.declared.call.Event.{Event};
ghost use Rattle.job.specs.Reads.{content};
ghost use Rattle.lines.specs.Texts.{named};
ghost use Rattle.run.specs.Parts.{as_said};
ghost use Rattle.run.specs.State.{floor_of, measure_in, price_in, state};
ghost use Rattle.run.specs.Turns.{call_in, event_said, faulted, name_in, told};

use crate::fault::Fault;
use crate::run::{Run, Said};
use history::{Call, Event};
use job::{Name, Record};
use lines::Line;
use measure::Measure;

// The name in a record, if it has one.
fn record_name<'a>(found: Record<'a>) -> Option<Name<'a>>
    ensures { named result ≡ name_in (content found.entry) }
{
    match found {
        Record::Place(_, named) | Record::Try(_, named) => named.map(|named| named.name),
        Record::Row(_) | Record::Withdraw(_) => None,
    }
}

// The call of the floor that a record asks for.
fn record_call<'a>(found: Record<'a>) -> Call
    ensures { result ≡ call_in (content found.entry) }
{
    match found {
        Record::Row(row) => Call::AddRow(row),
        Record::Place(cell, _) => Call::Place(cell),
        Record::Withdraw(number) => Call::Withdraw(number),
        Record::Try(cell, _) => Call::Try(cell),
    }
}

// The line of an event of a record with this index, and a name or none, or why its call was
// refused.
fn event_line<'a>(event: Event, index: u16, name: Option<Name<'a>>) -> Result<Line<'a>, Fault>
    ensures { told index (named name.entry) result ≡ event_said index (named name.entry) event }
{
    match event {
        Event::Added(_, answer) => {
            answer?;
            Ok(Line::Granted { index, name })
        }
        Event::Withdrawn(_, answer) => {
            answer?;
            Ok(Line::Granted { index, name })
        }
        Event::Placed(_, answer) | Event::Tried(_, answer) => {
            let placing = answer?;
            Ok(Line::Seated {
                index,
                line: placing.spot.line,
                site: placing.spot.site,
                rise: placing.rise,
                name,
            })
        }
    }
}

impl<'a> Said<'a> {
    // What is said of a fault of a record with this index, and a name or none.
    pub(crate) fn of_fault(fault: Fault, index: u16, name: Option<Name<'a>>) -> Said<'a>
        ensures { as_said result ≡ faulted index (named name.entry) fault }
    {
        Said {
            line: fault.line(index, name),
            fault: Some(fault),
        }
    }

    // What is said of an event of a record with this index, and a name or none.
    fn of_event(event: Event, index: u16, name: Option<Name<'a>>) -> Said<'a>
        ensures { as_said result ≡ event_said index (named name.entry) event }
    {
        match event_line(event, index, name) {
            Ok(line) => Said { line, fault: None },
            Err(fault) => Said::of_fault(fault, index, name),
        }
    }
}

impl<'a, M: Measure> Run<'a, M> {
    // Carries out a record with this index on the floor: what is said of it.
    pub(crate) fn carry_out_record(&mut self, index: u16, found: Record<'a>) -> Said<'a>
        ensures said { as_said result ≡ event_said index (name_in (content found.entry))
            (event_of (price_in self.old) (state self.old).tables (call_in (content found.entry))) }
        ensures tables { (state self.new).tables ≡ tables_then (price_in self.old)
            (state self.old).tables (call_in (content found.entry)) }
        ensures same { measure_in self.new ≡ measure_in self.old }
        ensures reader { self.new.reader ≡ self.old.reader }
        ensures fault { self.new.fault ≡ self.old.fault }
        ensures law { (history : List Event) → Lawful history (floor_of self.old)
            → Lawful (event_of (price_in self.old) (state self.old).tables
            (call_in (content found.entry)) ∷ history) (floor_of self.new) }
    {
        let event = record_call(found).make(&mut self.floor);
        Said::of_event(event, index, record_name(found))
    }
}
