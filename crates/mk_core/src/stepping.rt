//! The core's step: the first condition that fails, and what an enabled event does.
ghost use Rattle.std.specs.Prelude.{◌≡◌, ◌≢◌, ◌↔◌, ℕ, ◌<◌, ◌≤◌, List, [], ◌∷◌, ◌++◌, IsTrue, MatchResult, IsOk, IfOk};
ghost use Rattle.std.specs.Prelude.{IfErr, OnOk, OnErr, replicate};
ghost use Rattle.mk_core.specs.{Moments.{IsWithinLimits, first_moment, flight_of, marker_at}, Calls.at_rest};
ghost use Rattle.mk_core.specs.{Moments.outside, Conditions.{seat_exists, is_in_range}};
ghost use Rattle.mk_core.specs.Enabled.{marker_may, holder_may, meets_own, failing_in_order, failing, IsEnabled};
ghost use Rattle.mk_core.specs.{Accesses.caller_number, Effects.{seats_behind, moment_behind, answer_by}};
ghost use Rattle.mk_core.specs.{Effects.answer_decided, History.{left, AreEnabled, calls}, Calls.entry_of};
ghost use Rattle.mk_core.specs.{Enabled.number_failing, History.{CoreState, CoreStandsFor}};
ghost use Rattle.mk_core.specs.declared.events.Event.{Event};

use crate::failing::Condition;
use crate::machine::{AT_REST, NOTHING_DONE, OUTSIDE};
use crate::order::{group, is_open_to};
use crate::ranges::has_phase;
use crate::table::Table;
use crate::{Answer, Config, Core, Event, Flight, Marker, NotEnabled, Placing, Seat, Step};
use mk_never::NoMemory;
use std::alloc::Global;

fn no_calls(alloc: Global, callers: usize) -> Result<Vec<Flight>, NoMemory>
    ensures { IfOk result (λ flights. flights.items ≡ replicate callers at_rest) }
{
    Ok(Vec::from_elem(alloc, AT_REST, callers)?)
}

fn markers_outside(alloc: Global, markers: usize) -> Result<Vec<Marker>, NoMemory>
    ensures { IfOk result (λ list. list.items ≡ replicate markers outside) }
{
    Ok(Vec::from_elem(alloc, OUTSIDE, markers)?)
}

impl Core {
    /// The core of this configuration after no event.
    fn of(alloc: Global, config: Config) -> Result<Core, NoMemory>
        requires { IsWithinLimits config }
        ensures { IfOk result (λ core. (core.config ≡ config) × (core.now ≡ first_moment config)) }
    {
        Ok(Core {
            table: Table::start(alloc, config.pages)?,
            flights: no_calls(alloc, config.callers as usize)?,
            holding: NOTHING_DONE,
            markers: markers_outside(alloc, 8)?,
            fresh_words: 0,
            config,
        })
    }

    /// The core after no event: all words are 0, and no seat is in the middle of anything.
    pub fn start(alloc: Global, config: &Config) -> Result<Core, NoMemory>
        requires within_limits { IsWithinLimits config.now }
        ensures config { IfOk result (λ core. core.config ≡ config.now) }
        ensures now { IfOk result (λ core. core.now ≡ first_moment config.now) }
        ensures stands { IfOk result (λ core. CoreStandsFor core []) }
    {
        Core::of(alloc, config.try_clone(alloc)?)
    }

    /// Whether the step of the turn's holder, whose call this is, meets its kind's own condition.
    fn holder_may(&self, flight: Flight, step: Step) -> bool
        ensures { result ≡ holder_may self.now.config self.now.now flight step }
    {
        match step {
            Step::Give => self.may_give(flight),
            Step::Head { page, value } => self.may_head(flight, page, value),
            Step::Used { page, value } => self.may_use(flight, page, value),
            Step::Quar { page, value } => self.may_quarantine(flight, page, value),
            Step::Grant => matches!(self.holding.placing, Placing::Used(_)),
            Step::Open(_) => self.is_run_gone(),
            Step::Mark { page, value } => self.may_mark(flight, page, value),
            Step::Wipe(word) => self.may_wipe(word),
            Step::Full => self.may_answer_full(flight),
            Step::Begin => self.may_begin(),
            Step::Close => self.may_close(),
            Step::End => self.may_end(),
            Step::Undirty(page) => self.may_undirty(page),
            Step::Black { page, value } => self.may_black(page, value),
            Step::Unblack(_) => self.may_unblack(),
            Step::Over => self.may_end_all(),
            _ => true,
        }
    }

    /// Whether the event meets its kind's own condition.
    fn meets_own(&self, event: Event) -> bool
        ensures { result ≡ meets_own self.now.config self.now.now event.seat event.step }
    {
        self.marker_may(self.marker_at(event.seat), event.step)
            && self.holder_may(self.flight(event.seat), event.step)
    }

    /// The first condition that fails of an event that comes next in the order of its call.
    fn failing_in_order(&self, event: Event) -> Option<Condition>
        ensures { number_failing result ≡ failing_in_order self.now.config self.now.now event }
    {
        let flight = self.flight(event.seat);
        if !self.is_in_range(event.seat, flight, event.step) {
            Some(Condition::Range)
        } else if !self.has_gates(event.seat, flight, event.step) {
            Some(Condition::Gates)
        } else if !has_phase(self.table.phase(), event.step) {
            Some(Condition::Phase)
        } else if !self.meets_own(event) {
            Some(Condition::Own)
        } else {
            None
        }
    }

    /// The first condition that fails.
    fn first_failing(&self, event: Event) -> Option<Condition>
        ensures { number_failing result ≡ failing self.now.config self.now.now event }
    {
        if !self.seat_exists(event.seat) {
            Some(Condition::Seat)
        } else if !is_open_to(event.seat, group(event.step)) {
            Some(Condition::Kind)
        } else if !self.is_in_order(event) {
            Some(Condition::Order)
        } else {
            self.failing_in_order(event)
        }
    }

    /// Sets what the seat is in the middle of after its step, whose access found this word. Returns the answer that the
    /// step decides.
    fn move_seat(&mut self, event: Event, found: u64) -> Option<Answer>
        requires { IsEnabled self.old.config self.old.now event }
        ensures seats { self.new
            ≡ record self.old {
              now = record self.old.now
                  { seats = seats_behind self.old.config self.old.now event.seat found event.step };
            } }
        ensures answer { result ≡ answer_by self.old.config self.old.now event.seat found event.step }
    {
        let flight = self.flight(event.seat);
        let holding = self.holding_behind(event.seat, flight, found, event.step);
        let answer = match event.seat {
            Seat::Caller(caller) => {
                let progress = self.progress(flight, found, event.step);
                if let Some(slot) = self.flights.get_mut(caller as usize) {
                    *slot = progress.flight;
                }
                progress.answer
            }
            Seat::Marker(marker) => {
                let behind = self.marker_behind(marker, found, event.step);
                if let Some(slot) = self.markers.get_mut(marker as usize) {
                    *slot = behind;
                }
                None
            }
            Seat::Host => None,
        };
        self.holding = holding;
        answer
    }

    /// Makes one event, if it is enabled.
    fn advance(&mut self, event: Event) -> Result<Option<Answer>, NotEnabled>
        ensures enabled { MatchResult result (λ _. IsEnabled self.old.config self.old.now event)
            (λ r. (failing self.old.config self.old.now event ≡ r.condition) × (1 ≤ r.condition)) }
        ensures answer { IfOk result (λ a. a ≡ answer_decided self.old.config self.old.now event) }
        ensures behind { OnOk result
            (self.new ≡ record { config = self.old.config; now = moment_behind self.old.config self.old.now event }) }
        ensures unchanged { OnErr result (self.new ≡ self.old) }
    {
        if let Some(failing) = self.first_failing(event) {
            return Err(NotEnabled {
                condition: failing.number(),
            });
        }
        let name = self.word_reached(event);
        let access = self.access(event);
        let found = self.table.word(name);
        let fresh_words = self.fresh_behind(self.flight(event.seat), event.step);
        let answer = self.move_seat(event, found);
        self.table.access(name, access);
        self.fresh_words = fresh_words;
        Ok(answer)
    }

    /// Makes one event, after every list of events for which the core stands. The answer is that of the call that the
    /// event decides, and None if it decides none. A compare and exchange that finds another value is an event too: it
    /// changes nothing, and decides nothing except in a `cas`.
    pub fn step(&mut self, event: Event) -> Result<Option<Answer>, NotEnabled>
        ensures exact { (events : List Event) → CoreStandsFor self.old events
            → (IsOk result ↔ AreEnabled self.old.config (events ++ event ∷ [])) }
        ensures answer { (events : List Event) → CoreStandsFor self.old events
            → IfOk result (λ a. calls self.old.config (events ++ event ∷ []) ≡ calls self.old.config events
            ++ entry_of (caller_number event.seat) (flight_of (left self.old.config events).now event.seat).op a) }
        ensures stands { (events : List Event) → CoreStandsFor self.old events
            → OnOk result (CoreStandsFor self.new (events ++ event ∷ [])) }
        ensures not_enabled { IfErr result (λ r. (failing self.old.config self.old.now event ≡ r.condition)
            × (1 ≤ r.condition)) }
        ensures config { self.new.config ≡ self.old.config }
        ensures unchanged { OnErr result (self.new ≡ self.old) }
    {
        self.advance(event)
    }
}
