//! The run of a schedule.
ghost use Rattle.std.specs.Prelude.{◌≡◌, ◌≢◌, ℕ, [], length, All, None, Some, IfOk, IfErr, OnOk, IsTrue};
ghost use Rattle.mk_script.specs.Scopes.{script_names};
ghost use Rattle.mk_core.specs.{Conditions.seat_exists, History.{AreEnabled, CallsAreAdmitted}};
ghost use Rattle.mk_check.specs.Declarations.{config_of};
ghost use Rattle.mk_laws.specs.Promises.{KeepsAllPromises};
ghost use Rattle.mk_replay.specs.Replays.{event_of_entry, failing_entry, next_op_for, history_of, refusal_of};
ghost use Rattle.mk_replay.specs.Replays.{AreTextsOf, PlayerHasRoom, TakeEvent, IsRunAfter, ArePlayersOf};
ghost use Rattle.mk_replay.specs.Replays.{TakesEntry, IsNotEnabled};
ghost use Rattle.mk_replay.specs.declared.replaying.ReplayStop.TheVariants as ReplayStop;

use crate::players::Player;
use crate::steps::{ends_call, step_of};
use crate::{Entry, Schedule};
use mk_check::{Checked, Text};
use mk_core::{Answer, Core, Event, NotEnabled, Seat};
use mk_never::{NoMemory, Op};
use std::alloc::Global;

/// Why a schedule isn't run to its end: the event at this place of this line, both from 1, isn't enabled,
/// and this is the first of the seven conditions that fails; or no memory.
#[derive(Clone, Copy, Debug, PartialEq, Eq)]
pub enum ReplayStop {
    NotEnabled {
        line: u64,
        event: u64,
        condition: u64,
    },
    NoMemory,
}

impl From<NoMemory> for ReplayStop {
    ghost use Rattle.std.specs.Prelude.{◌≡◌};
    ghost use Rattle.mk_replay.specs.declared.replaying.ReplayStop.TheVariants.{NoMemory};

    ghost from_gives = { λ _ stop. stop ≡ NoMemory };

    fn from(_: NoMemory) -> ReplayStop {
        ReplayStop::NoMemory
    }
}

/// A core, and the scripts of a program that make its callers' events.
#[derive(Drop)]
struct Run {
    core: Core,
    players: Vec<Player>,
}

/// The scripts of a program, each before its first answer.
fn players(alloc: Global, program: &Checked) -> Result<Vec<Player>, NoMemory>
    ensures players { IfOk result (λ players. ArePlayersOf program.now [] players.items) }
    ensures count { IfOk result (λ players. length players.items ≡ length (script_names program.now)) }
{
    let mut players = Vec::new(alloc);
    for script in 0..program.scripts() {
        let player = Player::start(alloc, program, script)?;
        players.push(player)?;
    }
    Ok(players)
}

impl Run {
    ghost use Rattle.std.specs.Prelude.{List};
    ghost use Rattle.mk_core.specs.declared.events.Event.{Event};
    ghost use Rattle.mk_script.specs.declared.items.Item.{Item};

    /// The program's scripts and heap after no event.
    fn start(alloc: Global, program: &Checked) -> Result<Run, NoMemory>
        ensures { IfOk result (IsRunAfter program.now []) }
    {
        let config = program.config(alloc, 8)?;
        Ok(Run {
            core: Core::start(alloc, &config)?,
            players: players(alloc, program)?,
        })
    }

    /// The next operation of a caller's script.
    fn op(&self, seat: Seat) -> Option<Op>
        ensures { (program : List Item) (es : List Event) → IsRunAfter program es self.now
            → IsTrue (seat_exists (config_of program 8) seat) → result ≡ next_op_for program es seat }
    {
        let Seat::Caller(caller) = seat else {
            return None;
        };
        self.players.get(caller as usize)?.feed.op()
    }

    /// The event of an entry; where its seat doesn't exist, some event of that seat.
    fn event(&self, entry: Entry) -> Event
        ensures seat { result.seat ≡ entry.seat }
        ensures exact { (program : List Item) (es : List Event) → IsRunAfter program es self.now
            → IsTrue (seat_exists (config_of program 8) entry.seat) → result ≡ event_of_entry program es entry }
    {
        Event {
            seat: entry.seat,
            step: step_of(entry.form, self.op(entry.seat)),
        }
    }

    /// The script of a caller that made this event, which decided this answer, if any, goes on.
    fn follow(
        &mut self,
        alloc: Global,
        event: Event,
        decided: Option<Answer>,
    ) -> Result<(), NoMemory>
        requires { All PlayerHasRoom self.old.players.items }
        ensures core { self.new.core ≡ self.old.core }
        ensures count { length self.new.players.items ≡ length self.old.players.items }
        ensures players { OnOk result (TakeEvent event decided self.old.players.items self.new.players.items) }
    {
        let Seat::Caller(caller) = event.seat else {
            return Ok(());
        };
        let Some(player) = self.players.get_mut(caller as usize) else {
            return Ok(());
        };
        player.follow(alloc, decided, ends_call(event.step))
    }

    /// One entry of the schedule.
    fn step(&mut self, alloc: Global, entry: Entry) -> Result<(), ReplayStop>
        requires { All PlayerHasRoom self.old.players.items }
        ensures ok { (program : List Item) (es : List Event) → IsRunAfter program es self.old
            → OnOk result (TakesEntry program es entry self.new) }
        ensures stop { (program : List Item) (es : List Event) → IsRunAfter program es self.old
            → IfErr result (λ stop. stop ≢ ReplayStop.NoMemory → IsNotEnabled program es entry stop) }
    {
        let event = self.event(entry);
        match self.core.step(event) {
            Ok(decided) => Ok(self.follow(alloc, event, decided)?),
            Err(NotEnabled { condition }) => Err(ReplayStop::NotEnabled {
                line: entry.line,
                event: entry.place,
                condition,
            }),
        }
    }

    /// The scripts' texts so far.
    fn texts(&self, alloc: Global) -> Result<Vec<Text>, NoMemory>
        ensures { (program : List Item) (es : List Event) → IsRunAfter program es self.now
            → IfOk result (λ texts. AreTextsOf program es texts.items) }
    {
        let mut texts = Vec::new(alloc);
        for player in &self.players {
            let text = player.text(alloc)?;
            texts.push(text)?;
        }
        Ok(texts)
    }
}

/// Runs a schedule's events in order, each caller's with its script's next operation, on a heap for the
/// program's scripts with eight markers. The texts are those so far when the schedule ends, and its history
/// keeps all promises.
pub fn replay(
    alloc: Global,
    program: &Checked,
    schedule: &Schedule,
) -> Result<Vec<Text>, ReplayStop>
    ensures enabled { OnOk result (refusal_of program.now schedule.now ≡ None) }
    ensures history { OnOk result (AreEnabled (config_of program.now 8) (history_of program.now schedule.now)) }
    ensures admitted { OnOk result (CallsAreAdmitted (config_of program.now 8) (history_of program.now schedule.now)) }
    ensures promises { OnOk result (KeepsAllPromises (config_of program.now 8) (history_of program.now schedule.now)) }
    ensures texts { IfOk result (λ texts. AreTextsOf program.now (history_of program.now schedule.now) texts.items) }
    ensures not_enabled { IfErr result (λ stop. stop ≢ ReplayStop.NoMemory
        → refusal_of program.now schedule.now ≡ Some stop) }
{
    // The program is well typed, so its scripts ask for nothing that isn't admitted.
    let _well_typed = program.program();
    let mut run = Run::start(alloc, program)?;
    for entry in schedule.entries() {
        run.step(alloc, *entry)?;
    }
    Ok(run.texts(alloc)?)
}
