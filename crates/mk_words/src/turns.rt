//! The turn, which one seat has at a time.
ghost use Rattle.std.specs.Prelude.{◌≡◌, ◌+◌, ◌<◌, IfOk, IfErr, length, true};
ghost use Rattle.mk_core.specs.{Calls.at_rest};
ghost use Rattle.mk_core.specs.{Counts.{TalliesAreExact, TalliesAreTidy, IsTidy}, History.IsHistory};
ghost use Rattle.mk_words.specs.{PageMaps.IsOnPage, States.{CallersAreBeforeOver, Has, IsTurn, call_of}};
ghost use Rattle.mk_words.specs.{Laws.turn_prop, PageMaps.{is_told, page_told}};
ghost use Rattle.mk_words.specs.{Steps.{IsEnabledTo, MayPerform, Finds, Tells}};
ghost use Rattle.mk_words.specs.TurnSteps.{IsFresh, StaysTurn, GatesAre, Acts, FollowsStep};
ghost use Rattle.mk_core.specs.declared.events.Step.TheVariants as step;

use crate::gates::{AllHeld, AnyGates, Gates};
use crate::indexes::page_of;
use crate::passes::Pass;
use crate::tokens::TurnToken;
use crate::words::Words;
use mk_core::lower::books::{PageMap, QuarantineWord};
use mk_core::{Access, Seat, Step, TableWord};
use mk_never::Op;
use std::marker::{Model, PhantomData};

/// The turn of a table while the gates are as `G` says, with the pass of the seat that has it, and the map of the
/// heap's pages, which travels with it. It has no `Drop`, so it can't be forgotten: it ends with `give` or `abandon`.
pub struct TurnAt<G: Gates> {
    pub(crate) pass: TurnToken,
    pub(crate) map: Box<PageMap>,
    pub(crate) gates: PhantomData<G>,
    ghost in_order: { IsTurn pass } by { turn_prop pass },
}

/// The turn of a table.
pub type Turn = TurnAt<AnyGates>;

/// The turn of a table, while the gates of all callers but its holder are held.
pub type Stopped = TurnAt<AllHeld>;

impl<G: Gates> Model for TurnAt<G> {
    ghost use Rattle.std.specs.Coded.{codes};
    ghost use Rattle.mk_words.specs.{Laws.turn_prop, States.TurnState, TurnSteps.HasMap};

    ghost Value = { TurnState };

    ghost coded = { Prim.hlevel (codes, turn_prop) };

    ghost view = { λ t. record { pass = t.pass; in_order = t.in_order } };

    ghost invariant = { λ t. HasMap G.are_held t.pass t.map.value };
}

/// Another seat has the turn, by its number: a caller's own, or for the host the number of callers.
#[derive(Clone, Copy, Debug, PartialEq, Eq)]
pub struct Busy {
    pub holder: u64,
}

/// Tells the map of a step.
#[inline(always)]
fn tell(map: &mut PageMap, step: Step)
    requires { is_told step ≡ true → page_told step < length map.old.pages }
    ensures { FollowsStep step map.old map.new }
{
    match step {
        Step::Head { page, value } => map.header_stored(page, value),
        Step::Used { page, value } => map.used_stored(page, value),
        Step::Quar { page, value } => {
            map.quarantine_stored(page, QuarantineWord::of(value).freed)
        }
        Step::Mark { page, .. } => map.marked(page),
        _ => {}
    }
}

impl Pass {
    /// Takes the turn, for an operation where the seat is a caller's, or gives the pass back where another has it.
    /// A New's flag is ignored.
    pub fn try_take(self, words: &Words, op: Option<Op>) -> Result<Turn, (Pass, Busy)>
        requires one_table { self.table ≡ words.now }
        requires enabled { IsEnabledTo self (step.Take op) }
        ensures made { IfOk result (λ turn. Finds self (step.Take op) 0 turn.pass) }
        ensures fresh { IfOk result (λ turn. IsFresh turn.pass op) }
        ensures exact { IfOk result (λ turn. TalliesAreExact turn.pass.table.config turn.pass.seen) }
        ensures tidy { IfOk result (λ turn. TalliesAreTidy turn.pass.table.config turn.pass.seen) }
        ensures busy { IfErr result (λ back. Finds self (step.Take op) (1 + back.1.holder) back.0) }
        ensures stays { IfErr result (λ back. call_of back.0 ≡ call_of self) }
        ensures again { IfErr result (λ back. IsEnabledTo back.0 (step.Take op)) }
    {
        let Pass { own } = self;
        match own.take(words, op) {
            Ok((pass, map)) => Ok(TurnAt {
                pass,
                map,
                gates: PhantomData,
            }),
            Err((own, found)) => Err((Pass { own }, Busy { holder: found - 1 })),
        }
    }
}

impl<G: Gates> TurnAt<G> {
    /// Who has the turn.
    pub fn seat(&self) -> Seat
        ensures { result ≡ self.now.pass.seat }
    {
        self.pass.seat()
    }

    /// Lets the turn go for ever: nobody takes it again, and the heap can't be closed. It is for a program that gives
    /// up.
    pub fn abandon(self) {
        let TurnAt {
            pass: _pass,
            map: _map,
            gates: _,
        } = self;
    }

    /// What holds of every turn. It does nothing.
    #[inline(always)]
    pub fn is_in_order(&self)
        ensures turn { IsTurn self.now.pass }
        ensures own { Has self.now.pass.seats self.now.pass.seat }
        ensures history { IsHistory self.now.pass.table.config self.now.pass.seen }
        ensures before_over { CallersAreBeforeOver self.now.pass.table.config self.now.pass.seats self.now.pass.seen }
        ensures tidy { IsTidy self.now.pass.table.config self.now.pass.seen }
        ensures gates { GatesAre G.are_held self.now.pass }
    {
        self.pass.is_in_order();
    }

    /// Takes a step after which the turn goes on, and of which the map isn't told. It leaves the gates where they are
    /// known.
    #[inline(always)]
    pub(crate) fn perform(&mut self, words: &Words, step: Step, word: TableWord, by: Access) -> u64
        requires one_table { self.old.pass.table ≡ words.now }
        requires stays { StaysTurn G.are_held step }
        requires may { MayPerform self.old.pass step word by }
        ensures told { Tells self.old.pass step result self.new.pass }
        ensures acts { Acts self.old.pass step self.new.pass }
    {
        let page = page_of(word);
        self.perform_near(words, words.config.pages, page, step, word, by)
    }

    /// Takes such a step in a table of this many pages. A word of the heap is on this page.
    #[inline(always)]
    pub(crate) fn perform_near(
        &mut self,
        words: &Words,
        pages: u64,
        page: u64,
        step: Step,
        word: TableWord,
        by: Access,
    ) -> u64
        requires one_table { self.old.pass.table ≡ words.now }
        requires pages { pages ≡ words.now.config.pages }
        requires page { IsOnPage page word }
        requires stays { StaysTurn G.are_held step }
        requires may { MayPerform self.old.pass step word by }
        ensures told { Tells self.old.pass step result self.new.pass }
        ensures acts { Acts self.old.pass step self.new.pass }
    {
        self.pass.perform_near(words, pages, page, step, word, by)
    }

    /// Takes a step of which the map is told.
    #[inline(always)]
    pub(crate) fn perform_told(&mut self, words: &Words, step: Step, word: TableWord, by: Access)
        requires one_table { self.old.pass.table ≡ words.now }
        requires told { is_told step ≡ true }
        requires may { MayPerform self.old.pass step word by }
        ensures { Acts self.old.pass step self.new.pass }
    {
        self.pass.perform(words, step, word, by);
        tell(&mut self.map, step);
    }
}

impl Turn {
    /// Gives the turn back.
    pub fn give(self, words: &Words) -> Pass
        requires one_table { self.pass.table ≡ words.now }
        requires enabled { IsEnabledTo self.pass step.Give }
        requires tidy { TalliesAreTidy self.pass.table.config self.pass.seen }
        ensures acts { Acts self.pass step.Give result }
        ensures rests { call_of result ≡ at_rest }
    {
        let TurnAt {
            pass,
            map,
            gates: _,
        } = self;
        let own = pass.give(words, map);
        Pass { own }
    }
}
