//! The two steps by which the turn changes hands, and the page map with it: it lies in the table's only slot while
//! nobody has the turn.
ghost use Rattle.std.specs.Prelude.{◌≡◌, ◌≢◌, ◌+◌, [], ◌∷◌, true, IfOk, IfErr};
ghost use Rattle.mk_core.specs.Below.Books.KnownPages.{KnownPages};
ghost use Rattle.mk_core.specs.{declared.accesses.Access.TheVariants.Exchange, Accesses.access, Moments.holder_number};
ghost use Rattle.mk_core.specs.{Conditions.seat_exists, Readings.Holds};
ghost use Rattle.mk_words.specs.{PageMaps.IsMapOf, States.now_of, Rule.{state_of, IsInOrder}};
ghost use Rattle.mk_words.specs.{Rule.{takes_map, gives_map, no_step}, Steps.{IsEnabledTo, May, Makes, Tells}};
ghost use Rattle.mk_core.specs.declared.events.Step.TheVariants as step;

use crate::homes::MapHome;
use crate::indexes::index_of;
use crate::rule::View;
use crate::telling::{GiveMap, Making, TakeMap};
use crate::tokens::{SeatToken, TokenWith, TurnToken};
use crate::words::Words;
use atomic_table::Seat as Token;
use mk_core::lower::books::PageMap;
use mk_core::{Seat, TableWord};
use mk_never::Op;
use std::marker::{Brand, PhantomData};
use std::mem;

/// Exchanges the turn word, 0 for this number. Where it was 0, the token has the slot.
#[inline(always)]
fn take_as<J: Making>(
    words: &Words,
    token: &mut Token<MapHome, View>,
    seat: Seat,
    op: Option<Op>,
    number: u64,
) -> u64
    requires picked { J.event ≡ record { seat = seat; step = step.Take op } }
    requires order { IsInOrder token.old.me seat }
    requires one_table { (state_of token.old.table_id token.old.me seat).table ≡ words.now }
    requires may { May (state_of token.old.table_id token.old.me seat) (step.Take op) }
    requires access { Exchange 0 number
        ≡ access token.old.me.0.config (now_of (state_of token.old.table_id token.old.me seat))
        (record { seat = seat; step = step.Take op }) }
    ensures table { token.new.table_id ≡ token.old.table_id }
    ensures told { takes_map (record { seat = seat; step = step.Take op }) no_step token.old.me result token.new.me }
{
    words.is_within_limits();
    let index = index_of(words.config.pages, TableWord::Turn);
    words
        .table
        .shared
        .compare_exchange::<TakeMap<J>>(token, index, 0, number)
}

/// Stores 0 into the turn word, with which the slot goes back.
#[inline(always)]
fn give_as<J: Making>(words: &Words, token: &mut Token<MapHome, View>, seat: Seat)
    requires picked { J.event ≡ record { seat = seat; step = step.Give } }
    requires order { IsInOrder token.old.me seat }
    requires one_table { (state_of token.old.table_id token.old.me seat).table ≡ words.now }
    requires may { May (state_of token.old.table_id token.old.me seat) step.Give }
    requires holds { Holds token.old.me.0.config (now_of (state_of token.old.table_id token.old.me seat)) seat }
    requires slot { (map : KnownPages) × (token.old.me.1 ≡ (0, map) ∷ [])
        × IsMapOf map (now_of (state_of token.old.table_id token.old.me seat)).words }
    ensures table { token.new.table_id ≡ token.old.table_id }
    ensures told { gives_map (record { seat = seat; step = step.Give }) no_step token.old.me 0 token.new.me }
{
    words.is_within_limits();
    let index = index_of(words.config.pages, TableWord::Turn);
    words.table.shared.store::<GiveMap<J>>(token, index, 0);
}

impl SeatToken {
    /// What the turn word is while the seat has the turn.
    #[inline(always)]
    fn turn_word(&self, words: &Words) -> u64
        requires one_table { self.now.table ≡ words.now }
        requires exists { seat_exists self.now.table.config self.now.seat ≡ true }
        ensures { result ≡ 1 + holder_number self.now.table.config self.now.seat }
    {
        words.is_within_limits();
        match self.seat {
            Seat::Caller(caller) => 1 + caller,
            Seat::Marker(_) | Seat::Host => 1 + words.callers(),
        }
    }

    /// Takes the turn and the page map, or returns what the turn word is where another has them.
    pub(crate) fn take(
        self,
        words: &Words,
        op: Option<Op>,
    ) -> Result<(TurnToken, Box<PageMap>), (SeatToken, u64)>
        requires one_table { self.table ≡ words.now }
        requires enabled { IsEnabledTo self (step.Take op) }
        ensures taken { IfOk result (λ hand. Tells self (step.Take op) 0 hand.0) }
        ensures map { IfOk result (λ hand. IsMapOf hand.1.value (now_of hand.0).words) }
        ensures missed { IfErr result (λ back. Tells self (step.Take op) back.1 back.0) }
        ensures another { IfErr result (λ back. back.1 ≢ 0) }
    {
        words.is_within_limits();
        let number = self.turn_word(words);
        let TokenWith {
            mut token,
            seat,
            ..
        } = self;
        let found = take_as::<Brand>(words, &mut token, seat, op, number);
        if found == 0 {
            let empty = MapHome { map: None };
            let home = words.table.shared.exchange(&mut token, 0, empty);
            let taken = TokenWith {
                token,
                seat,
                slots: PhantomData,
            };
            Ok((taken, home.into_map()))
        } else {
            let back = TokenWith {
                token,
                seat,
                slots: PhantomData,
            };
            Err((back, found))
        }
    }
}

impl TurnToken {
    /// Gives the turn back, with a map that shows the pages.
    pub(crate) fn give(self, words: &Words, map: Box<PageMap>) -> SeatToken
        requires one_table { self.table ≡ words.now }
        requires may { May self step.Give }
        requires holds { Holds self.table.config (now_of self) self.seat }
        requires map { IsMapOf map.value (now_of self).words }
        ensures { Makes self step.Give result }
    {
        let TokenWith {
            mut token,
            seat,
            ..
        } = self;
        let home = MapHome { map: Some(map) };
        let empty = words.table.shared.exchange(&mut token, 0, home);
        // Nothing lay in the slot, so there is nothing to drop.
        mem::forget(empty);
        give_as::<Brand>(words, &mut token, seat);
        TokenWith {
            token,
            seat,
            slots: PhantomData,
        }
    }
}
