//! A token of the table with the seat whose steps it takes: what a pass and a turn have in common.
ghost use Rattle.std.specs.Prelude.{◌≡◌, false, true};
ghost use Rattle.mk_core.specs.{Accesses.caller_number, History.IsHistory, Counts.IsTidy};
ghost use Rattle.mk_words.specs.{PageMaps.{IsOnPage, is_handing}, States.{CallersAreBeforeOver, Has, is_caller}};
ghost use Rattle.mk_words.specs.{Rule.{state_of, IsInOrder}, Steps.{MayPerform, Tells}};

use crate::homes::MapHome;
use crate::indexes::{index_near, page_of};
use crate::performing::access_as;
use crate::rule::View;
use crate::telling::Making;
use crate::words::Words;
use atomic_table::Seat as Token;
use mk_core::{Access, Seat, Step, TableWord};
use std::marker::{Brand, Model, PhantomData};

/// The slots that a token holds.
pub(crate) trait Slots {
    ghost use Rattle.std.specs.Prelude.{List, ℕ};
    ghost use Rattle.mk_core.specs.Below.Books.KnownPages.{KnownPages};

    ghost such: { List (ℕ × KnownPages) → Type 0 };
}

/// None.
pub(crate) struct NoSlot;

impl Slots for NoSlot {
    ghost use Rattle.std.specs.Prelude.{◌≡◌, []};

    ghost such = { λ slots. slots ≡ [] };
}

/// That of the page map, in which a blank one lies meanwhile.
pub(crate) struct MapSlot;

impl Slots for MapSlot {
    ghost use Rattle.std.specs.Prelude.{◌≡◌, [], ◌∷◌};
    ghost use Rattle.mk_core.specs.Below.Books.KnownPages.{KnownPages};

    ghost such = { λ slots. (blank : KnownPages) × (slots ≡ (0, blank) ∷ []) };
}

/// A token with its seat, which holds the slots that `S` says.
#[derive(Drop)]
pub(crate) struct TokenWith<S: Slots> {
    pub(crate) token: Token<MapHome, View>,
    pub(crate) seat: Seat,
    pub(crate) slots: PhantomData<S>,
}

/// A pass's token with its seat.
pub(crate) type SeatToken = TokenWith<NoSlot>;

/// A turn's token with its seat, which holds the slot of the page map.
pub(crate) type TurnToken = TokenWith<MapSlot>;

impl<S: Slots> Model for TokenWith<S> {
    ghost use Rattle.mk_words.specs.States.{PassState};

    ghost Value = { PassState };

    ghost use Rattle.mk_words.specs.Rule.{state_of, IsHolding};

    ghost view = { λ t. state_of t.token.table_id t.token.me t.seat };

    ghost invariant = { λ t. IsHolding S.such t.token.me t.seat };
}

/// Takes a step of any kind but the two that hand over the turn: the access that the event makes after what the pass
/// has seen, to the word that it reaches there. After all that others did since it is the same one.
#[inline(always)]
fn perform_as<J: Making>(
    words: &Words,
    pages: u64,
    page: u64,
    token: &mut Token<MapHome, View>,
    seat: Seat,
    step: Step,
    word: TableWord,
    by: Access,
) -> u64
    requires picked { J.event ≡ record { seat = seat; step = step } }
    requires order { IsInOrder token.old.me seat }
    requires one_table { (state_of token.old.table_id token.old.me seat).table ≡ words.now }
    requires pages { pages ≡ words.now.config.pages }
    requires page { IsOnPage page word }
    requires hands_none { is_handing step ≡ false }
    requires may { MayPerform (state_of token.old.table_id token.old.me seat) step word by }
    ensures told { Tells (state_of token.old.table_id token.old.me seat) step result
        (state_of token.new.table_id token.new.me seat) }
    ensures order { IsInOrder token.new.me seat }
    ensures slots { token.new.me.1 ≡ token.old.me.1 }
{
    words.is_within_limits();
    let shared = &words.table.shared;
    let index = index_near(pages, page, word);
    access_as::<J>(shared, token, index, by)
}

impl<S: Slots> TokenWith<S> {
    /// Whose token it is.
    #[inline(always)]
    pub(crate) fn seat(&self) -> Seat
        ensures { result ≡ self.now.seat }
    {
        self.seat
    }

    /// The number of the caller whose seat it is.
    #[inline(always)]
    pub(crate) fn caller(&self) -> u64
        requires { is_caller self.now.seat ≡ true }
        ensures { result ≡ caller_number self.now.seat }
    {
        match self.seat {
            Seat::Caller(caller) => caller,
            Seat::Marker(_) | Seat::Host => unreachable!(),
        }
    }

    /// What holds of every token. It does nothing.
    #[inline(always)]
    pub(crate) fn is_in_order(&self)
        ensures own { Has self.now.seats self.now.seat }
        ensures history { IsHistory self.now.table.config self.now.seen }
        ensures before_over { CallersAreBeforeOver self.now.table.config self.now.seats self.now.seen }
        ensures tidy { IsTidy self.now.table.config self.now.seen }
    {
        let _seat = &self.seat;
    }

    /// Takes a step of any kind but the two that hand over the turn, in a table of this many pages. A word of the
    /// heap is on this page.
    #[inline(always)]
    pub(crate) fn perform_near(
        &mut self,
        words: &Words,
        pages: u64,
        page: u64,
        step: Step,
        word: TableWord,
        by: Access,
    ) -> u64
        requires one_table { self.old.table ≡ words.now }
        requires pages { pages ≡ words.now.config.pages }
        requires page { IsOnPage page word }
        requires hands_none { is_handing step ≡ false }
        requires may { MayPerform self.old step word by }
        ensures told { Tells self.old step result self.new }
    {
        let seat = self.seat;
        perform_as::<Brand>(words, pages, page, &mut self.token, seat, step, word, by)
    }

    /// Takes a step of any kind but the two that hand over the turn.
    #[inline(always)]
    pub(crate) fn perform(&mut self, words: &Words, step: Step, word: TableWord, by: Access) -> u64
        requires one_table { self.old.table ≡ words.now }
        requires hands_none { is_handing step ≡ false }
        requires may { MayPerform self.old step word by }
        ensures told { Tells self.old step result self.new }
    {
        self.perform_near(words, words.config.pages, page_of(word), step, word, by)
    }
}
