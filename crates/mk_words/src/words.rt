//! The shared words, and the passes to them.
ghost use Rattle.std.specs.Prelude.{◌≡◌, ◌≤◌, [], ◌∷◌, ◌++◌, IfOk, All, false, length, replicate, true};
ghost use Rattle.mk_geom.specs.Storages.{free_page};
ghost use Rattle.mk_core.specs.{declared.events.Seat.TheVariants.Host, Moments.IsWithinLimits};
ghost use Rattle.mk_core.specs.{History.{Grows, is_same_seat}, Moments.{marker_at, outside}};
ghost use Rattle.mk_core.specs.Below.Books.KnownPages.{Shows};
ghost use Rattle.mk_words.specs.States.{Has, HasAll, all_seats, without_seat, is_caller, has_over, IsPass};
ghost use Rattle.mk_words.specs.States.{history_of, config_of, HasTallies, now_of};

use crate::finals::{Final, freed_bits, last_word};
use crate::homes::MapHome;
use crate::indexes::{MOST_WORDS, count_of_words};
use crate::passes::Pass;
use crate::rule::{OneHistory, View};
use crate::telling::{HandOver, Handing, Remember, Settle, Together};
use crate::tokens::{SeatToken, TokenWith};
use atomic_table::Table;
use mk_core::lower::books::PageMap;
use mk_core::{Config, Seat, Word};
use mk_never::{NoMemory, TypeTable};
use std::alloc::Global;
use std::marker::{Brand, Model, PhantomData};
use std::sync::atomic::AtomicU64;

/// The words of a heap, which threads share. Who has a pass may access them.
#[derive(Drop)]
pub struct Words {
    pub(crate) table: Table<MapHome, View, Config, OneHistory, Global>,
    pub(crate) config: Config,
    /// How many sleep who have waited long for the turn. No promise rests on it.
    pub(crate) late: AtomicU64,
}

impl Model for Words {
    ghost use Rattle.std.specs.Prelude.{◌≡◌};
    ghost use Rattle.mk_words.specs.States.{WordsState};
    ghost use Rattle.mk_core.specs.{Moments.IsWithinLimits, Layout.count_of_words};

    ghost Value = { WordsState };

    ghost view = { λ w. record { id = w.table.shared.table_id; config = w.config } };

    ghost invariant = { λ w. record {
      key : w.table.shared.key ≡ w.config;
      words : w.table.shared.table_id.words ≡ count_of_words w.config.pages;
      slots : w.table.shared.table_id.slots ≡ 1;
      limits : IsWithinLimits w.config;
    } };
}

/// The words of the largest table, before any step. A new table copies its words from here, so that they are made once.
static ZEROS: [u64; MOST_WORDS] = [0; MOST_WORDS];

/// This many zeros.
fn zeros(count: usize) -> &'static [u64]
    requires { count ≤ 316048 }
    ensures { result.now ≡ replicate count 0 }
{
    &ZEROS[..count]
}

/// The slots of a new table. In the only one is the map of so many free pages. It is apart from the making of the
/// table, so that LLVM sees there that the table's words are zeros, and fills it itself.
fn first_slots(alloc: Global, pages: u64) -> Result<Vec<MapHome>, NoMemory>
    requires { pages ≤ 4096 }
    ensures one { IfOk result (λ slots. length slots.items ≡ 1) }
    ensures shows { IfOk result (λ slots.
        All (λ map. Shows map (replicate pages free_page) (replicate pages 0)) slots.items) }
{
    let map = PageMap::new(alloc, pages)?;
    let map = Box::new(alloc, map)?;
    let mut slots = Vec::new(alloc);
    slots.push(MapHome { map: Some(map) })?;
    Ok(slots)
}

impl Words {
    /// How many pages there are.
    pub fn pages(&self) -> u64
        ensures { result ≡ self.now.config.pages }
    {
        self.config.pages
    }

    /// How many of them may be resident.
    pub fn resident(&self) -> u64
        ensures { result ≡ self.now.config.resident }
    {
        self.config.resident
    }

    /// How many callers there are.
    pub fn callers(&self) -> u64
        ensures { result ≡ self.now.config.callers }
    {
        self.config.callers
    }

    /// The types of the program.
    pub fn types(&self) -> &TypeTable
        ensures { result.now ≡ self.now.config.types }
    {
        &self.config.types
    }

    /// The configuration is within the limits. It does nothing.
    #[inline(always)]
    pub fn is_within_limits(&self)
        ensures { IsWithinLimits self.now.config }
    {
        let _config = &self.config;
    }

    /// Words that are all 0, and the host's pass, which has all seats.
    pub fn new(alloc: Global, config: &Config) -> Result<(Words, Pass), NoMemory>
        requires { IsWithinLimits config.now }
        ensures config { IfOk result (λ made. made.0.config ≡ config.now) }
        ensures pass { IfOk result
            (λ made. made.1 ≡ record { table = made.0; seat = Host; seats = all_seats config.now; seen = [] }) }
    {
        let zeros = zeros(count_of_words(config.pages));
        let copy = config.try_clone(alloc)?;
        let slots = first_slots(alloc, config.pages)?;
        match Table::new(alloc, zeros, slots, config) {
            Ok((table, token)) => Ok((
                Words {
                    table,
                    config: copy,
                    late: AtomicU64::new(0),
                },
                Pass {
                    own: TokenWith {
                        token,
                        seat: Seat::Host,
                        slots: PhantomData,
                    },
                },
            )),
            Err(_) => Err(NoMemory),
        }
    }

    /// The pass of a seat that the host's pass has, which then has it no more. A marker's is out, and a caller gets
    /// none after an `over`.
    pub fn split(words: &Words, pass: &mut Pass, seat: Seat) -> Pass
        requires one_table { pass.old.table ≡ words.now }
        requires host { pass.old.seat ≡ Host }
        requires another { is_same_seat seat Host ≡ false }
        requires here { Has pass.old.seats seat }
        requires out { marker_at (now_of pass.old) seat ≡ outside }
        requires before_over { is_caller seat ≡ true → has_over pass.old.seen ≡ false }
        ensures pass { pass.new ≡ record pass.old { seats = without_seat seat pass.old.seats } }
        ensures made { result ≡ record pass.old { seat = seat; seats = seat ∷ [] } }
    {
        Pass {
            own: Words::split_as::<Brand>(words, &mut pass.own, seat),
        }
    }

    fn split_as<J: Handing>(words: &Words, own: &mut SeatToken, seat: Seat) -> SeatToken
        requires picked { J.seat ≡ seat }
        requires one_table { own.old.table ≡ words.now }
        requires host { own.old.seat ≡ Host }
        requires another { is_same_seat seat Host ≡ false }
        requires here { Has own.old.seats seat }
        requires before_over { is_caller seat ≡ true → has_over own.old.seen ≡ false }
        ensures own { own.new ≡ record own.old { seats = without_seat seat own.old.seats } }
        ensures made { result ≡ record own.old { seat = seat; seats = seat ∷ [] } }
    {
        let token = &mut own.token;
        let shared = &words.table.shared;
        TokenWith {
            token: shared.split_seat::<HandOver<J>>(token),
            seat,
            slots: PhantomData,
        }
    }

    /// One pass with the seats of both, which has seen all that either has seen.
    pub fn join(words: &Words, into: &mut Pass, from: Pass)
        requires into { into.old.table ≡ words.now }
        requires from { from.table ≡ words.now }
        ensures pass { into.new ≡ record into.old { seats = into.old.seats ++ from.seats; seen = into.new.seen } }
        ensures own { Grows into.old.seats into.old.seen into.new.seen }
        ensures came { Grows from.seats from.seen into.new.seen }
        ensures in_order { IsPass into.new }
    {
        let Pass { own } = from;
        Words::join_tokens(words, &mut into.own, own);
    }

    fn join_tokens(words: &Words, into: &mut SeatToken, from: SeatToken)
        requires into { into.old.table ≡ words.now }
        requires from { from.table ≡ words.now }
        ensures pass { into.new ≡ record into.old { seats = into.old.seats ++ from.seats; seen = into.new.seen } }
        ensures own { Grows into.old.seats into.old.seen into.new.seen }
        ensures came { Grows from.seats from.seen into.new.seen }
        ensures in_order { IsPass into.new }
    {
        let TokenWith { token, .. } = from;
        let own = &mut into.token;
        let shared = &words.table.shared;
        shared.join_seat::<Together>(own, token);
        shared.load::<Settle>(own, 0);
    }

    /// Ends the table. The pass has all seats, so what it has seen is the whole history.
    pub fn close(words: Words, pass: Pass) -> Final
        requires one_table { pass.table ≡ words }
        requires home { HasAll words.config pass.seats }
        ensures history { history_of result ≡ pass.seen }
        ensures config { config_of result ≡ words.config }
        ensures tallies { HasTallies (now_of pass).words words.config.pages result }
    {
        let Pass { own } = pass;
        Words::close_by(words, own)
    }

    fn close_by(words: Words, own: SeatToken) -> Final
        requires one_table { own.table ≡ words }
        requires home { HasAll words.config own.seats }
        ensures history { history_of result ≡ own.seen }
        ensures config { config_of result ≡ words.config }
        ensures tallies { HasTallies (now_of own).words words.config.pages result }
    {
        let Words { table, config, .. } = words;
        let TokenWith { mut token, .. } = own;
        let memory = table.shared.split_seat::<Remember>(&mut token);
        let mut closed = table.close_with(token);
        let pages = config.pages;
        let last = Final {
            held: last_word(&closed, pages, Word::Held),
            fresh: last_word(&closed, pages, Word::Fresh),
            quarantined: freed_bits(&closed, pages),
            cycles: last_word(&closed, pages, Word::Cycles),
            released: last_word(&closed, pages, Word::Released),
            full: last_word(&closed, pages, Word::Full),
            memory,
        };
        let _map = closed.take(0);
        closed.free();
        last
    }
}
