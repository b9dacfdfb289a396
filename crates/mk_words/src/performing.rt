//! An access to a word of the table, which makes an event.
ghost use Rattle.std.specs.Prelude.{◌≡◌, ◌<◌, ℕ};
ghost use Rattle.atomic_table.specs.Table.{Allows};
ghost use Rattle.mk_core.specs.Words.{becomes};
ghost use Rattle.mk_words.specs.Rule.{Kept, told_by, adds, no_step};

use crate::homes::MapHome;
use crate::rule::{OneHistory, View};
use crate::telling::{Make, Making, Put};
use atomic_table::{Seat as Token, Shared};
use mk_core::{Access, Config};

/// Performs the access of an event. Returns what it found; at a store, what it stored.
#[inline(always)]
pub(crate) fn access_as<J: Making>(
    table: &Shared<MapHome, View, Config, OneHistory>,
    token: &mut Token<MapHome, View>,
    index: usize,
    access: Access,
) -> u64
    requires table { token.old.table_id ≡ table.now.table_id }
    requires within { index < table.now.table_id.words }
    requires allowed { Allows (Kept table.now.key) table.now.table_id.slots token.old.id token.old.me index
        (becomes access) (λ n m. adds J.event no_step token.old.me n m) }
    ensures table { token.new.table_id ≡ token.old.table_id }
    ensures told { (found : ℕ) × adds J.event no_step token.old.me found token.new.me
        × (result ≡ told_by access found) }
{
    match access {
        Access::Load => table.load::<Make<J>>(token, index),
        Access::Store(value) => {
            table.store::<Put<J>>(token, index, value);
            value
        }
        Access::Exchange { old, new } => {
            table.compare_exchange::<Make<J>>(token, index, old, new)
        }
        Access::Or(bits) => table.fetch_or::<Make<J>>(token, index, bits),
        Access::Add(n) => table.fetch_add::<Make<J>>(token, index, n),
        Access::Sub(n) => table.fetch_sub::<Make<J>>(token, index, n),
    }
}
