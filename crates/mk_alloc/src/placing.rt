//! Placing the object of a New.
ghost use Rattle.std.specs.Prelude.{◌≡◌, ◌==◌, true, false};
ghost use Rattle.mk_core.specs.{Calls.d_of, Words.{header_at, phase_of}};
ghost use Rattle.mk_caller.specs.{Below.Words.States.{call_of, now_of}, Below.Words.Sweeping.SweepsNothing};
ghost use Rattle.mk_alloc.specs.Placing.{FitsNowhere, HasCarved, HeldIsExact, IsPlaced, IsServed, IsUnplaced, MayTake};
ghost use Rattle.mk_alloc.specs.Placing.{MayServe, Requests, ShapeGoesTo, object_for, object_shaped};

use crate::looking::{is_marking, look_at};
use crate::objects::{Grant, Request, Shape, shape_of};
use crate::seeking::{seek, seek_cell};
use mk_caller::lower::words::{Turn, Words};
use mk_core::{Tally, Word};
use mk_geom::Place;

/// Marks the cells that the first page of the place will have, if a cycle marks.
#[inline(always)]
fn mark_place(words: &Words, turn: &mut Turn, shape: Shape, place: Place, marking: bool)
    requires goes { ShapeGoesTo words.now turn.old.pass shape place }
    requires free { header_at (now_of turn.old.pass).words place.page ≡ 0 }
    requires marking { marking ≡ (phase_of (now_of turn.old.pass).words == 1) }
    ensures carved { HasCarved turn.old.pass place 0 turn.new.pass }
    ensures reached { SweepsNothing turn.old.pass turn.new.pass }
{
    if marking {
        turn.mark(words, place.page, shape.bits());
    }
}

/// Makes the free pages of the place a block, or a run. If a cycle marks, the cells of the first page are marked before
/// that.
fn carve(words: &Words, turn: &mut Turn, shape: Shape, place: Place, marking: bool)
    requires goes { ShapeGoesTo words.now turn.old.pass shape place }
    requires free { header_at (now_of turn.old.pass).words place.page ≡ 0 }
    requires marking { marking ≡ (phase_of (now_of turn.old.pass).words == 1) }
    ensures ready { MayTake turn.old.pass place turn.new.pass }
    ensures reached { SweepsNothing turn.old.pass turn.new.pass }
{
    let pages = shape.pages();
    mark_place(words, turn, shape, place, marking);
    let head = shape.header_word(0);
    if pages == 1 {
        turn.head(words, place.page, head);
    } else {
        turn.make_run(words, place.page, pages, head, shape.later_word(1));
    }
}

/// Makes the place's pages ready, if they are free.
#[inline(always)]
fn make_ready(words: &Words, turn: &mut Turn, shape: Shape, place: Place, free: bool, marking: bool)
    requires goes { ShapeGoesTo words.now turn.old.pass shape place }
    requires free { free ≡ (header_at (now_of turn.old.pass).words place.page == 0) }
    requires marking { marking ≡ (phase_of (now_of turn.old.pass).words == 1) }
    ensures ready { MayTake turn.old.pass place turn.new.pass }
    ensures reached { SweepsNothing turn.old.pass turn.new.pass }
{
    if free {
        carve(words, turn, shape, place, marking);
    }
}

/// Gives the object its place.
#[inline(always)]
fn serve(words: &Words, turn: &mut Turn, grant: Grant, marking: bool, held: u64)
    requires may { MayServe words.now turn.old.pass grant }
    requires marking { marking ≡ (phase_of (now_of turn.old.pass).words == 1) }
    requires held { held ≡ (now_of turn.old.pass).words.held }
    ensures { IsServed turn.old.pass grant.place turn.new.pass }
{
    let Grant {
        register,
        shape,
        place,
        used,
        free,
    } = grant;
    make_ready(words, turn, shape, place, free, marking);
    turn.used(words, place.page, used | 1 << place.index);
    turn.grant(words, register, shape.address(place));
    turn.tally(words, Tally::Held, held + shape.storage());
}

/// Gives the object its place, after a look at the tally of held words and one at the phase.
#[inline(always)]
fn serve_now(words: &Words, turn: &mut Turn, grant: Grant)
    requires { MayServe words.now turn.old.pass grant }
    ensures { IsServed turn.old.pass grant.place turn.new.pass }
{
    let held = look_at(words, turn, Word::Held);
    let marking = is_marking(words, turn);
    serve(words, turn, grant, marking, held);
}

/// Grants an object for which no block has a free cell, or which is large, at its place. Returns false if nothing fits.
#[inline(never)]
fn place_apart(words: &Words, turn: &mut Turn, register: u8, shape: Shape) -> bool
    requires one_table { turn.old.pass.table ≡ words.now }
    requires register { register ≡ d_of (call_of turn.old.pass).op }
    requires shape { object_shaped shape ≡ object_for turn.old.pass }
    requires unplaced { IsUnplaced turn.old.pass }
    requires exact { HeldIsExact turn.old.pass }
    ensures placed { result ≡ true → IsPlaced turn.old.pass turn.new.pass }
    ensures nowhere { result ≡ false → FitsNowhere turn.old.pass turn.new.pass }
    ensures reached { SweepsNothing turn.old.pass turn.new.pass }
{
    match seek(words, turn, shape) {
        None => false,
        Some(place) => {
            let page = turn.page(place.page);
            let grant = Grant {
                register,
                shape,
                place,
                used: page.used,
                free: page.header == 0,
            };
            serve_now(words, turn, grant);
            true
        }
    }
}

/// Grants the object of a New at its place. Returns false if nothing fits.
#[inline(always)]
pub fn place_object(words: &Words, turn: &mut Turn, request: Request) -> bool
    requires one_table { turn.old.pass.table ≡ words.now }
    requires requested { Requests turn.old.pass request }
    requires unplaced { IsUnplaced turn.old.pass }
    requires exact { HeldIsExact turn.old.pass }
    ensures placed { result ≡ true → IsPlaced turn.old.pass turn.new.pass }
    ensures nowhere { result ≡ false → FitsNowhere turn.old.pass turn.new.pass }
    ensures reached { SweepsNothing turn.old.pass turn.new.pass }
{
    let Request { register, ty } = request;
    let shape = shape_of(words.types(), ty);
    match seek_cell(words, turn, shape) {
        None => place_apart(words, turn, register, shape),
        Some(place) => {
            let used = turn.page(place.page).used;
            let grant = Grant {
                register,
                shape,
                place,
                used,
                free: false,
            };
            serve_now(words, turn, grant);
            true
        }
    }
}
