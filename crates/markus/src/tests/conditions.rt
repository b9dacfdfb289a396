//! Schedules for the seven conditions: seats, order, ranges, gates and phases, and what places, frees and marks ask
//! besides. Which events are refused, and why, is worked out by hand from `docs/SCHEDULES.md`.

use super::walks::Walk;

/// Seats, the kinds of event that each may have, and the order of a call's events.
pub const ORDER: Walk = Walk {
    name: "seats and order",
    scripts: "heap 1 1\ntype A p:A n\nscript s\nptr p A\nnew p A\nfree p\nsetp p 0 p\nclear p\n\
        script t\nptr p A\nclear p\n",
    lines: "\
1 c2 take | enter | leave | reg | want | give | quit | over -- there are two scripts, so there is no caller 2
1 m8 attend | quit | mlook phase | claim 0 0 | mload | mmark | mblack | enter | want \
    -- the markers are 0 to 7, so there is no marker 8
2 c0 attend | quit | mlook phase | claim 0 0 | mload | mmark | mblack -- a caller is no marker
2 c0 over -- a caller can't end all
2 m0 enter | leave | reg | probe | read | write | cas | getg | setg | dirty -- a marker makes no calls
2 m0 take | give | look phase | head 0 1 | used 0 1 | quar 0 1 | grant | tally held 0 | hold 1 | open 1 | clear 0 \
    -- a marker never has the turn
2 m0 mark 0 1 | wipe 0 | full | begin | close | release | end | want | undirty 0 | black 0 1 | unblack 0 \
    -- a marker never has the turn
2 m0 over -- a marker can't end all
2 h enter | leave | reg | probe | read | write | cas | getg | setg | dirty -- the host makes no calls
2 h attend | quit | mlook phase | claim 0 0 | mload | mmark | mblack -- the host is no marker
3 c0 enter -- a `new` needs the turn, so it begins with `take`
3 c0 leave | reg | probe | read | write | cas | getg | setg | dirty -- no call is in flight
3 c0 give | look phase | head 0 1 | used 0 1 | quar 0 1 | grant | tally held 0 | hold 1 | open 1 | clear 0 \
    -- a caller that hasn't taken the turn has none of its events
3 c0 mark 0 1 | wipe 0 | full | begin | close | release | end | want | undirty 0 | black 0 1 | unblack 0 \
    -- a caller that hasn't taken the turn has none of its events
3 c1 take -- a caller whose next operation needs no turn takes none
3 h give | look phase | head 0 1 | used 0 1 | quar 0 1 | grant | tally held 0 | hold 1 | open 1 | clear 0 \
    -- a host that hasn't taken the turn has none of its events
3 h mark 0 1 | wipe 0 | full | begin | close | release | end | want | undirty 0 | black 0 1 | unblack 0 \
    -- a host that hasn't taken the turn has none of its events
c0 take
3 c0 take | enter -- a call is in flight, so no other begins
3 c0 reg | leave -- a `new` has events of the turn only
h take
3 h look phase | begin | give -- the host's `take` found the turn taken
c0 head 0 1; used 0 1; grant
3 c0 grant | full -- a `new` is decided once
3 c0 take -- the call is decided, but goes on until its `give`
c0 tally held 2; give; take
3 c0 give | look phase | quar 0 1 | hold 1 | begin -- a `free` loads its register before all events of the turn
c0 reg
3 c0 reg -- a `free` loads its register once
3 c0 grant | full -- a `free` isn't decided by what decides a `new`
c0 quar 0 1
3 c0 reg -- a `free` that is decided loads nothing more
3 c0 grant | full -- a `free` that is decided isn't decided again as a `new`
c0 tally fresh 2; give; enter
3 c0 enter | take -- a call is in flight, so no other begins
3 c0 probe | leave -- a `setp` loads its registers first
c0 reg
3 c0 probe | write -- a `setp` loads a second register
c0 reg
3 c0 reg -- a `setp` loads no third register
3 c0 write | dirty -- a `setp` loads the page's header before it stores
c0 probe
3 c0 dirty | leave -- the store is still to come
3 c0 read | cas -- a `setp` neither loads the word nor exchanges it
c0 write
3 c0 write -- a `setp` stores its word once
3 c0 leave -- the dirty word is still to be set
c0 dirty
3 c0 dirty -- the dirty word is set once
3 c0 write -- the dirty word is set after the store, so no store comes now
c0 leave
3 c0 leave | reg -- the call is over
h take; hold 0
3 h take -- the host has the turn already
3 h grant | full -- the host makes no `new`
c0 enter
3 c0 reg | leave -- the `enter` found its gate held, so it began no call
",
    written: "script s\nscript t\n",
};

/// Numbers of pages, words, callers, registers, globals and cells that there aren't.
pub const RANGES: Walk = Walk {
    name: "ranges",
    scripts: "heap 3 3\ntype A p:A n\nscript s\nptr p A\nnew p A\nscript t\nptr p A\nnew p A\n",
    lines: "\
h take
4 h look gate 2 | look reg 2 0 | hold 2 | open 2 -- the callers are 0 and 1
4 h look reg 0 8 -- the registers are 0 to 7
4 h look global 64 -- the globals are 0 to 63
4 h look head 3 | look used 3 | look quar 3 | look mark 3 | look black 3 | look dirty 3 -- the pages are 0 to 2
4 h head 3 0 | used 3 0 | quar 3 0 | clear 3 | mark 3 1 | undirty 3 | black 3 1 | unblack 3 -- the pages are 0 to 2
4 h look heap 192 | wipe 192 -- the heap's words are 0 to 191
4 m0 mlook gate 2 -- the callers are 0 and 1
4 m0 mlook head 3 | claim 3 0 -- the pages are 0 to 2
4 m0 mlook heap 192 -- the heap's words are 0 to 191
4 m0 claim 0 32 -- the cells of a page are 0 to 31
h give
c1 take
4 c1 hold 1 | open 1 -- a caller neither holds nor opens its own gate
",
    written: "script s\nscript t\n",
};

/// What comes only while gates are held, or while none is.
pub const GATES: Walk = Walk {
    name: "gates",
    scripts: "heap 2 2\ntype C n*65\nscript s\nptr p C\nnew p C\nfree p\nscript t\nptr p C\nclear p\n",
    lines: "\
c0 take; head 0 46; head 1 26; used 0 1; grant; tally held 128; give
c0 take; reg
5 c0 quar 0 1 -- a run is freed only while all other gates are held
5 c0 quar 0 0 -- a call that is to free a run stores no quarantine word before all other gates are held
5 c0 head 0 43 | head 1 28 -- a run is unmapped only while all other gates are held
5 c0 look reg 1 0 -- gate 1 isn't held, so caller 1 may be at its register
5 c0 open 1 -- gate 1 isn't held, so it can't be opened
5 c0 want | close | release | black 0 1 -- a stop needs all other gates held
c0 hold 1
5 c0 hold 1 -- gate 1 is held already
5 c0 give -- gate 1 is held, and the turn is given back with all gates open
c0 quar 0 1
5 c0 give -- gate 1 is held, though the call is decided
c0 head 0 43; head 1 28; open 1; tally held 0; give
c1 enter
h take; hold 0; hold 1
5 h hold 0 -- gate 0 is held already
5 h look reg 1 0 | open 1 -- caller 1 is in a call, so `hold 1` didn't get its gate
5 h head 0 43 | want | close | release | black 0 1 -- gate 0 is held, but not gate 1
5 h give -- gate 0 is held
c1 reg; leave
h quar 0 4294967297; begin; hold 1; want; open 1
5 h close | black 0 1 -- gate 1 was opened again, so callers aren't stopped
5 h undirty 0 | undirty 1 | unblack 0 | unblack 1 -- once closing is wanted these need all gates held too
5 h give -- gate 0 is held
",
    written: "script s\nscript t\n",
};

/// What doesn't come at each phase, from no cycle to the end of all cycles.
pub const PHASES: Walk = Walk {
    name: "phases",
    scripts: "heap 2 2\ntype A p:A n\nscript s\nptr p A\nnew p A\nnew p A\nscript t\n",
    lines: "\
c0 take; hold 1
6 c0 mark 0 1 | black 0 1 -- nothing is marked or blackened before a cycle begins
6 c0 want | close | release | end -- no cycle was begun
c0 begin
6 c0 clear 0 -- while marking no marks are cleared
6 c0 undirty 0 | unblack 0 -- while marking no dirty words and no black bits are cleared
6 c0 black 0 1 -- while marking only markers blacken
6 c0 full -- while marking no `new` is refused
6 c0 begin -- a cycle is underway
6 c0 close | release | end -- closing isn't wanted yet
c0 want
6 c0 head 0 1 | used 0 1 | quar 0 0 | grant -- once closing is wanted nothing is placed or freed
6 c0 clear 0 -- once closing is wanted no marks are cleared
6 c0 full -- once closing is wanted no `new` is refused
6 c0 begin -- a cycle is underway
6 c0 release | end -- the marks aren't closed yet
6 c0 want -- closing is wanted already
c0 open 1
6 c0 give -- once closing is wanted the turn isn't given back before the cycle ends
c0 hold 1; close
6 c0 head 0 1 | used 0 1 | quar 0 0 | grant -- between `close` and `release` nothing is placed or freed
6 c0 open 1 -- between `close` and `release` no gate is opened
6 c0 clear 0 | mark 0 1 -- once the marks are closed they stay as they are
6 c0 undirty 0 | black 0 1 | unblack 0 -- once the marks are closed dirty words and black bits aren't changed
6 c0 full -- between `close` and `release` no `new` is refused
6 c0 begin -- a cycle is underway
6 c0 close | want -- the marks are closed already
6 c0 end -- a `release` comes before the end
c0 release
6 c0 grant -- while releasing no object is granted
6 c0 clear 0 | mark 0 1 -- while releasing the marks stay as they are
6 c0 undirty 0 | black 0 1 | unblack 0 -- while releasing dirty words and black bits aren't changed
6 c0 full -- while releasing no `new` is refused
6 c0 begin -- a cycle is underway
6 c0 close | release | want -- these come once in a cycle
c0 open 1
6 c0 give -- while releasing the turn isn't given back
c0 end; head 0 1; used 0 1; grant; tally held 2; give
h take; over
6 h head 0 1 | used 0 1 | quar 0 0 -- when all is over nothing is placed or freed
6 h clear 0 | mark 0 1 | undirty 0 | unblack 0 -- when all is over nothing is marked or cleaned
6 h begin | end -- when all is over no cycle begins or ends
h give
c0 take
6 c0 grant | full -- when all is over no `new` is decided
",
    written: "script s\nscript t\n",
};

/// How a `new` places its object, step by step: a cell of two words, and then a leaf run of two pages.
pub const PLACES: Walk = Walk {
    name: "places",
    scripts: "heap 3 3\ntype A p:A n\ntype C n*65\nscript s\nptr p A\nptr q C\nnew p A\nnew q C\n",
    lines: "\
c0 take
7 c0 give -- the `new` isn't decided
7 c0 head 1 1 -- the first page that fits is page 0
7 c0 head 0 2 -- an object of two words is of class 0, and this is a block of class 1
7 c0 head 0 13 -- the object has a pointer, and this is a leaf block
7 c0 used 0 1 -- page 0 has no header yet
7 c0 quar 0 1 -- a `new` frees nothing
7 c0 grant -- no cell is taken yet
7 c0 full -- the object fits, and no cycle ended in this call
7 c0 wipe 0 -- the word is in no released cell and in no run that the call unmapped
c0 head 0 1
7 c0 head 0 1 -- page 0 has this header already
7 c0 head 0 0 -- a page becomes free only while releasing
7 c0 used 0 2 -- the first cell that fits is cell 0
7 c0 used 0 3 -- a `new` takes one cell
7 c0 grant -- no cell is taken yet
7 c0 full -- the object has a place
c0 used 0 1
7 c0 used 0 3 -- the call took its cell already
7 c0 used 0 0 -- cells are given back only while releasing
7 c0 head 1 1 -- the object has a place on page 0
7 c0 give -- the `new` isn't decided
c0 grant
7 c0 give -- the tally `held` lacks the new object's two words
7 c0 used 0 3 | head 1 1 -- the object is granted, so the call places nothing more
c0 tally held 2; tally fresh 2
7 c0 give -- nothing was freed, so the tally `fresh` has to be 0
c0 tally fresh 0; give
h take
7 h head 1 1 | used 0 3 -- the host places no object
7 h quar 0 1 -- the host frees no object
7 h wipe 0 -- the word is in a live object
h tally held 4
7 h give -- two words are held, and the tally `held` says four
h tally held 2; give
c0 take
7 c0 head 2 26 -- a run's first page gets its header first
7 c0 head 1 41 -- the run is leaf, and this is one that isn't
7 c0 head 1 30 -- the run has two pages, and this is one of a page
7 c0 head 0 46 -- page 0 isn't free
7 c0 used 1 1 -- the run has no headers yet
c0 head 1 46
7 c0 head 1 46 -- page 1 has this header already
7 c0 head 2 42 -- page 2 is one page after the first, and this is two
7 c0 used 1 1 -- the run's later page has no header yet
c0 head 2 26
7 c0 head 2 26 -- page 2 has this header already
7 c0 used 1 2 -- a run's used bit is bit 0
7 c0 used 2 1 -- a run's used bit is at its first page
c0 used 1 1; grant; tally held 130; give
",
    written: "script s\n",
};

/// What a `free` frees, first a cell and then a run, and how the host takes the snapshot.
pub const FREES: Walk = Walk {
    name: "frees",
    scripts: "heap 3 3\ntype A p:A n\ntype C n*65\nscript s\nptr p A\nptr q C\nnum n\nnew p A\nfree p\nfree p\n\
        new q C\nconst n 9\nsetn q 64 n\nfree q\nscript t\n",
    lines: "\
c0 take; head 0 1; used 0 1; grant; tally held 2; give
c0 take; reg
7 c0 give -- the `free` isn't decided
7 c0 quar 0 2 | quar 1 1 -- the register points into cell 0 of page 0, and this frees another cell
7 c0 quar 0 3 -- a `free` frees one cell
7 c0 quar 0 4294967296 -- cell 0 isn't freed, so it isn't put into the snapshot
c0 quar 0 1
7 c0 quar 0 1 | quar 0 3 -- the call freed its object already
7 c0 give -- the tally `fresh` lacks the freed object's two words
c0 tally fresh 2; give; take; reg
7 c0 quar 0 1 -- cell 0 is freed already
7 c0 quar 0 0 -- outside a release nothing loses its freed bit
7 c0 quar 0 12884901889 -- cell 1 isn't freed, so it isn't put into the snapshot
c0 look quar 1
7 c0 give -- a look at another page's quarantine word doesn't decide the `free`
c0 look quar 0; give
c0 take; head 1 46; head 2 26; used 1 1; grant; tally held 130; give
c0 enter; reg; probe; write; dirty; leave
c0 take; reg; hold 1
7 c0 quar 1 2 -- a run's freed bit is bit 0
7 c0 quar 2 1 -- a run's freed bit is at its first page
7 c0 head 1 43 -- a run is unmapped only after its `quar`
7 c0 wipe 64 -- the run isn't freed yet
c0 quar 1 1
7 c0 quar 1 1 -- the call freed its object already
7 c0 head 2 28 -- a run's first page is unmapped first
7 c0 head 1 59 -- the run has two pages, and this is one of three
7 c0 wipe 64 | open 1 -- the run isn't unmapped yet
c0 head 1 43
7 c0 head 1 43 -- page 1 is unmapped already
7 c0 wipe 64 | wipe 128 | open 1 -- the run's later page isn't unmapped yet
c0 head 2 28
7 c0 head 2 28 -- page 2 is unmapped already
7 c0 wipe 0 -- the word is outside the run
7 c0 open 1 -- the run isn't wiped: heap word 128 is still 9
c0 wipe 128; open 1
7 c0 give -- the tally `held` still counts the run that was unmapped
c0 tally held 2; give
h take; tally fresh 0; quar 0 4294967297
7 h begin -- the snapshot of page 1 isn't taken
7 h quar 1 0 -- outside a release nothing loses its freed bit
7 h quar 1 12884901889 -- cell 1 isn't freed, so it isn't put into the snapshot
h quar 1 4294967297; tally fresh 2
7 h begin -- the tally `fresh` isn't 0
h tally fresh 0; begin
7 h quar 0 4294967297 | quar 1 4294967297 -- the snapshot is taken only before a cycle begins
",
    written: "script s\n10: double\nscript t\n",
};

/// A `free` of a run ends only when the run is unmapped and wiped.
pub const RUN_FREED: Walk = Walk {
    name: "a freed run",
    scripts: "heap 2 2\ntype C n*65\nscript s\nptr p C\nnum n\nnew p C\nconst n 9\nsetn p 64 n\nfree p\n",
    lines: "\
c0 take; head 0 46; head 1 26; used 0 1; grant; tally held 128; give
c0 enter; reg; probe; write; dirty; leave
c0 take; reg; quar 0 1; tally held 0
7 c0 give -- the freed run is still mapped
c0 head 0 43
7 c0 give -- the run's later page is still mapped
c0 head 1 28
7 c0 give -- the run isn't wiped: heap word 64 is still 9
c0 wipe 64; give
",
    written: "script s\n",
};

/// A mark is that of the cell into which the value in hand points, or those of a page that becomes a block or a run.
pub const MARKS: Walk = Walk {
    name: "marks",
    scripts: "heap 4 4\ntype A p:A n\ntype B n*32\ntype C n*65\nscript s\nptr p A\nptr q A\nptr r A\nptr b B\n\
        ptr c C\nnew p A\nnew q A\nsetp p 0 q\nnew r A\nsetp r 0 r\nnew b B\nnew c C\n",
    lines: "\
c0 take; head 0 1; used 0 1; grant; tally held 2; give
c0 take; used 0 3; grant; tally held 4; give
c0 enter; reg; reg; probe; write; dirty; leave
c0 take; used 0 7; grant; tally held 6; give
c0 enter; reg; reg; probe; write; dirty; leave
h take; hold 0; look reg 0 0; begin
7 h mark 0 1 -- what was in hand before the `begin` no longer is
7 h mark 0 4294967295 -- all cells of a page are marked only by a `new` that makes the page a block
h look reg 0 0
7 h mark 0 0 -- one bit is added, and this is none
7 h mark 0 2 | mark 1 1 -- the value in hand points into cell 0 of page 0, and this marks another cell
7 h mark 0 3 -- one bit is added, and these are two
h look heap 4; mark 0 1; look heap 4
7 h mark 0 2 -- the value in hand points into cell 0
7 h mark 0 4 -- a word of cell 2, which isn't marked, doesn't come in hand
h look heap 0
7 h mark 0 1 | mark 0 4 -- the value in hand points into cell 1 now
h mark 0 2; open 0; give
c0 take
7 c0 mark 0 2 -- what was in hand before the `give` no longer is
7 c0 mark 1 1 -- both cells of the new block have to be marked
7 c0 mark 2 3 -- the new block is on page 1
7 c0 head 1 125 -- while marking the new block's cells are marked before its header
c0 mark 1 3; mark 1 3
7 c0 mark 2 3 -- the `mark` fixed the object's place on page 1
c0 head 1 125
7 c0 mark 1 3 -- page 1 has its header, so it isn't marked as a new block
c0 used 1 1; grant; tally held 38; give
c0 take
7 c0 mark 2 3 -- a run is marked by bit 0
7 c0 mark 3 1 -- a run is marked at its first page
7 c0 head 2 46 -- while marking the run is marked before its headers
c0 mark 2 1
7 c0 mark 3 1 -- a run is marked at its first page
7 c0 head 3 26 -- a run's first page gets its header first
c0 head 2 46; head 3 26; used 2 1; grant; tally held 166; give
",
    written: "script s\n",
};

/// A `full` comes after a cycle of its own call. The cycle that ends first was begun before the call.
pub const FULL: Walk = Walk {
    name: "full",
    scripts: "heap 1 1\ntype B n*32\nscript s\nptr p B\nptr q B\nptr r B\nnew p B\nnew q B\nnew r B\n",
    lines: "\
c0 take; begin; want
7 c0 mark 0 3 -- once closing is wanted no page of a place is marked
c0 close; release; end
7 c0 full -- a cycle ended in this call, but the object fits
c0 head 0 125; used 0 1; grant; tally held 32; give
c0 take; used 0 3; grant; tally held 64; give
h take; begin; give
c0 take; look reg 0 0; mark 0 1; look reg 0 1; mark 0 2; want
c0 black 0 1; black 0 2; close; release; end
7 c0 full -- the cycle that ended in this call was begun by the host
7 c0 head 0 125 | used 0 7 -- nothing fits, so the object has no place
7 c0 begin -- page 0 still has marks and black bits
c0 clear 0
7 c0 begin -- page 0 still has black bits
c0 unblack 0; begin; look reg 0 0; mark 0 1; look reg 0 1; mark 0 2; want
c0 black 0 1; black 0 2; close; release; end; full
c0 unblack 0
7 c0 begin -- page 0 still has marks
c0 give
",
    written: "script s\n9: full\n",
};
