//! Schedules of whole cycles, of what markers do in them, and of what calls answer. Which events are refused, and why,
//! is worked out by hand from `docs/SCHEDULES.md`, and so are headers, places and texts.

use super::walks::Walk;

/// The marks are closed only when what globals point to is marked and black.
pub const GLOBALS: Walk = Walk {
    name: "globals",
    scripts: "heap 1 1\ntype B n*32\nglobal g B\nscript s\nptr p B\nnew p B\nstoreg p g\nclear p\n",
    lines: "\
c0 take; head 0 125; used 0 1; grant; tally held 32; give
c0 enter; reg; setg; leave; enter; reg; leave
h take; hold 0; begin; want
7 h close -- the global points to a cell that isn't marked
h look global 0; mark 0 1
7 h close -- cell 0 is marked and isn't black
h black 0 1; close
",
    written: "script s\n",
};

/// Which cells may be blackened, and which dirty words cleared. A run's later page has its black bit at the first page.
pub const BLACKS: Walk = Walk {
    name: "black cells",
    scripts: "heap 3 3\ntype A p:A n\ntype D n*64 p:A\nscript s\nptr p A\nptr q A\nptr d D\nnew p A\nnew q A\n\
        setp p 0 q\nnew d D\nsetp d 64 q\n",
    lines: "\
c0 take; head 0 1; used 0 1; grant; tally held 2; give
c0 take; used 0 3; grant; tally held 4; give
c0 enter; reg; reg; probe; write; dirty; leave
c0 take; head 1 41; head 2 26; used 1 1; grant; tally held 132; give
c0 enter; reg; reg; probe; write; dirty; leave
h take; hold 0; begin; want
7 h close -- registers point to cells that aren't marked
7 h black 0 1 | black 1 1 -- a cell that isn't marked doesn't become black
h look reg 0 0; mark 0 1; look reg 0 2; mark 1 1
7 h black 0 1 | black 1 1 -- the object points to cell 1 of page 0, which isn't marked
7 h black 0 2 -- a cell that isn't marked doesn't become black
7 h black 1 2 -- a run's black bit is bit 0
7 h black 2 1 -- a run's black bit is at its first page
h look heap 0; mark 0 2
7 h black 0 0 -- one bit is added, and this is none
7 h black 0 3 -- one bit is added, and these are two
7 h black 0 4 -- a cell that isn't marked doesn't become black
h black 0 1; black 0 2; black 1 1
7 h undirty 0 -- cells of the page are black
7 h undirty 1 | undirty 2 -- the run is black
h unblack 0; undirty 0; black 0 1; black 0 2
7 h close -- page 2 is dirty
h unblack 1; undirty 2
7 h close -- the run is marked and isn't black
h black 1 1; close
",
    written: "script s\n",
};

/// A stop waits until no marker attends. A marker that comes in later doesn't attend.
pub const STOP: Walk = Walk {
    name: "a stop beside markers",
    scripts: "heap 2 2\ntype A p:A n\nscript s\nptr p A\nnew p A\n",
    lines: "\
c0 take; head 0 1; used 0 1; grant; tally held 2; give
h take; hold 0; begin; look reg 0 0; mark 0 1
m0 attend
h want
7 h close | black 0 1 | undirty 0 | undirty 1 | unblack 0 | unblack 1 -- marker 0 attends
m0 mlook head 0; claim 0 0; mload; mload; mblack
7 h close -- marker 0 still attends, though its scan is over
m0 quit
m1 attend
7 m1 mlook phase -- a marker that comes in once closing is wanted doesn't attend
h close; release; end; open 0; give
",
    written: "script s\n",
};

/// Only released cells are given back. Cell 0 is released. Cell 1 and the run are live, and cell 2 was freed after the
/// begin.
pub const RELEASE: Walk = Walk {
    name: "released cells",
    scripts: "heap 3 3\ntype A p:A n\ntype C n*65\nscript s\nptr p A\nptr q A\nptr r A\nptr c C\nnum n\nnew p A\n\
        new q A\nsetp p 0 q\nnew r A\nnew c C\nconst n 9\nsetn p 1 n\nfree p\nclear p\nfree r\nclear r\n",
    lines: "\
c0 take; head 0 1; used 0 1; grant; tally held 2; give
c0 take; used 0 3; grant; tally held 4; give
c0 enter; reg; reg; probe; write; dirty; leave
c0 take; used 0 7; grant; tally held 6; give
c0 take; head 1 46; head 2 26; used 1 1; grant; tally held 134; give
c0 enter; reg; probe; write; dirty; leave
c0 take; reg; quar 0 1; tally fresh 2; give; enter; reg; leave
h take; undirty 0; quar 0 4294967297; tally fresh 0; begin; give
c0 take; reg; quar 0 4294967301; tally fresh 2; give; enter; reg; leave
h take; hold 0; look reg 0 1; mark 0 2; look reg 0 3; mark 1 1; want; black 0 2; black 1 1; close; release
7 h used 0 6 -- cell 0 is released, but its words aren't 0
7 h used 0 5 -- cell 1 isn't freed, so it isn't given back
7 h used 0 3 -- cell 2 was freed after the begin, so it isn't given back
7 h used 0 15 -- while releasing no cell is taken
7 h quar 0 4 | quar 0 5 -- cell 0 is still used
7 h wipe 2 | wipe 64 -- the word is in a live object
7 h wipe 4 -- the word is in cell 2, which was freed after the begin
7 h head 0 0 -- cells of page 0 are used
7 h head 1 0 | head 2 0 -- the run is live
7 h end -- cell 0 is released and isn't given back
h wipe 0; wipe 1; used 0 6
7 h quar 0 0 -- cell 2 isn't released, so it keeps its freed bit
7 h quar 0 5 -- cell 0 would lose its snapshot bit and keep its freed bit
7 h quar 0 4294967300 -- cell 0 would lose its freed bit and keep its snapshot bit
7 h quar 0 4294967303 -- while releasing nothing is freed, and this frees cell 1
7 h end -- cell 0 is still in the snapshot
h quar 0 4
7 h head 0 0 -- cells of page 0 are used
h end; open 0
7 h give -- the tally `held` still counts cell 0
h tally held 132; give
",
    written: "script s\n",
};

/// Pages become free when no cell of them is used or freed, and then all cycles end.
pub const FREED_PAGES: Walk = Walk {
    name: "freed pages",
    scripts: "heap 3 3\ntype B n*32\ntype C n*65\nscript s\nptr b B\nptr c C\nnew b B\nnew c C\nfree b\nclear b\n\
        free c\nclear c\n",
    lines: "\
7 h over -- the host hasn't the turn
c0 take; head 0 125; used 0 1; grant; tally held 32; give
c0 take; head 1 46; head 2 26; used 1 1; grant; tally held 160; give
c0 take; reg; quar 0 1; tally fresh 32; give; enter; reg; leave
c0 take; reg; quar 1 1; head 1 43; head 2 28; tally held 32; give; enter; reg; leave
h take; hold 0; quar 0 4294967297; quar 1 4294967297; tally fresh 0; begin
7 h over -- a cycle is underway
h want; close; release
7 h head 0 0 -- cell 0 of the page is used
7 h head 2 0 -- the run has its used bit, at page 1
7 h end -- released cells are left
7 h over -- a cycle is underway
h used 0 0; used 1 0
7 h head 0 0 -- cell 0 of the page still has its freed bit
7 h head 1 0 | head 2 0 -- the run still has its freed bit
7 h end -- released cells are still in the snapshot
h quar 0 0; quar 1 0
7 h head 0 125 -- while releasing a page only becomes free
7 h end -- pages without a used cell still have headers
h head 0 0; head 1 0
7 h end -- page 2 still has a header, and its run has no used bit
h head 2 0; end; over
7 h over -- all is over already
h open 0; tally held 0; give
7 h over -- the host hasn't the turn
",
    written: "script s\n",
};

/// A marker scans a cell of which it saw the header. A number in cell 0 looks like an address in page 1, which is free.
/// Cell 1 isn't marked, so no scan of it begins.
pub const SCAN: Walk = Walk {
    name: "a scan",
    scripts: "heap 2 2\ntype A p:A n\nscript s\nptr p A\nptr q A\nnum n\nnew p A\nnew q A\nsetp p 0 q\nconst n 66048\n\
        setn p 1 n\n",
    lines: "\
c0 take; head 0 1; used 0 1; grant; tally held 2; give
c0 take; used 0 3; grant; tally held 4; give
c0 enter; reg; reg; probe; write; dirty; leave
c0 enter; reg; probe; write; dirty; leave
7 m0 quit | mlook phase | mlook head 0 | claim 0 0 | mload | mmark | mblack -- marker 0 is out
m0 attend
7 m0 attend -- marker 0 is in already
7 m0 mlook phase | mlook head 0 | claim 0 0 | mload | mmark | mblack -- it came in while no cycle was marking
m0 quit
7 m0 quit -- marker 0 is out already
h take; begin; hold 0; look reg 0 0; mark 0 1; open 0; give
m0 attend
7 m0 attend -- marker 0 is in already
7 m0 mlook used 0 | mlook held -- a marker looks at the phase, at headers, marks and black bits only
7 m0 claim 0 0 -- it hasn't looked at the header of page 0
7 m0 mload | mblack -- it scans nothing
7 m0 mmark -- nothing is in hand
m0 mlook head 0; mlook mark 0
7 m0 claim 0 0 -- its last look was at a mark word, and not at a header
m0 mlook head 1
7 m0 claim 0 0 -- its last look was at the header of page 1
7 m0 claim 1 0 -- the header says that page 1 is free, so there is no cell
m0 mlook head 0; claim 0 1
7 m0 mload | mblack -- cell 1 isn't marked, so no scan began
7 m0 claim 1 0 -- its last look was at the header of page 0
m0 claim 0 0
7 m0 claim 0 0 | claim 0 1 -- it scans a cell already
7 m0 mmark -- nothing is in hand
7 m0 mblack -- the words of the cell aren't loaded yet
m0 mload; mlook phase
7 m0 mload -- a value is in hand
7 m0 mmark -- its last look was at the phase, and not at a header
7 m0 mblack -- a value is in hand, and a word isn't loaded yet
m0 mlook head 1
7 m0 mmark -- the value in hand points into page 0, and its last look was at the header of page 1
m0 mlook head 0; mmark
7 m0 mmark -- nothing is in hand any longer
7 m0 mblack -- a word isn't loaded yet
m0 mload
7 m0 mload -- the cell has no third word
7 m0 mmark -- the value in hand points into page 1, and its last header was that of page 0
7 m0 mblack -- a value is in hand
m0 mlook head 1
7 m0 mload -- the cell has no third word
7 m0 mmark -- page 1 is free, so nothing is in hand any longer
7 m0 claim 1 0 -- it scans a cell already, and page 1 has none
m0 mblack
7 m0 mload | mblack -- the scan is over
m0 quit
7 m0 quit | mlook phase -- marker 0 is out
",
    written: "script s\n",
};

/// An object that is freed after the begin isn't released by this cycle, but by the next one.
pub const FREED_BEHIND: Walk = Walk {
    name: "freed after the begin",
    scripts: "heap 1 1\ntype B n*32\nscript s\nptr p B\nptr q B\nptr r B\nnew p B\nnew q B\nfree p\nfree q\nclear p\n\
        clear q\nnew r B\nshow r\n",
    lines: "\
c0 take; head 0 125; used 0 1; grant; tally held 32; give
c0 take; used 0 3; grant; tally held 64; give
c0 take; reg; quar 0 1; quar 0 4294967297; begin; give
c0 take; reg; quar 0 4294967299; tally fresh 32; give
c0 enter; reg; leave
h take; hold 0; want
7 h close -- register 1 points to cell 1, which isn't marked
h open 0
c0 enter; reg; leave
h hold 0; close; release
7 h used 0 0 -- cell 1 was freed after the begin, so it isn't given back
h used 0 2; quar 0 2; tally held 32; end; open 0; give
c0 take; quar 0 8589934594; tally fresh 0; begin; want; close; release; used 0 0; quar 0 0; head 0 0
c0 tally held 0; end; head 0 125; used 0 1; grant; tally held 32; give
c0 enter; reg; leave
",
    written: "script s\nptr\n",
};

/// While marking, the cells of a new block are marked before its header is stored.
pub const CARVED: Walk = Walk {
    name: "a new page while marking",
    scripts: "heap 2 2\ntype B n*32\ntype E n*2\nscript s\nptr b B\nptr e E\nnew b B\nfree b\nnew e E\n",
    lines: "\
c0 take; head 0 125; used 0 1; grant; tally held 32; give
c0 take; reg; quar 0 1; quar 0 4294967297; begin; give
c0 take
7 c0 head 1 13 -- while marking the new block's cells are marked before its header
c0 mark 1 4294967295; head 1 13
",
    written: "script s\n",
};

/// A pointer moves from an object that isn't marked to one that a marker made black, and the stop finds it. No part of
/// the stop may be left out.
pub const MOVE: Walk = Walk {
    name: "a pointer that moves",
    scripts: "heap 1 1\ntype A p:A n\nscript s\nptr x A\nptr y A\nptr z A\nptr w A\nnum n\nnew x A\nnew y A\nnew z A\n\
        setp y 0 z\nconst n 7\nsetn z 1 n\nfree z\nclear z\ngetp z y 0\nsetp x 0 z\nsetp y 0 w\nclear z\ngetp z x 0\n\
        getn n z 1\nprint n\n",
    lines: "\
c0 take; head 0 1; used 0 1; grant; tally held 2; give
c0 take; used 0 3; grant; tally held 4; give
c0 take; used 0 7; grant; tally held 6; give
c0 enter; reg; reg; probe
3 c0 dirty -- a `setp` stores its word before the dirty word
c0 write
h take; hold 0
5 h want -- the caller is in a call, so `hold 0` didn't get its gate
h give
c0 dirty; leave
c0 enter; reg; probe
3 c0 dirty -- a `setn` stores its word before the dirty word
c0 write; dirty; leave
c0 take; reg; quar 0 4; undirty 0; quar 0 17179869188; begin; look reg 0 0; mark 0 1; give
c0 enter; reg; leave
m0 attend; mlook head 0; claim 0 0; mload; mload; mblack
c0 enter; reg; probe; read; reg; leave
c0 enter; reg; reg; probe; write; dirty; leave
c0 enter; reg; reg; probe; write; dirty; leave
c0 enter; reg; leave
h take; hold 0; want
7 h unblack 0 | close -- marker 0 attends
m0 quit; attend
7 m0 mlook head 0 -- a marker that comes in once closing is wanted doesn't attend
7 h undirty 0 -- cell 0 of the page is black
7 h close -- page 0 is dirty
h unblack 0; undirty 0; look reg 0 0; mark 0 1; look reg 0 1; mark 0 2
7 h mark 0 4 -- the value in hand points into cell 1
h black 0 2
7 h black 0 1 -- cell 0 points to cell 2, which isn't marked
7 h close -- cell 0 is marked and isn't black
h look heap 0; mark 0 4; black 0 1
7 h close -- cell 2 is marked and isn't black
h black 0 4; close; release; end; open 0; give
c0 enter; reg; probe; read; reg; leave
c0 enter; reg; probe; read; leave
",
    written: "script s\n7\n",
};

/// What calls answer, with an object in register `p`, and a freed run in `q`. No event is refused here.
pub const ANSWERS: Walk = Walk {
    name: "answers",
    scripts: "heap 3 3\ntype A p:A n\ntype D n*64 p:A\nglobal g A\nscript s\nptr p A\nptr q D\nptr z A\nptr w A+1\n\
        ptr x A\nptr y A\nnum n\nnum m\nnew p A\nnew q D\nfree q\nconst n 5\nsetn p 1 n\ngetn m p 1\nprint m\n\
        getn m q 0\nsetp q 64 p\ngetn m z 1\nlea w p 1\ngetn m w 0\nprint m\nmove x p\nsame m x p\nprint m\n\
        getp x q 64\nshow x\nlea y p 0\nshow y\nlea y z 0\nshow y\ncasp m p 0 z p\nprint m\ncasp m p 0 z x\nprint m\n\
        getp y p 0\nsame m y p\nprint m\nstoreg y g\nloadg x g\nshow x\n\
        clear x\nshow x\nsame m x p\nprint m\nfree q\nfree z\n",
    lines: "\
c0 take; head 0 1; used 0 1; grant; tally held 2; give
c0 take; head 1 41; head 2 26; used 1 1; grant; tally held 130; give
c0 take; reg; quar 1 1; head 1 43; head 2 28; tally held 2; give
c0 enter; reg; probe; write; dirty; leave
c0 enter; reg; probe; read; leave
c0 enter; reg; probe; leave
c0 enter; reg; reg; probe; leave
c0 enter; reg; leave
c0 enter; reg; reg; leave
c0 enter; reg; probe; read; leave
c0 enter; reg; reg; leave
c0 enter; reg; reg; leave
c0 enter; reg; probe; reg; leave
c0 enter; reg; leave
c0 enter; reg; reg; leave
c0 enter; reg; leave
c0 enter; reg; reg; leave
c0 enter; reg; leave
c0 enter; reg; reg; reg; probe; cas; dirty; leave
c0 enter; reg; reg; reg; probe; cas; dirty; leave
c0 enter; reg; probe; read; reg; leave
c0 enter; reg; reg; leave
c0 enter; reg; setg; leave
c0 enter; getg; reg; leave
c0 enter; reg; leave
c0 enter; reg; leave
c0 enter; reg; leave
c0 enter; reg; reg; leave
c0 take; reg; look quar 1; give
c0 take; reg; give
",
    written: "script s\n5\n21: fault\n22: fault\n23: null\n5\n1\n30: fault\nnull\nptr\n34: null\nnull\n1\n0\n1\nptr\n\
        null\n0\n50: double\n",
};
