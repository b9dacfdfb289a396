//! A client: who has a marker's pass that is out may mark with it, and nothing more is asked.
ghost use Rattle.std.specs.Prelude.{◌≡◌};
ghost use Rattle.mk_heap.specs.Below.Markers.Markers.{IsMarkers, IsOut};

use mk_heap::lower::markers::{Marker, Work};
use mk_heap::lower::words::{Pass, Words};

/// Marks for the cycle that is on, as long as there is work and no close is wanted, but at most this many cells. The
/// pass is out again then.
pub(crate) fn mark_some(words: &Words, pass: Pass, most: u64) -> Pass
    requires one_table { pass.table ≡ words.now }
    requires marker { IsMarkers pass }
    requires out { IsOut pass }
    ensures one_table { result.table ≡ words.now }
    ensures seat { result.seat ≡ pass.seat }
    ensures seats { result.seats ≡ pass.seats }
    ensures out { IsOut result }
{
    let mut marker = Marker::new(words, pass);
    match marker.attend() {
        Err(_) => marker.finish(),
        Ok(()) => {
            'cells: for _cell in 0..most {
                match marker.work() {
                    Work::Worked => {}
                    Work::Idle | Work::Wanted => break,
                }
            }
            marker.quit();
            marker.finish()
        }
    }
}

/// A marker may be moved to another thread.
fn moved<T: Send>(value: T) -> T {
    value
}

pub(crate) fn move_marker<'h>(marker: Marker<'h>) -> Marker<'h> {
    moved(marker)
}
