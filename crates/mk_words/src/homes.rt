//! Where the page map lies while nobody has the turn.
ghost use Rattle.std.specs.Prelude.{◌≡◌, ◌<◌, length};

use mk_core::lower::books::PageMap;
use std::marker::Model;

/// The table's only slot. While nobody has the turn the page map lies in it, and else nothing. The map is behind a
/// pointer, so that a turn is moved in few words.
#[derive(Drop)]
pub struct MapHome {
    pub(crate) map: Option<Box<PageMap>>,
}

impl Model for MapHome {
    ghost use Rattle.mk_core.specs.Below.Books.KnownPages.{KnownPages};

    ghost Value = { KnownPages };

    ghost use Rattle.mk_words.specs.PageMaps.{map_in};

    ghost view = { λ h. map_in (λ map. map.value) h.map };
}

impl MapHome {
    /// Hands out the map that lies there.
    #[inline(always)]
    pub(crate) fn into_map(self) -> Box<PageMap>
        requires { 0 < length self.pages }
        ensures { result.value ≡ self }
    {
        match self.map {
            Some(map) => map,
            None => unreachable!(),
        }
    }
}
