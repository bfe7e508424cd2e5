ghost use Rattle.std.specs.Prelude.{◌≡◌, ◌+◌, ◌≤◌, ◌++◌, ◌↔◌, IfSome, IsSome, replicate};
ghost use Rattle.arrayvec.specs.ArrayVec.{array_vec_len};
ghost use Rattle.xbar_markers.specs.CallMarkers.{AreCallMarkers};
ghost use Rattle.xbar_markers.specs.DesksByKind.{kinds_of};

use arrayvec::ArrayVec;
use xbar_moves::{Kind, Kinds, MOST_MARKERS};

/// The markers of live calls: first those that dial, and then those that complete calls and release
/// them. There is at least one of each, and there are at most 48 in all.
#[derive(Debug, Drop)]
pub struct CallMarkers {
    dialling: usize,
    completing: usize,
    kinds: Kinds,
    ghost valid: { AreCallMarkers dialling completing × (kinds ≡ kinds_of dialling completing) },
}

/// Adds so many markers of this kind.
fn add(kinds: &mut ArrayVec<Kind, MOST_MARKERS>, count: usize, kind: Kind)
    requires { array_vec_len kinds.old + count ≤ 48 }
    ensures { kinds.new.items ≡ kinds.old.items ++ replicate count kind }
{
    for _ in 0..count {
        kinds.push(kind);
    }
}

impl CallMarkers {
    /// So many markers that dial, and so many that complete calls; or None if these are too few or
    /// too many.
    pub fn new(dialling: usize, completing: usize) -> Option<Self>
        ensures known { IsSome result ↔ AreCallMarkers dialling completing }
        ensures dialling { IfSome result (λ markers. markers.dialling ≡ dialling) }
        ensures completing { IfSome result (λ markers. markers.completing ≡ completing) }
    {
        if dialling == 0 || completing == 0 || dialling.saturating_add(completing) > MOST_MARKERS {
            return None;
        }
        let mut kinds = ArrayVec::new();
        add(&mut kinds, dialling, Kind::Dial);
        add(&mut kinds, completing, Kind::Completing);
        Some(CallMarkers {
            dialling,
            completing,
            kinds: Kinds::new(&kinds)?,
        })
    }

    /// How many markers these are.
    pub fn count(&self) -> usize
        ensures { result ≡ self.now.dialling + self.now.completing }
    {
        self.kinds.as_slice().len()
    }

    /// Their kinds, marker 0 first.
    pub fn kinds(&self) -> &Kinds
        ensures kinds { result.now ≡ kinds_of self.now.dialling self.now.completing }
        ensures valid { AreCallMarkers self.now.dialling self.now.completing }
    {
        &self.kinds
    }
}
