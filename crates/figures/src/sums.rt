// Counts added up.
ghost use Rattle.std.specs.Prelude.{◌≡◌, ◌+◌};
ghost use Rattle.figures.specs.Code.{cap_of, capped};
ghost use Rattle.figures.specs.Figures.{plus_of, too_many_of};

use crate::Counts;

// Two numbers added up, as far as it matters.
#[tactic(auto, unfolding(crate::specs::Code::cap_of))]
fn sum(a: u64, b: u64) -> u64
    ensures { result ≡ cap_of (a + b) }
{
    a.saturating_add(b).min(4294967296)
}

pub(crate) fn plus(a: Counts, b: Counts) -> Counts
    ensures { result ≡ capped (plus_of a b) }
{
    Counts {
        sound: sum(a.sound, b.sound),
        missing: sum(a.missing, b.missing),
        refused_8: sum(a.refused_8, b.refused_8),
        refused_9: sum(a.refused_9, b.refused_9),
        refused_15: sum(a.refused_15, b.refused_15),
        refused_20: sum(a.refused_20, b.refused_20),
        marked_0: sum(a.marked_0, b.marked_0),
        marked_1: sum(a.marked_1, b.marked_1),
        marked_2: sum(a.marked_2, b.marked_2),
    }
}

// Whether one of them is above 4,294,967,295.
#[tactic(auto, unfolding(crate::specs::Figures::too_many_of))]
pub(crate) fn too_many(c: Counts) -> bool
    ensures { result ≡ too_many_of c }
{
    4294967295 < c.sound
        || 4294967295 < c.missing
        || 4294967295 < c.refused_8
        || 4294967295 < c.refused_9
        || 4294967295 < c.refused_15
        || 4294967295 < c.refused_20
        || 4294967295 < c.marked_0
        || 4294967295 < c.marked_1
        || 4294967295 < c.marked_2
}
