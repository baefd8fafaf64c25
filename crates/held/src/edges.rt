//! The left edge of a glyph.
ghost use Rattle.held.specs.Edges.{HeldEdge, left_edge};
ghost use Rattle.std.specs.Prelude.{◌≡◌};

use glyph::Lists;

// Apart from `left_edge`: tried as one function, and the proof did not close.
fn edge_at(lists: &Lists, index: usize) -> i16
    ensures { result ≡ left_edge lists.now index }
{
    lists
        .records
        .get(index)
        .map_or(0, |glyph_record| glyph_record.bbox.x_min)
}

/// The `x_min` of glyph `index`, which is 0 for an empty glyph and past the records.
#[tactic(auto, using(crate::proofs::Boxed::held_edge))]
pub fn left_edge(lists: &Lists, index: usize) -> i16
    ensures answer { result ≡ left_edge lists.now index }
    ensures glyph { HeldEdge lists.now index result }
{
    edge_at(lists, index)
}
