//! Sums over the glyphs of a face.
ghost use Rattle.std.specs.Prelude.{◌≡◌, take, count_by};
ghost use Rattle.listing.specs.Summaries.{is_composite, is_empty, is_kind, is_simple, Summed};

use forme::Forme;
use glyph::{GlyphKind, GlyphRecord, Lists};

/// How many glyphs there are of each kind.
#[derive(Clone, Copy)]
pub struct Kinds {
    pub empty: u64,
    pub simple: u64,
    pub composite: u64,
}

/// How many glyphs a face has, and how many places of each list they take. No list of records is so long that a sum
/// passes 128 bits.
#[derive(Clone, Copy)]
pub struct Summary {
    pub kinds: Kinds,
    pub ends: u128,
    pub points: u128,
    pub components: u128,
    pub instructions: u128,
}

impl Summary {
    /// Sums up the glyphs that a forme has in the lists.
    pub fn new(forme: &Forme, lists: &Lists) -> Summary
        ensures { Summed (take forme.now.glyphs lists.now.records.items) result }
    {
        let records = lists.records.as_slice();
        sum(&records[..records.len().min(forme.num_glyphs())])
    }
}

fn sum(records: &[GlyphRecord]) -> Summary
    ensures { Summed records.now result }
{
    Summary {
        kinds: count(records),
        ends: records.iter().map(|r| u128::from(r.ends.len)).sum(),
        points: records.iter().map(|r| u128::from(r.points.len)).sum(),
        components: records.iter().map(|r| u128::from(r.components.len)).sum(),
        instructions: records.iter().map(|r| u128::from(r.instructions.len)).sum(),
    }
}

fn count(records: &[GlyphRecord]) -> Kinds
    ensures empty { result.empty ≡ count_by (λ r. is_empty r.kind) records.now }
    ensures simple { result.simple ≡ count_by (λ r. is_simple r.kind) records.now }
    ensures composite { result.composite ≡ count_by (λ r. is_composite r.kind) records.now }
{
    Kinds {
        empty: count_of(records, GlyphKind::Empty),
        simple: count_of(records, GlyphKind::Simple),
        composite: count_of(records, GlyphKind::Composite),
    }
}

fn count_of(records: &[GlyphRecord], kind: GlyphKind) -> u64
    ensures { result ≡ count_by (λ r. is_kind kind r.kind) records.now }
{
    records.iter().filter(|r| r.kind == kind).count() as u64
}
