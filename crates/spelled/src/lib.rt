//! A read of a transformed glyf table answers the glyphs that the table spells, and no others.
#![tactic(auto)]
