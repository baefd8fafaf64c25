//! A read of standard glyf and loca tables answers the glyphs that the tables tell, and no others.
#![tactic(auto)]
