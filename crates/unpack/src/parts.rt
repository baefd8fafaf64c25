//! The components of a composite glyph.
ghost use Rattle.std.specs.Prelude.{◌≡◌, suc, ◌+◌, ◌≤◌, false, ◌||◌, [], length, Ok, Err, MatchResult};
ghost use Rattle.composite.specs.Components.{has};
ghost use Rattle.unpack.specs.Composites.{components_said};
ghost use Rattle.glyph.specs.Laying.{laid};

use composite::{MORE_COMPONENTS, WE_HAVE_INSTRUCTIONS, has, read_component};
use glyph::{Component, lay};
use read::ReadCtxt;
use read::error::ParseError;

/// Reads components until one lacks `MORE_COMPONENTS`, and lays them. Returns how many there are, and whether one has
/// `WE_HAVE_INSTRUCTIONS`.
pub(crate) fn read_components(
    ctxt: &mut ReadCtxt<'_>,
    components: &mut [Component],
    at: u32,
) -> Result<(usize, bool), ParseError>
    ensures none_more { length ctxt.new.rest.now ≤ length ctxt.old.rest.now }
    ensures read { MatchResult (components_said (suc (length ctxt.old.rest.now)) [] false ctxt.old.rest.now) (λ p. (result ≡ Ok (length p.0, p.1)) × (ctxt.new.rest.now ≡ p.2) × (components.new ≡ laid at p.0 components.old) × (length ctxt.new.rest.now + length p.0 ≤ length ctxt.old.rest.now)) (λ e. result ≡ Err e) }
{
    // A loop that yields the mark by `break`: only its flags tell whether a component is the last.
    let mut count: usize = 0;
    let mut have_instructions = false;
    let mark = loop {
        let component = read_component(ctxt)?;
        lay(components, at as usize + count, component);
        count += 1;
        have_instructions = marked(have_instructions, component.flags);
        if !has(component.flags, MORE_COMPONENTS) {
            break have_instructions;
        }
    };
    Ok((count, mark))
}

fn marked(mark: bool, flags: u16) -> bool
    ensures { result ≡ (mark || has flags 0x0100) }
{
    mark || has(flags, WE_HAVE_INSTRUCTIONS)
}
