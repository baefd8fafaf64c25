//! The forme.
ghost use Rattle.forme.specs.Formes.{empty};
ghost use Rattle.std.specs.Prelude.{◌≡◌};

/// Type locked up for printing is a forme. Here it is the numbers that say what the lists hold: how many glyphs, and,
/// once it is fitted, how many full metrics and how many bearings behind them.
// The lists are the caller's and no part of a forme.
#[derive(Drop)]
pub struct Forme {
    pub(crate) glyphs: u32,
    pub(crate) metrics: Option<Metrics>,
}

/// How many full metrics there are, and how many bearings behind them.
#[derive(Clone, Copy)]
pub(crate) struct Metrics {
    pub(crate) full: u32,
    pub(crate) tail: u32,
}

impl Forme {
    /// An empty forme, unfitted.
    pub fn new() -> Forme
        ensures { result ≡ empty }
    {
        Forme {
            glyphs: 0,
            metrics: None,
        }
    }

    /// Empties the forme. No list is touched.
    pub fn strike(&mut self)
        ensures { self.new ≡ empty }
    {
        *self = Forme::new();
    }

    /// How many glyphs the forme holds.
    pub fn num_glyphs(&self) -> usize
        ensures { result ≡ self.now.glyphs }
    {
        self.glyphs as usize
    }
}
